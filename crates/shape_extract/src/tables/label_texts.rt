// The texts of labels: a letter, and then a number in decimal digits.
ghost use Rattle.std.specs.Prelude.{
  ◌≡◌,
  ◌^◌,
  ◌≤◌,
  ◌==◌,
  ◌&&◌,
  ◌||◌,
  not,
  nat_lt,
  true,
  length,
  slice_index,
  MatchOption,
};
ghost use Rattle.layout_rules.specs.Labels.{letter_i, is_decimal, tail, is_numbered, number_of_label};

use aq_base::read_decimal;
use geom::Label;

/// The first byte of the label's text, and 0 where it is empty.
fn letter(label: &Label) -> u8
    ensures { result ≡ slice_index label.now.text 0 }
{
    let text = label.text.as_slice();
    if text.is_empty() { 0 } else { text[0] }
}

/// What stands after the first byte.
fn tail(label: &Label) -> &[u8]
    ensures { result.now ≡ tail label.now.text }
{
    let text = label.text.as_slice();
    if text.is_empty() { text } else { &text[1..] }
}

/// Whether the text is one byte, or longer and doesn't begin with a zero.
fn is_led(text: &[u8]) -> bool
    ensures { result ≡ (length text.now == 1 || (nat_lt 1 (length text.now) && not (slice_index text.now 0 == 48))) }
{
    text.len() == 1 || (text.len() > 1 && text[0] != b'0')
}

/// Whether a decimal number stands after the first byte. That digits follow was found when the text was made: many
/// labels may show one long text.
fn has_decimal(label: &Label) -> bool
    ensures { result ≡ is_decimal (tail label.now.text) }
{
    label.text.digits_follow() && is_led(tail(label))
}

/// Whether the label names an input.
pub fn names_input(label: &Label) -> bool
    ensures { result ≡ (slice_index label.now.text 0 == letter_i) }
{
    letter(label) == b'I'
}

/// Whether the label's text is `I` or `O`, and then a decimal number.
pub fn is_numbered(label: &Label) -> bool
    ensures { result ≡ is_numbered label.now }
{
    (letter(label) == b'I' || letter(label) == b'O') && has_decimal(label)
}

/// The number of a label that has one, where it is below 2^64.
pub fn number_of(label: &Label) -> Option<u64>
    requires { is_decimal (tail label.now.text) ≡ true }
    ensures { MatchOption result (2 ^ 64 ≤ number_of_label label.now) (λ number. number_of_label label.now ≡ number) }
{
    read_decimal(tail(label))
}
