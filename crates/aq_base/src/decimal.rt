// Numbers in decimal digits.
ghost use Rattle.std.specs.Prelude.{◌≡◌, ◌<◌, ◌≤◌, ◌^◌, ◌↔◌, ◌⊎◌, ℕ, Some, IfSome, IsNone, IsTrue};
ghost use Rattle.std.specs.Fmt.{decimal};
ghost use Rattle.std.specs.Str.Parse.{digits_value};
ghost use Rattle.aq_base.specs.Decimal.{IsAllDigits, HasLeadingZero, HasOtherByte, IsUnreadable};

// The number that digits write, with any leading zeros.
#[tactic(auto, using(crate::proofs::Decimals::digit_steps))]
fn digits_number(text: &[u8]) -> Option<u64>
    ensures digits { IfSome result (λ number. IsAllDigits text.now × (digits_value 10 text.now ≡ number)) }
    ensures none { IsNone result → HasOtherByte text.now ⊎ (2 ^ 64 ≤ digits_value 10 text.now) }
{
    let mut number: u64 = 0;
    for byte in text {
        if !byte.is_ascii_digit() {
            return None;
        }
        let digit = u64::from(*byte - b'0');
        number = number.checked_mul(10)?.checked_add(digit)?;
    }
    Some(number)
}

// Whether the text begins with a zero and goes on.
fn has_leading_zero(text: &[u8]) -> bool
    ensures { IsTrue result ↔ HasLeadingZero text.now }
{
    text.len() > 1 && text[0] == b'0'
}

/// The number that a text of decimal digits writes. Refused are an empty text, a text with another byte than a
/// digit, one with a zero before another digit, and a number above `u64::MAX`.
#[tactic(auto, using(crate::proofs::Decimals::decimal_texts))]
pub fn read_decimal(text: &[u8]) -> Option<u64>
    ensures written { IfSome result (λ number. text.now ≡ decimal number) }
    ensures read { (number : ℕ) → number < 2 ^ 64 → text.now ≡ decimal number → result ≡ Some number }
    ensures unreadable { IsNone result ↔ IsUnreadable text.now }
{
    if text.is_empty() || has_leading_zero(text) {
        return None;
    }
    digits_number(text)
}

#[cfg(test)]
mod tests {
    use super::*;

    #[test]
    fn reads_and_refuses(rt: HostRuntime) {
        assert_eq!(rt; read_decimal(b"0"), Some(0));
        assert_eq!(rt; read_decimal(b"10"), Some(10));
        assert_eq!(rt; read_decimal(b"18446744073709551615"), Some(u64::MAX));
        assert_eq!(rt; read_decimal(b"18446744073709551616"), None);
        assert_eq!(rt; read_decimal(b"99999999999999999999"), None);
        assert_eq!(rt; read_decimal(b""), None);
        assert_eq!(rt; read_decimal(b"00"), None);
        assert_eq!(rt; read_decimal(b"01"), None);
        assert_eq!(rt; read_decimal(b"1a"), None);
        assert_eq!(rt; read_decimal(b"-1"), None);
        assert_eq!(rt; read_decimal(b"1 "), None);
    }
}
