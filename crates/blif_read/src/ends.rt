// What one walk over the tokens of a line keeps of them.
ghost use Rattle.std.specs.Prelude.{◌≡◌};
ghost use Rattle.std.specs.List.{list_any};
ghost use Rattle.blif_read.specs.Faults.{is_control};
ghost use Rattle.blif_read.specs.Code.Ends.{AreEnds};

use crate::token_list::Tokens;

/// How many tokens a line has, the first and the last of them, which are empty where there is none, and whether a token
/// has a control byte.
#[derive(Clone, Copy)]
pub struct Ends<'a> {
    pub count: usize,
    pub control: bool,
    pub first: &'a [u8],
    pub last: &'a [u8],
}

fn has_control_byte(token: &[u8]) -> bool
    ensures { result ≡ list_any is_control token.now }
{
    token.iter().any(|b| (*b < 32 && *b != 9) || *b == 127)
}

/// What is kept of tokens, over which this goes once.
pub fn ends_of<'a>(tokens: Tokens<'a>) -> Ends<'a>
    ensures { AreEnds result tokens.entry }
{
    let mut rest = tokens.copy();
    let Some(first) = rest.take_first() else {
        return Ends {
            count: 0,
            control: false,
            first: &[],
            last: &[],
        };
    };
    let mut count = 1;
    let mut control = has_control_byte(first);
    let mut last = first;
    'tokens: while let Some(token) = rest.take_first() {
        count += 1;
        control = control || has_control_byte(token);
        last = token;
    }
    Ends {
        count,
        control,
        first,
        last,
    }
}
