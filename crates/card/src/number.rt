// Numbers as a card spells them: 0 alone, or a first digit from 1 to 9 and then digits.
ghost use Rattle.card.specs.Parts.{GoesOn, Numbered};
ghost use Rattle.std.specs.Prelude.{◌<◌};

// Stands for every number from here on: all limits of a card are below it.
const CAP: usize = 1 << 32;

// The number that the bytes spell, cut at 2 ^ 32 so that no number of digits is too long. By slice patterns, as is the rule
// here (docs/DECISIONS.md, Forms).
pub fn number(bytes: &[u8]) -> Option<usize>
    ensures { Numbered bytes.now result }
{
    match bytes {
        [b'0'] => Some(0),
        [first @ b'1'..=b'9', rest @ ..] => with_digits((*first - b'0') as usize, rest),
        _ => None,
    }
}

// The number that goes on with the digits, cut at 2 ^ 32.
fn with_digits(first: usize, digits: &[u8]) -> Option<usize>
    requires { first < 10 }
    ensures { GoesOn first digits.now result }
{
    let mut n = first;
    for digit in digits {
        let b'0'..=b'9' = *digit else {
            return None;
        };
        n = (n * 10 + (*digit - b'0') as usize).min(CAP);
    }
    Some(n)
}
