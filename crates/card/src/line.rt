// The lines of a card: a key, an equals sign and a value.
ghost use Rattle.card.specs.Kinds.{Keyed, ReadAs};
ghost use Rattle.std.specs.Prelude.{◌+◌, ◌≤◌, length};

use crate::place::place_of;
use crate::word::is_word;

// The bytes of a value, and the place in the card where they begin.
#[derive(Clone, Copy)]
pub struct Value<'a> {
    pub bytes: &'a [u8],
    pub place: usize,
}

// A line by its key, with its value.
#[derive(Clone, Copy)]
pub enum Line<'a> {
    Blocks(Value<'a>),
    Open(Value<'a>),
    Sheets(Value<'a>),
    Kind(Value<'a>),
    Scope(Value<'a>),
    Tuples(Value<'a>),
    Tuple(Value<'a>),
    Rules(Value<'a>),
    Rule(Value<'a>),
    End(Value<'a>),
}

impl<'a> Line<'a> {
    // The line with that key, if there is one. Word after word, for the reasons in word.rt.
    #[tactic(auto, using(crate::proofs::Texts::is_same))]
    fn keyed(key: &[u8], value: Value<'a>) -> Option<Line<'a>>
        ensures { Keyed key.now value.entry result }
    {
        if is_word(key, b"blocks") {
            Some(Line::Blocks(value))
        } else if is_word(key, b"open") {
            Some(Line::Open(value))
        } else if is_word(key, b"sheets") {
            Some(Line::Sheets(value))
        } else if is_word(key, b"kind") {
            Some(Line::Kind(value))
        } else if is_word(key, b"scope") {
            Some(Line::Scope(value))
        } else if is_word(key, b"rows") {
            Some(Line::Tuples(value))
        } else if is_word(key, b"row") {
            Some(Line::Tuple(value))
        } else if is_word(key, b"rules") {
            Some(Line::Rules(value))
        } else if is_word(key, b"rule") {
            Some(Line::Rule(value))
        } else if is_word(key, b"end") {
            Some(Line::End(value))
        } else {
            None
        }
    }

    // The line that the bytes before a newline make, which begin at that place of the card. By `let .. else`, and so on with each
    // part, as is the rule here (docs/DECISIONS.md, Forms).
    pub(crate) fn read(bytes: &'a [u8], start: usize) -> Option<Line<'a>>
        requires { start + length bytes.now ≤ 32768 }
        ensures { ReadAs start bytes.now result }
    {
        let Some(equals) = place_of(bytes, b'=') else {
            return None;
        };
        let value = Value {
            bytes: &bytes[equals + 1..],
            place: start + equals + 1,
        };
        Line::keyed(&bytes[0..equals], value)
    }
}
