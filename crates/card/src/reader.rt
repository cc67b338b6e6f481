// The place in a card's bytes that its reading has reached.
use crate::stage::Stage;

// What is left of the card and where that begins, the number of its first line, and the stage there.
#[derive(Clone, Copy)]
pub struct Reader<'a> {
    pub rest: &'a [u8],
    pub start: usize,
    pub line: usize,
    pub stage: Stage,
}
