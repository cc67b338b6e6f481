// Why a card is refused, and at which line.
use network::refusal::Refusal;

// The first faulty line, from 1; 0 where no line is at fault: a refusal is reported as two numbers.
#[derive(Clone, Copy, PartialEq)]
pub struct CardRefusal {
    pub refusal: Refusal,
    pub line: usize,
}
