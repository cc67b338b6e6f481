// Two banks as one: the first's sheets, then the second's, 1,024 of them at most.
ghost use Rattle.banks.specs.Both.{both, place_of};
ghost use Rattle.banks.specs.SheetAt.{both_lawful};
ghost use Rattle.std.specs.Prelude.{◌≡◌, length};

use crate::place::Place;
use crate::scope::{MAX_SHEETS, NO_BLOCK};
use network::bank::Bank;

#[derive(Drop)]
pub struct Pair<A, B> {
    pub first: A,
    pub second: B,
}

impl<A: Bank, B: Bank> Pair<A, B> {
    // Where sheet `c` of the pair stands.
    fn place(&self, c: usize) -> Place
        ensures { result ≡ place_of (length (A.Bank.meaning self.now.first)) c }
    {
        let firsts = self.first.count();
        if c >= MAX_SHEETS {
            Place::Nowhere
        } else if c < firsts {
            Place::First(c)
        } else {
            Place::Second(c - firsts)
        }
    }
}

impl<A: Bank, B: Bank> Bank for Pair<A, B> {
    ghost meaning = { λ p. both (A.Bank.meaning p.first) (B.Bank.meaning p.second) };

    ghost lawful = { λ p. both_lawful (A.Bank.meaning p.first) (B.Bank.meaning p.second) (A.Bank.lawful p.first) (B.Bank.lawful p.second) };

    // By a comparison: where the count is a `min`, a walk over many small sheets takes half as long again.
    fn count(&self) -> usize {
        let all = self.first.count() + self.second.count();
        if all < MAX_SHEETS { all } else { MAX_SHEETS }
    }

    fn arity(&self, c: usize) -> usize {
        match self.place(c) {
            Place::First(c) => self.first.arity(c),
            Place::Second(c) => self.second.arity(c),
            Place::Nowhere => 0,
        }
    }

    fn block(&self, c: usize, p: usize) -> u8 {
        match self.place(c) {
            Place::First(c) => self.first.block(c, p),
            Place::Second(c) => self.second.block(c, p),
            Place::Nowhere => NO_BLOCK,
        }
    }

    fn supports(&self, c: usize, masks: &[u32; 6], p: usize, s: u8) -> bool {
        match self.place(c) {
            Place::First(c) => self.first.supports(c, masks, p, s),
            Place::Second(c) => self.second.supports(c, masks, p, s),
            Place::Nowhere => false,
        }
    }
}
