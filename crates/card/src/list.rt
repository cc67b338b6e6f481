// Lists of numbers with commas between them.
ghost use Rattle.std.specs.Prelude.{◌≡◌, ℕ, ◌+◌, ◌^◌, ◌<◌, List, [], ◌∷◌, ◌++◌};
ghost use Rattle.card.specs.Lists.{Holds, Listed};
ghost use Rattle.card.specs.Parts.{capped};

use crate::number::number;
use crate::place::place_of;

// Stands for a number that isn't there, and for every number from here on: a record has bytes, and 255 is out of every range.
const NONE: u8 = 255;

// How many numbers there are, and the first six of them: a card's list may be longer than any scope, and nothing is kept on a heap.
#[derive(Clone, Copy)]
pub struct NumberList {
    pub count: usize,
    pub numbers: [u8; 6],
}

impl NumberList {
    pub(crate) fn empty() -> Self
        ensures { Holds result [] }
    {
        NumberList {
            count: 0,
            numbers: [NONE; 6],
        }
    }

    fn push(&mut self, n: usize)
        requires { self.old.count < 2 ^ 63 }
        ensures counted { self.new.count ≡ self.old.count + 1 }
        ensures held { (xs : List ℕ) (v : ℕ) → Holds self.old xs → n ≡ capped v → Holds self.new (xs ++ (v ∷ [])) }
    {
        if self.count < self.numbers.len() {
            self.numbers[self.count] = n.min(NONE as usize) as u8;
        }
        self.count += 1;
    }

    // The numbers between the commas, if each piece is one.
    pub(crate) fn read(value: &[u8]) -> Option<NumberList>
        ensures { Listed value.now result }
    {
        let mut list = NumberList::empty();
        let mut rest = value;
        while let Some(comma) = place_of(rest, b',') {
            let n = number(&rest[..comma])?;
            list.push(n);
            rest = &rest[comma + 1..];
        }
        let last = number(rest)?;
        list.push(last);
        Some(list)
    }
}
