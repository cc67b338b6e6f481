// How a call that visits nodes ends.
ghost use Rattle.std.specs.Prelude.{Some};
ghost use Rattle.listing.specs.Words.{word_of};

use std::fmt;

// At a node that shows a plan, with no node left, or with the budget spent and a node left.
#[derive(Clone, Copy, PartialEq, Eq, Debug)]
pub enum Outcome {
    Plan,
    Done,
    Spent,
}

impl fmt::Display for Outcome {
    ghost output = { λ outcome. Some (word_of outcome) };

    fn fmt<W: fmt::Write>(&self, f: &mut fmt::Formatter<W>) -> fmt::Result {
        f.write_str(match self {
            Outcome::Plan => "plan",
            Outcome::Done => "done",
            Outcome::Spent => "spent",
        })
    }
}
