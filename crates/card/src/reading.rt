// The reading of a card, line by line.
ghost use Rattle.std.specs.Prelude.{◌≡◌, ℕ, List};
ghost use Rattle.card.specs.Filling.{At, ReadsOn, Ready, ended};
ghost use Rattle.card.specs.Stages.{stage_of};
ghost use Rattle.card.specs.Steps.{at_line};
ghost use Rattle.card.specs.Verdict.{Reading, nothing_read};

use crate::entry::{Entry, Step};
use crate::place::place_of;
use crate::reader::Reader;
use crate::refusal::CardRefusal;
use crate::stage::{Expected, Stage};
use network::refusal::Refusal;

// A refusal is one of the card at that line.
fn at_line(step: Result<Step, Refusal>, line: usize) -> Result<Step, CardRefusal>
    ensures { result ≡ at_line line step }
{
    step.map_err(|refusal| CardRefusal { refusal, line })
}

impl<'a> Reader<'a> {
    pub(crate) fn new(card: &'a [u8]) -> Reader<'a>
        ensures rest { result.rest.now ≡ card.now }
        ensures start { result.start ≡ 0 }
        ensures line { result.line ≡ 1 }
        ensures stage { result.stage ≡ stage_of nothing_read }
    {
        Reader {
            rest: card,
            start: 0,
            line: 1,
            stage: Stage {
                next: Expected::Blocks,
                blocks: 0,
                tuples: 0,
            },
        }
    }

    // What the end of the card answers: nothing more where no line is due, and otherwise that one is missing.
    fn end(&self) -> Result<Option<Entry>, CardRefusal>
        ensures { result ≡ ended self.now }
    {
        if self.stage.is_done() && self.rest.is_empty() {
            return Ok(None);
        }
        Err(CardRefusal {
            refusal: Refusal::Malformed,
            line: self.line,
        })
    }

    // What the next line adds to the network, or nothing where a good card ends.
    pub(crate) fn next_entry(&mut self) -> Result<Option<Entry>, CardRefusal>
        requires { Ready self.old }
        ensures { (card : List ℕ) (q : Reading) → At card self.old q → ReadsOn card self.old q self.new result }
    {
        let rest = self.rest;
        let Some(end) = place_of(rest, b'\n') else {
            return self.end();
        };
        let step = at_line(self.stage.step_over(&rest[..end], self.start), self.line)?;
        self.stage = step.stage;
        self.rest = &rest[end + 1..];
        self.start += end + 1;
        self.line += 1;
        Ok(Some(step.entry))
    }
}
