// A line where it is due.
ghost use Rattle.card.specs.Kinds.{bytes_of, key_of};
ghost use Rattle.card.specs.Stages.{Fit, SlotsOnly, stage_of};
ghost use Rattle.card.specs.Steps.{answered, line_answered};
ghost use Rattle.card.specs.Verdict.{Reading};
ghost use Rattle.std.specs.Prelude.{◌≡◌, ◌+◌, ◌≤◌, length};

use crate::entry::Step;
use crate::line::Line;
use crate::stage::{Expected, Stage};
use network::refusal::Refusal;

impl Stage {
    // The step that the line makes, if it is the one that is due. It is a match over (what is due, line) because the definitions
    // name the cases of both, while a closure for what is due would give each stage a type parameter with clauses of its own.
    pub(crate) fn step(self, line: Line) -> Result<Step, Refusal>
        requires { Fit self }
        ensures { (q : Reading) → SlotsOnly q.due → self ≡ stage_of q → result ≡ answered q q.due (key_of line.entry) (bytes_of line.entry) }
    {
        match (self.next, line) {
            (Expected::Blocks, Line::Blocks(value)) => Stage::after_blocks(value.bytes),
            (Expected::Open(more), Line::Open(value)) => self.after_open(more, value.bytes),
            (Expected::Sheets, Line::Sheets(value)) => self.after_sheets(value.bytes),
            (Expected::Kind(more), Line::Kind(value)) => self.after_kind(more, value.bytes),
            (Expected::Scope { more, kind }, Line::Scope(value)) => self.after_scope(
                more,
                kind,
                value.bytes,
            ),
            (Expected::Tuples { more, kind, scope }, Line::Tuples(value)) => {
                self.after_tuples(more, kind, scope, value.bytes)
            }
            (
                Expected::Tuple {
                    more,
                    arity,
                    left,
                    last,
                },
                Line::Tuple(value),
            ) => { self.after_tuple(more, arity, left, last, value.bytes) }
            (Expected::Rules, Line::Rules(value)) => self.after_rules(value.bytes),
            (Expected::Rule(more), Line::Rule(value)) => self.after_rule(more, value.bytes),
            (Expected::RuleScope { more, rule }, Line::Scope(value)) => {
                self.after_rule_scope(more, rule, value.bytes)
            }
            (Expected::End, Line::End(value)) => self.after_end(value.bytes),
            _ => Err(Refusal::Malformed),
        }
    }

    // The step that the bytes before a newline make, which begin at that place of the card.
    pub(crate) fn step_over(self, bytes: &[u8], start: usize) -> Result<Step, Refusal>
        requires fit { Fit self }
        requires near { start + length bytes.now ≤ 32768 }
        ensures { (q : Reading) → SlotsOnly q.due → self ≡ stage_of q → result ≡ line_answered q bytes.now }
    {
        let Some(line) = Line::read(bytes, start) else {
            return Err(Refusal::Malformed);
        };
        self.step(line)
    }
}
