// How far a card has been read: what is due, and what its checks need to know.
ghost use Rattle.std.specs.Prelude.{◌≡◌, ℕ, List, length};
ghost use Rattle.card.specs.Judgement.{ends};
ghost use Rattle.card.specs.Lists.{list_of};
ghost use Rattle.card.specs.Stages.{expected_of, stage_of};
ghost use Rattle.card.specs.Verdict.{Reading, kind_or_rules, last_tuple, open_or_sheets, row_or_next, rule_or_end};

use crate::list::NumberList;
use banks::rule::Rule;
use banks::table::Kind;

// The line that is due, with the number of those that come after it. After the last line nothing is due: that is a stage like the
// others, and an Option around them would have every match on a stage name one constructor more. What a tuple needs to know stands in one case.
#[derive(Clone, Copy)]
pub enum Expected {
    Blocks,
    Open(usize),
    Sheets,
    Kind(usize),
    Scope {
        more: usize,
        kind: Kind,
    },
    Tuples {
        more: usize,
        kind: Kind,
        scope: NumberList,
    },
    Tuple {
        more: usize,
        arity: usize,
        left: usize,
        last: NumberList,
    },
    Rules,
    Rule(usize),
    RuleScope {
        more: usize,
        rule: Rule,
    },
    End,
    Nothing,
}

// What is due, the number of blocks, and the tuples of all tables so far.
#[derive(Clone, Copy)]
pub struct Stage {
    pub next: Expected,
    pub blocks: usize,
    pub tuples: usize,
}

// The counts of lines that are left go down alike, to two stages each: one generic call would take both and be no shorter.
impl Expected {
    pub(crate) fn open_or_sheets(more: usize) -> Expected
        ensures { result ≡ expected_of (open_or_sheets more) }
    {
        match more.checked_sub(1) {
            None => Expected::Sheets,
            Some(more) => Expected::Open(more),
        }
    }

    pub(crate) fn kind_or_rules(more: usize) -> Expected
        ensures { result ≡ expected_of (kind_or_rules more) }
    {
        match more.checked_sub(1) {
            None => Expected::Rules,
            Some(more) => Expected::Kind(more),
        }
    }

    pub(crate) fn rule_or_end(more: usize) -> Expected
        ensures { result ≡ expected_of (rule_or_end more) }
    {
        match more.checked_sub(1) {
            None => Expected::End,
            Some(more) => Expected::Rule(more),
        }
    }

    // The next tuple of a table, or what comes after it.
    pub(crate) fn tuple_or_next(
        more: usize,
        arity: usize,
        left: usize,
        last: NumberList,
    ) -> Expected
        ensures { (kind : Kind) (scope : List ℕ) (ts : List (List ℕ)) (q : Reading) → arity ≡ length scope → last ≡ list_of (last_tuple ts) →
            result ≡ (stage_of (row_or_next more kind scope left ts q)).next }
    {
        match left.checked_sub(1) {
            None => Expected::kind_or_rules(more),
            Some(left) => Expected::Tuple {
                more,
                arity,
                left,
                last,
            },
        }
    }
}

impl Stage {
    // Whether the last line has been read.
    pub(crate) fn is_done(self) -> bool
        ensures { result ≡ ends self.next }
    {
        matches!(self.next, Expected::Nothing)
    }
}
