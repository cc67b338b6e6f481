// One line more: the stage after it, and what it adds to the network.
ghost use Rattle.std.specs.Prelude.{◌≡◌, ℕ, ◌-◌, ◌≤◌, true, List, length, codes, nat_lt};
ghost use Rattle.card.specs.Checks.{number_checked};
ghost use Rattle.card.specs.Lists.{list_of};
ghost use Rattle.card.specs.Stages.{stage_of};
ghost use Rattle.card.specs.Steps.{answered, step_of_stage};
ghost use Rattle.card.specs.Verdict.{Reading, blocks_due, end_due, kind_due, last_tuple, open_due, row_due, rows_due, rule_due, rule_scope_due, rules_due, scope_due, sheets_due};
ghost use Rattle.std.specs.List.{list_all};

use crate::checks::{number_in, scope_in, tuple_in};
use crate::entry::{Entry, Step};
use crate::list::NumberList;
use crate::stage::{Expected, Stage};
use crate::word::{kind_in, net_in, rule_in};
use banks::rule::Rule;
use banks::table::Kind;
use network::refusal::Refusal;
use network::row::BLOCKS;

const MAX_MASK: usize = 4294967295;

const MAX_TABLES: usize = 32;

// Of all tables of a card together.
const MAX_TUPLES: usize = 4096;

const MAX_RULES: usize = 192;

// One call for each line that may be due: they differ in the reader of the value, its limits and what is due next. Each
// says what it answers where the stage is that of a reading: a reading is no part of a stage, so that cannot be an
// invariant. Its limits, which `Fit` states, would as ghost fields have to be shown again of every stage that is made.
impl Stage {
    // The same blocks and tuples, with another line due.
    fn then(self, next: Expected, entry: Entry) -> Step
        ensures { result ≡ step_of_stage self next entry }
    {
        Step {
            stage: Stage { next, ..self },
            entry,
        }
    }

    pub(crate) fn after_blocks(value: &[u8]) -> Result<Step, Refusal>
        ensures { (q : Reading) → result ≡ answered q blocks_due (codes "blocks") value.now }
    {
        let blocks = number_in(value, 1, BLOCKS)?;
        let stage = Stage {
            next: Expected::open_or_sheets(blocks),
            blocks,
            tuples: 0,
        };
        Ok(Step {
            stage,
            entry: Entry::Nothing,
        })
    }

    pub(crate) fn after_open(self, more: usize, value: &[u8]) -> Result<Step, Refusal>
        ensures { (q : Reading) → self ≡ stage_of q → result ≡ answered q (open_due more) (codes "open") value.now }
    {
        let mask = number_in(value, 0, MAX_MASK)?;
        Ok(self.then(Expected::open_or_sheets(more), Entry::Mask(mask as u32)))
    }

    pub(crate) fn after_sheets(self, value: &[u8]) -> Result<Step, Refusal>
        ensures { (q : Reading) → self ≡ stage_of q → result ≡ answered q sheets_due (codes "sheets") value.now }
    {
        let tables = number_in(value, 0, MAX_TABLES)?;
        Ok(self.then(Expected::kind_or_rules(tables), Entry::Nothing))
    }

    pub(crate) fn after_kind(self, more: usize, value: &[u8]) -> Result<Step, Refusal>
        ensures { (q : Reading) → self ≡ stage_of q → result ≡ answered q (kind_due more) (codes "kind") value.now }
    {
        let kind = kind_in(value)?;
        Ok(self.then(Expected::Scope { more, kind }, Entry::Nothing))
    }

    pub(crate) fn after_scope(self, more: usize, kind: Kind, value: &[u8]) -> Result<Step, Refusal>
        requires { self.blocks ≤ 32 }
        ensures { (q : Reading) → self ≡ stage_of q → result ≡ answered q (scope_due more kind) (codes "scope") value.now }
    {
        let scope = scope_in(value, self.blocks)?;
        Ok(self.then(Expected::Tuples { more, kind, scope }, Entry::Nothing))
    }

    // How many tuples a table has: no more than all tables may still have together.
    fn tuple_count(self, value: &[u8]) -> Result<usize, Refusal>
        requires { self.tuples ≤ 4096 }
        ensures { result ≡ number_checked 0 (4096 - self.tuples) value.now }
    {
        number_in(value, 0, MAX_TUPLES - self.tuples)
    }

    pub(crate) fn after_tuples(
        self,
        more: usize,
        kind: Kind,
        scope: NumberList,
        value: &[u8],
    ) -> Result<Step, Refusal>
        requires { self.tuples ≤ 4096 }
        ensures { (q : Reading) (blocks : List ℕ) → self ≡ stage_of q → scope ≡ list_of blocks → result ≡ answered q (rows_due more kind blocks) (codes "rows") value.now }
    {
        let tuples = self.tuple_count(value)?;
        let next = Expected::tuple_or_next(more, scope.count, tuples, NumberList::empty());
        let stage = Stage {
            tuples: self.tuples + tuples,
            ..self
        };
        Ok(stage.then(
            next,
            Entry::Table {
                kind,
                scope,
                tuples,
            },
        ))
    }

    pub(crate) fn after_tuple(
        self,
        more: usize,
        arity: usize,
        left: usize,
        last: NumberList,
        value: &[u8],
    ) -> Result<Step, Refusal>
        requires { (arity ≤ 6) × (last.count ≤ 6) }
        ensures { (q : Reading) (kind : Kind) (scope : List ℕ) (ts : List (List ℕ)) → self ≡ stage_of q → arity ≡ length scope → last ≡ list_of (last_tuple ts) →
            list_all (λ x. nat_lt x 32) (last_tuple ts) ≡ true → result ≡ answered q (row_due more kind scope left ts) (codes "row") value.now }
    {
        let tuple = tuple_in(value, arity, &last.numbers[0..last.count])?;
        let next = Expected::tuple_or_next(more, arity, left, tuple);
        Ok(self.then(next, Entry::Tuple(tuple)))
    }

    pub(crate) fn after_rules(self, value: &[u8]) -> Result<Step, Refusal>
        ensures { (q : Reading) → self ≡ stage_of q → result ≡ answered q rules_due (codes "rules") value.now }
    {
        let rules = number_in(value, 0, MAX_RULES)?;
        Ok(self.then(Expected::rule_or_end(rules), Entry::Nothing))
    }

    pub(crate) fn after_rule(self, more: usize, value: &[u8]) -> Result<Step, Refusal>
        ensures { (q : Reading) → self ≡ stage_of q → result ≡ answered q (rule_due more) (codes "rule") value.now }
    {
        let rule = rule_in(value)?;
        Ok(self.then(Expected::RuleScope { more, rule }, Entry::Nothing))
    }

    pub(crate) fn after_rule_scope(
        self,
        more: usize,
        rule: Rule,
        value: &[u8],
    ) -> Result<Step, Refusal>
        requires { self.blocks ≤ 32 }
        ensures { (q : Reading) → self ≡ stage_of q → result ≡ answered q (rule_scope_due more rule) (codes "scope") value.now }
    {
        let scope = scope_in(value, self.blocks)?;
        Ok(self.then(Expected::rule_or_end(more), Entry::Rule { rule, scope }))
    }

    pub(crate) fn after_end(self, value: &[u8]) -> Result<Step, Refusal>
        ensures { (q : Reading) → self ≡ stage_of q → result ≡ answered q end_due (codes "end") value.now }
    {
        net_in(value)?;
        Ok(self.then(Expected::Nothing, Entry::Nothing))
    }
}
