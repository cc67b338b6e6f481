// The bank of sheets that records of rules stand for.
ghost use Rattle.banks.specs.Rules.{rule_sheet, rules_meaning};
ghost use Rattle.std.specs.Prelude.{◌≡◌, map};

use crate::record_bank::RecordBank;
use crate::rule::{RuleRecord, check_rules};

pub type RuleBank<'a> = RecordBank<'a, RuleRecord>;

impl<'a> RuleBank<'a> {
    // A bank with a sheet for each record, or with none where the check refuses them.
    pub fn new(records: &'a [RuleRecord]) -> Self
        ensures { map rule_sheet result.records.now ≡ rules_meaning records.now }
    {
        RecordBank::checked(records, &[], check_rules(records))
    }
}
