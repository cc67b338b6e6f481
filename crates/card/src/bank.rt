// The bank of a card: its tables, and then its rules.
ghost use Rattle.banks.specs.Both.{both};
ghost use Rattle.banks.specs.Rules.{rule_sheet, rules_meaning};
ghost use Rattle.banks.specs.Tables.{table_sheet, tables_meaning};
ghost use Rattle.card.specs.Layout.{Memory, memory};
ghost use Rattle.card.specs.Reads.{HoldsNetwork};
ghost use Rattle.card.specs.Sheets.{sheets_of};
ghost use Rattle.card.specs.Spelling.{Network};
ghost use Rattle.std.specs.Prelude.{◌≡◌, map, take};

use crate::sizes::Sizes;
use banks::pair::Pair;
use banks::rule::RuleRecord;
use banks::rule_bank::RuleBank;
use banks::table::TableRecord;
use banks::table_bank::TableBank;
use network::bank::Bank;

pub type CardBank<'a> = Pair<TableBank<'a>, RuleBank<'a>>;

impl Sizes {
    // The bank of what is filled so far of each place.
    pub fn bank<'a>(
        self,
        tables: &'a [TableRecord],
        cells: &'a [u8],
        rules: &'a [RuleRecord],
    ) -> CardBank<'a>
        ensures means { both (map (table_sheet result.first.cells.now) result.first.records.now) (map rule_sheet result.second.records.now) ≡ both (tables_meaning cells.now (take self.tables tables.now)) (rules_meaning (take self.rules rules.now)) }
        ensures network { (x : Network) (m : Memory) → HoldsNetwork x self m → m ≡ memory m.masks tables.now cells.now rules.now →
            both (map (table_sheet result.first.cells.now) result.first.records.now) (map rule_sheet result.second.records.now) ≡ sheets_of x }
    {
        Pair {
            first: TableBank::new(&tables[..self.tables.min(tables.len())], cells),
            second: RuleBank::new(&rules[..self.rules.min(rules.len())]),
        }
    }
}
