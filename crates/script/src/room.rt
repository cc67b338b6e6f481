// Memory for the network of any card.
ghost use Rattle.banks.specs.Both.{both};
ghost use Rattle.banks.specs.Rules.{rule_sheet};
ghost use Rattle.banks.specs.Tables.{table_sheet};
ghost use Rattle.card.specs.Reads.{Accepts, HoldsNetwork, judgement};
ghost use Rattle.card.specs.Sheets.{sheets_of};
ghost use Rattle.card.specs.Spelling.{Network};
ghost use Rattle.card.specs.Verdict.{verdict};
ghost use Rattle.script.specs.Rooms.{memory_of};
ghost use Rattle.std.specs.Prelude.{◌≡◌, map};

use banks::rule::{Rule, RuleRecord};
use banks::table::{Kind, TableRecord};
use card::bank::CardBank;
use card::places::Places;
use card::read::read;
use card::refusal::CardRefusal;
use card::sizes::Sizes;
use network::bank::Bank;
use network::row::BLOCKS;

// Before a card is read.
const NO_TABLE: TableRecord = TableRecord {
    kind: Kind::Allow,
    arity: 0,
    blocks: [255; 6],
    first: 0,
    tuples: 0,
};

const NO_RULE: RuleRecord = RuleRecord {
    rule: Rule::NotEqual,
    arity: 0,
    blocks: [255; 6],
};

// A card has at most so many tables, 4,096 tuples of at most six slots each, and so many rules.
const TABLES: usize = 32;

const CELLS: usize = 24576;

const RULES: usize = 192;

#[derive(Drop)]
pub struct Room {
    pub masks: [u32; BLOCKS],
    pub tables: [TableRecord; TABLES],
    pub cells: [u8; CELLS],
    pub rules: [RuleRecord; RULES],
}

impl Room {
    pub(crate) fn new() -> Room {
        Room {
            masks: [0; BLOCKS],
            tables: [NO_TABLE; TABLES],
            cells: [0; CELLS],
            rules: [NO_RULE; RULES],
        }
    }

    // Reads a card. There is room enough, so that only its own faults refuse it.
    pub(crate) fn read(&mut self, card: &[u8]) -> Result<Sizes, CardRefusal>
        ensures judged { result ≡ judgement (verdict card.now) }
        ensures holds { Accepts card.now (memory_of self.new) result }
    {
        let mut places = Places {
            masks: &mut self.masks,
            tables: &mut self.tables,
            cells: &mut self.cells,
            rules: &mut self.rules,
        };
        read(card, &mut places)
    }

    // The bank of the network that has been read.
    pub(crate) fn bank(&self, sizes: Sizes) -> CardBank<'_>
        ensures { (x : Network) → HoldsNetwork x sizes (memory_of self.now) → both (map (table_sheet result.first.cells.now) result.first.records.now) (map rule_sheet result.second.records.now) ≡ sheets_of x }
    {
        sizes.bank(&self.tables, &self.cells, &self.rules)
    }

    // Its open masks. Of a card there are never more; the least keeps the slice inside the array whatever the sizes are.
    pub(crate) fn masks(&self, sizes: Sizes) -> &[u32]
        ensures { (x : Network) → HoldsNetwork x sizes (memory_of self.now) → result.now ≡ x.masks }
    {
        &self.masks[0..sizes.masks.min(BLOCKS)]
    }
}
