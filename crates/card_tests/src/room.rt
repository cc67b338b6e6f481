// Memory for the largest network that there may be, and what a card is answered there.
use banks::rule::{Rule, RuleRecord};
use banks::table::{Kind, TableRecord};
use card::places::Places;
use card::read::read;
use card::refusal::CardRefusal;
use card::sizes::Sizes;

pub(crate) const TABLE: TableRecord = TableRecord {
    kind: Kind::Allow,
    arity: 0,
    blocks: [77; 6],
    first: 0,
    tuples: 0,
};

pub(crate) const RULE: RuleRecord = RuleRecord {
    rule: Rule::AllDiff,
    arity: 0,
    blocks: [77; 6],
};

pub(crate) fn answer(card: &[u8]) -> Result<Sizes, CardRefusal> {
    let mut masks = [0; 32];
    let mut tables = [TABLE; 32];
    let mut cells = [0; 24576];
    let mut rules = [RULE; 192];
    let mut places = Places {
        masks: &mut masks,
        tables: &mut tables,
        cells: &mut cells,
        rules: &mut rules,
    };
    read(card, &mut places)
}
