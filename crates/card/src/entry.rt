// What a line adds to the network. Nothing is one of the cases: an Option would stand inside the Option that tells where a card ends.
use crate::list::NumberList;
use crate::stage::Stage;
use banks::rule::Rule;
use banks::table::Kind;

#[derive(Clone, Copy)]
pub enum Entry {
    Nothing,
    Mask(u32),
    Table {
        kind: Kind,
        scope: NumberList,
        tuples: usize,
    },
    Tuple(NumberList),
    Rule {
        rule: Rule,
        scope: NumberList,
    },
}

// The stage after a line, and what the line adds.
#[derive(Clone, Copy)]
pub struct Step {
    pub stage: Stage,
    pub entry: Entry,
}
