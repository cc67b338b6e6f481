// The example network, as tests use it: six blocks with slots 0 to 2 open and three allow tables.
// Two rules stand beside it, to show a pair of banks.
#![tactic(auto)]

use banks::rule::{Rule, RuleRecord};
use banks::table::{Kind, TableRecord};

pub const OPEN: [u32; 6] = [7; 6];

pub const CELLS: [u8; 24] = [
    0, 0, 0, 0, 1, 2, 0, 2, 1, // sheet 0
    0, 0, 0, 0, 1, 1, 2, 2, 2, // sheet 1
    0, 0, 0, 0, 1, 2, // sheet 2
];

pub const TABLES: [TableRecord; 3] = [
    TableRecord {
        kind: Kind::Allow,
        arity: 3,
        blocks: [0, 2, 3, 255, 255, 255],
        first: 0,
        tuples: 3,
    },
    TableRecord {
        kind: Kind::Allow,
        arity: 3,
        blocks: [1, 4, 5, 255, 255, 255],
        first: 9,
        tuples: 3,
    },
    TableRecord {
        kind: Kind::Allow,
        arity: 3,
        blocks: [0, 2, 5, 255, 255, 255],
        first: 18,
        tuples: 2,
    },
];

pub const RULES: [RuleRecord; 2] = [
    RuleRecord {
        rule: Rule::NotEqual,
        arity: 2,
        blocks: [0, 1, 255, 255, 255, 255],
    },
    RuleRecord {
        rule: Rule::AllDiff,
        arity: 3,
        blocks: [2, 3, 4, 255, 255, 255],
    },
];
