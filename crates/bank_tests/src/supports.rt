// Support questions to tables and to rules. The answers were worked out by hand.
use banks::rule::{Rule, RuleRecord};
use banks::rule_bank::RuleBank;
use banks::table::{Kind, TableRecord};
use banks::table_bank::TableBank;
use network::bank::Bank;
use std::process::Abort;
use std::test::Fail;

// Sheet, masks, position, slot, and whether the slot has a support.
#[derive(Clone, Copy)]
struct Question(usize, [u32; 6], usize, u8, bool);

const FULL: u32 = 0xffff_ffff;

const LAST: u32 = 0x8000_0000;

const CELLS: [u8; 39] = [
    0, 0, 0, 0, 1, 2, 0, 2, 1, // sheet 0
    0, 0, 0, 1, 1, 0, 1, 1, // sheet 1: each pair of slots 0 and 1
    0, 0, 0, 1, 1, 1, // sheet 2: all of them but 1,0
    0, 31, // sheet 3
    0, 0, 0, 0, 0, 31, 31, 31, 31, 31, 31, 0, // sheet 4
    3, 4, // sheet 5
];

const TABLES: [TableRecord; 7] = [
    TableRecord {
        kind: Kind::Allow,
        arity: 3,
        blocks: [0, 2, 3, 0, 0, 99],
        first: 0,
        tuples: 3,
    },
    TableRecord {
        kind: Kind::Deny,
        arity: 2,
        blocks: [4, 1, 1, 1, 1, 1],
        first: 9,
        tuples: 4,
    },
    TableRecord {
        kind: Kind::Deny,
        arity: 2,
        blocks: [31, 0, 0, 0, 0, 0],
        first: 17,
        tuples: 3,
    },
    TableRecord {
        kind: Kind::Allow,
        arity: 2,
        blocks: [5, 6, 0, 0, 0, 0],
        first: 23,
        tuples: 1,
    },
    TableRecord {
        kind: Kind::Allow,
        arity: 6,
        blocks: [9, 8, 7, 6, 5, 4],
        first: 25,
        tuples: 2,
    },
    TableRecord {
        kind: Kind::Deny,
        arity: 2,
        blocks: [1, 2, 0, 0, 0, 0],
        first: 39,
        tuples: 0,
    },
    TableRecord {
        kind: Kind::Allow,
        arity: 2,
        blocks: [1, 2, 0, 0, 0, 0],
        first: 39,
        tuples: 0,
    },
];

const TABLE_QUESTIONS: [Question; 29] = [
    // slot 0 of the first block is listed three times, slot 1 never
    Question(0, [7, 7, 7, 0, 0, 0], 0, 0, true),
    Question(0, [7, 7, 7, 0, 0, 0], 0, 1, false),
    Question(0, [7, 7, 7, 0, 0, 0], 2, 2, true),
    Question(0, [7, 7, 4, 0, 0, 0], 1, 1, true),
    Question(0, [7, 7, 4, 0, 0, 0], 1, 2, false),
    // the mask of the position itself is not looked at
    Question(0, [0, 7, 7, 0, 0, 0], 0, 0, true),
    // an empty mask elsewhere, and masks past the arity
    Question(0, [7, 0, 7, 7, 7, 7], 0, 0, false),
    // a position, a slot and a sheet that are not there
    Question(0, [7, 7, 7, 7, 7, 7], 3, 0, false),
    Question(0, [7, 7, 7, 7, 7, 7], 6, 0, false),
    Question(3, [FULL, FULL, 0, 0, 0, 0], 0, 32, false),
    Question(3, [FULL, FULL, 0, 0, 0, 0], 0, 255, false),
    Question(7, [7, 7, 7, 7, 7, 7], 0, 0, false),
    // every choice denied, all but one denied, a choice outside what is denied
    Question(1, [3, 3, 0, 0, 0, 0], 0, 0, false),
    Question(1, [3, 3, 0, 0, 0, 0], 1, 1, false),
    Question(1, [3, 7, 0, 0, 0, 0], 0, 0, true),
    Question(1, [3, 3, 0, 0, 0, 0], 0, 2, true),
    Question(2, [3, 3, 0, 0, 0, 0], 0, 0, false),
    Question(2, [3, 3, 0, 0, 0, 0], 0, 1, true),
    Question(2, [3, 3, 0, 0, 0, 0], 1, 0, true),
    Question(2, [3, 3, 0, 0, 0, 0], 1, 1, false),
    Question(2, [0, 3, 0, 0, 0, 0], 1, 0, false),
    // slots 0 and 31
    Question(3, [1, LAST, 0, 0, 0, 0], 0, 0, true),
    Question(3, [1, LAST, 0, 0, 0, 0], 1, 31, true),
    Question(3, [2, LAST, 0, 0, 0, 0], 1, 31, false),
    // six blocks
    Question(4, [FULL, FULL, FULL, FULL, FULL, FULL], 5, 31, true),
    Question(4, [FULL, FULL, FULL, FULL, FULL, FULL], 5, 30, false),
    Question(4, [FULL, FULL, FULL, FULL, 1, FULL], 0, 31, false),
    // no tuple denied, and none allowed
    Question(5, [FULL, FULL, 0, 0, 0, 0], 1, 31, true),
    Question(6, [FULL, FULL, 0, 0, 0, 0], 1, 31, false),
];

const RULES: [RuleRecord; 4] = [
    RuleRecord {
        rule: Rule::NotEqual,
        arity: 3,
        blocks: [2, 1, 0, 255, 255, 255],
    },
    RuleRecord {
        rule: Rule::AllDiff,
        arity: 2,
        blocks: [30, 31, 255, 255, 255, 255],
    },
    RuleRecord {
        rule: Rule::AllDiff,
        arity: 6,
        blocks: [0, 1, 2, 3, 4, 5],
    },
    RuleRecord {
        rule: Rule::NotEqual,
        arity: 6,
        blocks: [5, 4, 3, 2, 1, 0],
    },
];

const RULE_QUESTIONS: [Question; 17] = [
    // not all the same
    Question(0, [1, 1, 1, 0, 0, 0], 0, 0, false),
    Question(0, [1, 1, 1, 0, 0, 0], 0, 5, true),
    Question(0, [1, 3, 1, 0, 0, 0], 0, 0, true),
    Question(0, [1, 2, 0, 0, 0, 0], 0, 0, false),
    Question(0, [7, 7, 7, 7, 7, 7], 3, 0, false),
    Question(3, [LAST, LAST, LAST, LAST, LAST, LAST], 5, 31, false),
    Question(3, [LAST, LAST, LAST, 1, LAST, LAST], 5, 31, true),
    // all different
    Question(1, [1, LAST, 0, 0, 0, 0], 1, 31, true),
    Question(1, [LAST, 0, 0, 0, 0, 0], 1, 31, false),
    Question(1, [0, LAST, 0, 0, 0, 0], 0, 0, true),
    Question(1, [FULL, FULL, FULL, FULL, FULL, FULL], 2, 0, false),
    Question(2, [63, 63, 63, 63, 63, 63], 0, 0, true),
    Question(2, [31, 31, 31, 31, 31, 31], 0, 0, false),
    Question(2, [31, 31, 31, 31, 31, 31], 0, 5, true),
    Question(2, [1, 3, 7, 15, 31, 63], 5, 5, true),
    Question(2, [1, 3, 7, 15, 31, 63], 5, 4, false),
    Question(2, [FULL, FULL, FULL, FULL, 0, FULL], 0, 0, false),
];

fn ask_all<B: Bank>(rt: &impl Abort, bank: &B, questions: &[Question]) -> Result<(), Fail> {
    for (i, question) in questions.iter().enumerate() {
        let Question(c, masks, p, s, answer) = *question;
        if bank.supports(c, &masks, p, s) != answer {
            assert_eq!(rt; i, questions.len(), "the number of the question, from 0");
            return Ok(());
        }
    }
    Ok(())
}

#[test]
fn tables(rt: HostRuntime) -> Result<(), Fail> {
    let bank = TableBank::new(&TABLES, &CELLS);
    assert_eq!(rt; bank.count(), 7);
    assert_eq!(rt; bank.arity(4), 6);
    assert_eq!(rt; bank.arity(7), 0);
    assert_eq!(rt; bank.block(0, 2), 3);
    assert_eq!(rt; bank.block(0, 3), 255);
    assert_eq!(rt; bank.block(2, 0), 31);
    assert_eq!(rt; bank.block(7, 0), 255);
    ask_all(&rt, &bank, &TABLE_QUESTIONS)
}

#[test]
fn rules(rt: HostRuntime) -> Result<(), Fail> {
    let bank = RuleBank::new(&RULES);
    assert_eq!(rt; bank.count(), 4);
    assert_eq!(rt; bank.arity(2), 6);
    assert_eq!(rt; bank.arity(4), 0);
    assert_eq!(rt; bank.block(1, 1), 31);
    assert_eq!(rt; bank.block(1, 2), 255);
    assert_eq!(rt; bank.block(2, 6), 255);
    ask_all(&rt, &bank, &RULE_QUESTIONS)
}
