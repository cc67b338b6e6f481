// What the record checks answer, at each limit and one past it, and where a record has more than one fault.
use banks::rule::{Rule, RuleRecord, check_rules};
use banks::rule_bank::RuleBank;
use banks::table::{Kind, TableRecord, check_tables};
use banks::table_bank::TableBank;
use network::bank::Bank;
use network::refusal::Refusal;
use std::test::Fail;

// How many sheets the bank over these records has.
fn rule_sheets(lines: &[RuleRecord]) -> usize {
    let bank = RuleBank::new(lines);
    bank.count()
}

const CELLS: [u8; 12] = [0, 31, 1, 0, 1, 0, 5, 4, 32, 0, 0, 0];

// Arity, blocks, first cell, tuples, and what the check answers.
#[derive(Clone, Copy)]
struct Case(u8, [u8; 6], usize, usize, Result<(), Refusal>);

const GOOD: Result<(), Refusal> = Ok(());

const OVERLOAD: Result<(), Refusal> = Err(Refusal::LimitExceeded);

const DOUBLED: Result<(), Refusal> = Err(Refusal::Repeated);

const SHORT: Result<(), Refusal> = Err(Refusal::PlaceTooShort);

const OFF: Result<(), Refusal> = Err(Refusal::OutOfRange);

const CASES: [Case; 28] = [
    Case(2, [0, 31, 0, 0, 0, 0], 0, 2, GOOD),
    Case(2, [0, 31, 0, 99, 0, 0], 0, 0, GOOD),
    Case(6, [5, 4, 3, 2, 1, 0], 0, 1, GOOD),
    // an arity outside 2 to 6, before everything else
    Case(1, [0, 0, 0, 0, 0, 0], 0, 0, OVERLOAD),
    Case(0, [0, 0, 0, 0, 0, 0], 0, 0, OVERLOAD),
    Case(7, [0, 0, 0, 0, 0, 0], 99, 0, OVERLOAD),
    Case(255, [0, 0, 0, 0, 0, 0], 0, 0, OVERLOAD),
    // too many tuples, before too few cells
    Case(2, [0, 1, 0, 0, 0, 0], 0, 4096, SHORT),
    Case(2, [0, 1, 0, 0, 0, 0], 0, 4097, OVERLOAD),
    Case(6, [0, 1, 2, 3, 4, 5], 0, usize::MAX, OVERLOAD),
    // the last cell, and one past it
    Case(2, [0, 1, 0, 0, 0, 0], 10, 1, GOOD),
    Case(2, [0, 1, 0, 0, 0, 0], 11, 1, SHORT),
    Case(2, [0, 1, 0, 0, 0, 0], 12, 0, GOOD),
    Case(2, [0, 1, 0, 0, 0, 0], 13, 0, SHORT),
    Case(2, [0, 1, 0, 0, 0, 0], usize::MAX, 0, SHORT),
    Case(6, [0, 1, 2, 3, 4, 5], usize::MAX - 5, 1, SHORT),
    Case(6, [0, 1, 2, 3, 4, 5], usize::MAX, 4096, SHORT),
    Case(2, [99, 99, 0, 0, 0, 0], 13, 0, SHORT),
    // a block above 31, and a cell above 31, before a repetition
    Case(2, [0, 32, 0, 0, 0, 0], 0, 1, OFF),
    Case(3, [0, 0, 32, 0, 0, 0], 0, 1, OFF),
    Case(2, [0, 1, 0, 0, 0, 0], 8, 1, OFF),
    Case(2, [1, 1, 0, 0, 0, 0], 8, 1, OFF),
    // a block twice, tuples the same, tuples that descend
    Case(2, [7, 7, 0, 0, 0, 0], 0, 1, DOUBLED),
    Case(6, [0, 1, 2, 3, 4, 0], 0, 1, DOUBLED),
    Case(2, [0, 1, 0, 0, 0, 0], 2, 2, DOUBLED),
    Case(2, [0, 1, 0, 0, 0, 0], 4, 2, GOOD),
    Case(3, [0, 1, 2, 0, 0, 0], 0, 2, DOUBLED),
    Case(2, [0, 1, 0, 0, 0, 0], 0, 4, DOUBLED),
];

#[test]
fn table_records(rt: HostRuntime) -> Result<(), Fail> {
    for (i, case) in CASES.iter().enumerate() {
        let Case(arity, blocks, first, tuples, answer) = *case;
        for kind in [Kind::Allow, Kind::Deny] {
            let lines = [TableRecord {
                kind,
                arity,
                blocks,
                first,
                tuples,
            }];
            let sheets = TableBank::new(&lines, &CELLS).count();
            if check_tables(&lines, &CELLS) != answer || (sheets == 1) != answer.is_ok() {
                assert_eq!(rt; i, CASES.len(), "the number of the case, from 0");
                return Ok(());
            }
        }
    }
    Ok(())
}

const LINE: RuleRecord = RuleRecord {
    rule: Rule::AllDiff,
    arity: 2,
    blocks: [0, 1, 99, 99, 99, 99],
};

#[test]
fn rule_records(rt: HostRuntime) -> Result<(), Fail> {
    for (i, case) in CASES.iter().enumerate() {
        let Case(arity, blocks, first, tuples, answer) = *case;
        let lines = [RuleRecord {
            rule: Rule::NotEqual,
            arity,
            blocks,
        }];
        let only_scope = first == 0 && tuples <= 1;
        if only_scope && check_rules(&lines) != answer {
            assert_eq!(rt; i, CASES.len(), "the number of the case, from 0");
            return Ok(());
        }
    }
    // the first faulty record decides
    let lines = [
        LINE,
        RuleRecord { arity: 1, ..LINE },
        RuleRecord {
            blocks: [9; 6],
            ..LINE
        },
    ];
    assert_eq!(rt; check_rules(&lines), OVERLOAD);
    assert_eq!(rt; rule_sheets(&lines), 0);
    let lines = [
        LINE,
        RuleRecord {
            blocks: [9; 6],
            ..LINE
        },
        RuleRecord { arity: 1, ..LINE },
    ];
    assert_eq!(rt; check_rules(&lines), DOUBLED);
    assert_eq!(rt; rule_sheets(&[LINE; 1024]), 1024);
    assert_eq!(rt; check_rules(&[LINE; 1025]), OVERLOAD);
    assert_eq!(rt; rule_sheets(&[LINE; 1025]), 0);
    // the number of records comes before what is in them
    assert_eq!(rt;
        check_rules(&[RuleRecord {
            blocks: [9; 6],
            ..LINE
        }; 1025]),
        OVERLOAD
    );
    Ok(())
}

const TABLE: TableRecord = TableRecord {
    kind: Kind::Allow,
    arity: 3,
    blocks: [0, 1, 2, 99, 99, 99],
    first: 0,
    tuples: 4096,
};

// The first 4,097 tuples of three slots, ascending.
fn ascending() -> [u8; 12291] {
    let mut cells = [0u8; 12291];
    // By number: three cells are made of each.
    for i in 0..4097 {
        cells[3 * i] = (i / 1024) as u8;
        cells[3 * i + 1] = (i / 32 % 32) as u8;
        cells[3 * i + 2] = (i % 32) as u8;
    }
    cells
}

#[test]
fn longest_tables(rt: HostRuntime) {
    let cells = ascending();
    assert_eq!(rt; check_tables(&[TABLE; 1024], &cells), GOOD);
    assert_eq!(rt; check_tables(&[TABLE; 1025], &cells), OVERLOAD);
    let longer = TableRecord {
        tuples: 4097,
        ..TABLE
    };
    assert_eq!(rt; check_tables(&[longer], &cells), OVERLOAD);
}

#[test]
fn longest_table_answers(rt: HostRuntime) {
    let cells = ascending();
    let lines = [TABLE; 2];
    let bank = TableBank::new(&lines, &cells);
    assert!(rt; bank.supports(1, &[8, 0xffff_ffff, 0, 0, 0, 0], 2, 31));
    assert!(rt; !bank.supports(1, &[16, 1, 0, 0, 0, 0], 2, 0));
}

#[test]
fn last_tuple_twice(rt: HostRuntime) {
    let mut cells = ascending();
    cells[12287] = 30;
    assert_eq!(rt; check_tables(&[TABLE], &cells), DOUBLED);
}
