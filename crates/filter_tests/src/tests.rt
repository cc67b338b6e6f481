// The filters over the example network, at each row of the list, and over 32 blocks.
use crate::rows::CASES;
use banks::rule::{Rule, RuleRecord};
use banks::rule_bank::RuleBank;
use banks::table_bank::TableBank;
use filters::nfc::Nfc;
use network::bank::Bank;
use network::filter::Filter;
use network::refusal::Refusal;
use network::row::Row;
use six_blocks::{CELLS, OPEN, TABLES};
use std::test::Fail;

fn filtered<B: Bank>(
    filter: Nfc,
    bank: &B,
    opened: &[u32],
    present: &[u32],
    decided: usize,
) -> Option<Row> {
    let mut filter = filter;
    let mut row = Row::new(opened, present, decided)?;
    filter.apply(bank, &mut row);
    Some(row)
}

#[test]
fn rows_of_the_example(rt: HostRuntime) -> Result<(), Fail> {
    let bank = TableBank::new(&TABLES, &CELLS);
    for (i, case) in CASES.iter().enumerate() {
        let n = case.blocks.min(6);
        for (filter, left) in Nfc::ALL.iter().zip(case.left.iter()) {
            let Some(row) = filtered(
                *filter,
                &bank,
                &OPEN[0..n],
                &case.present[0..n],
                case.decided,
            ) else {
                return Err(Fail::new("no row"));
            };
            if row.present_masks() != &left[0..n] || row.decided() != case.decided {
                assert_eq!(rt;
                    (i, u8::from(*filter)),
                    (CASES.len(), 0),
                    "the case and the filter, from 0"
                );
                return Ok(());
            }
        }
    }
    Ok(())
}

#[test]
fn numbers(rt: HostRuntime) {
    for (number, filter) in (0u8..6).zip(Nfc::ALL) {
        assert_eq!(rt; Nfc::try_from(number), Ok(filter));
        assert_eq!(rt; u8::from(filter), number);
    }
    assert_eq!(rt; Nfc::try_from(6), Err(Refusal::LimitExceeded));
    assert_eq!(rt; Nfc::try_from(255), Err(Refusal::LimitExceeded));
}

const RULES: [RuleRecord; 2] = [
    RuleRecord {
        rule: Rule::NotEqual,
        arity: 2,
        blocks: [31, 0, 0, 0, 0, 0],
    },
    RuleRecord {
        rule: Rule::AllDiff,
        arity: 6,
        blocks: [0, 5, 10, 15, 20, 31],
    },
];

#[test]
fn thirty_two_blocks(rt: HostRuntime) -> Result<(), Fail> {
    let bank = RuleBank::new(&RULES);
    let mut present = [0x8000_0001; 32];
    present[0] = 1;
    for filter in Nfc::ALL {
        let Some(row) = filtered(filter, &bank, &[0xffff_ffff; 32], &present, 1) else {
            return Err(Fail::new("no row"));
        };
        // the last block loses slot 0; six different slots are then too many, but for nFC0, which does not ask, and nFC1, which asks by open masks
        let last = match filter {
            Nfc::Nfc0 | Nfc::Nfc1 => 0x8000_0000,
            _ => 0,
        };
        assert_eq!(rt; row.present_mask(31), last);
    }
    assert!(rt; Row::new(&[7; 33], &[7; 33], 0).is_none());
    Ok(())
}

#[test]
fn lawful_rows_only(rt: HostRuntime) {
    assert!(rt; Row::new(&[], &[], 0).is_some());
    assert!(rt; Row::new(&[3, 3], &[1, 2], 2).is_some());
    assert!(rt; Row::new(&[3, 3], &[0, 0], 2).is_some());
    assert!(rt; Row::new(&[0, 3], &[0, 0], 0).is_some());
    // another number of masks, too many decided, a slot that is not open, one empty mask, two slots decided
    assert!(rt; Row::new(&[3, 3], &[1], 0).is_none());
    assert!(rt; Row::new(&[3, 3], &[1, 2], 3).is_none());
    assert!(rt; Row::new(&[3, 3], &[1, 4], 0).is_none());
    assert!(rt; Row::new(&[3, 3], &[1, 0], 0).is_none());
    assert!(rt; Row::new(&[3, 3], &[0, 1], 0).is_none());
    assert!(rt; Row::new(&[3, 3], &[1, 3], 2).is_none());
}
