// Whole listings of the example network and of others: plans and node counts are an independent computation's.
use banks::rule::{Rule, RuleRecord};
use banks::rule_bank::RuleBank;
use banks::table_bank::TableBank;
use filters::nfc::Nfc;
use listing::outcome::Outcome;
use listing::session::Session;
use network::bank::Bank;
use six_blocks::{CELLS, OPEN, TABLES};
use std::test::Fail;

// The nodes of each filter's tree.
const NODES: [u32; 6] = [65, 17, 16, 16, 14, 14];

const PLANS: [[u8; 6]; 2] = [[0, 0, 0, 0, 0, 0], [0, 2, 1, 2, 2, 2]];

// What a listing showed: how many of the example's plans, from the first on, and how many visits it took.
#[derive(Clone, Copy)]
struct Shown {
    plans: usize,
    visits: u32,
}

// One call, and whether it was the last; nothing where it answered what a listing of the example must not.
fn step<B: Bank>(
    session: &mut Session,
    bank: &B,
    filter: Nfc,
    budget: u32,
    shown: Shown,
) -> Option<(Shown, bool)> {
    let mut filter = filter;
    let mut place = [99; 8];
    let Ok((outcome, visits)) = session.next(bank, &mut filter, budget, &mut place) else {
        return None;
    };
    let total = shown.visits.checked_add(visits)?;
    let more = Shown {
        plans: shown.plans,
        visits: total,
    };
    match outcome {
        Outcome::Plan if shown.plans < 2 && visits <= budget => {
            let [a, b, c, d, e, f, 99, 99] = place else {
                return None;
            };
            if [a, b, c, d, e, f] != PLANS[shown.plans] {
                return None;
            }
            Some((
                Shown {
                    plans: shown.plans + 1,
                    visits: total,
                },
                false,
            ))
        }
        Outcome::Spent if visits == budget && place == [99; 8] => Some((more, false)),
        Outcome::Done if visits <= budget && place == [99; 8] => Some((more, true)),
        _ => None,
    }
}

// The rest of a listing, in at most 99 calls.
fn rest<B: Bank>(
    session: &mut Session,
    bank: &B,
    filter: Nfc,
    budget: u32,
    shown: Shown,
) -> Option<Shown> {
    let mut shown = shown;
    for _ in 0..99 {
        let (more, last) = step(session, bank, filter, budget, shown)?;
        shown = more;
        if last {
            return Some(shown);
        }
    }
    None
}

#[test]
fn every_budget(rt: HostRuntime) -> Result<(), Fail> {
    let bank = TableBank::new(&TABLES, &CELLS);
    let mut session = Session::blank();
    assert!(rt; session.open(&bank, &OPEN).is_ok());
    for budget in 1..67 {
        for (filter, nodes) in Nfc::ALL.iter().zip(NODES.iter()) {
            assert!(rt; session.rewind().is_ok());
            let Some(shown) = rest(
                &mut session,
                &bank,
                *filter,
                budget,
                Shown {
                    plans: 0,
                    visits: 0,
                },
            ) else {
                return Err(Fail::new("a wrong answer"));
            };
            assert_eq!(rt; shown.plans, 2);
            assert_eq!(rt; shown.visits, *nodes);
        }
    }
    Ok(())
}

// So many visits with one filter, one a call, and the rest with another: the plans are the same.
fn changed<B: Bank>(
    session: &mut Session,
    bank: &B,
    first: Nfc,
    visits: u32,
    second: Nfc,
) -> Option<Shown> {
    let mut shown = Shown {
        plans: 0,
        visits: 0,
    };
    for _ in 0..visits {
        let (more, _) = step(session, bank, first, 1, shown)?;
        shown = more;
    }
    rest(session, bank, second, 5, shown)
}

#[test]
fn another_filter_at_every_position(rt: HostRuntime) -> Result<(), Fail> {
    let bank = TableBank::new(&TABLES, &CELLS);
    let mut session = Session::blank();
    assert!(rt; session.open(&bank, &OPEN).is_ok());
    for (first, nodes) in Nfc::ALL.iter().zip(NODES.iter()) {
        for second in Nfc::ALL.iter() {
            for visits in 0..*nodes {
                assert!(rt; session.rewind().is_ok());
                let Some(shown) = changed(&mut session, &bank, *first, visits, *second) else {
                    return Err(Fail::new("a wrong answer"));
                };
                assert_eq!(rt; shown.plans, 2);
            }
        }
    }
    Ok(())
}

// Pins of one block each, the nodes of each filter, and the plans that are left: none, the first or the second. By number, as
// `Shown` counts plans: an Option of the plan would be turned back into that count.
#[derive(Clone, Copy)]
struct Pinned(u8, u8, [u32; 6], usize);

const PINNED: [Pinned; 4] = [
    Pinned(0, 1, [13, 1, 1, 1, 1, 1], 0),
    Pinned(3, 0, [52, 14, 10, 10, 10, 10], 1),
    Pinned(2, 1, [34, 11, 10, 10, 10, 10], 2),
    Pinned(5, 2, [52, 11, 10, 10, 10, 10], 2),
];

fn pinned_listing<B: Bank>(bank: &B, pinned: Pinned, filter: Nfc) -> Option<Shown> {
    let Pinned(block, slot, _, plans) = pinned;
    let mut session = Session::blank();
    if session.open(bank, &OPEN).is_err() || session.pin(block, slot).is_err() {
        return None;
    }
    // the one plan that is left is the second of the example where `plans` says 2
    let skipped = if plans == 2 { 1 } else { 0 };
    rest(
        &mut session,
        bank,
        filter,
        3,
        Shown {
            plans: skipped,
            visits: 0,
        },
    )
}

#[test]
fn pins(rt: HostRuntime) -> Result<(), Fail> {
    let bank = TableBank::new(&TABLES, &CELLS);
    for pinned in PINNED.iter() {
        let Pinned(_, _, nodes, plans) = *pinned;
        for (filter, nodes) in Nfc::ALL.iter().zip(nodes.iter()) {
            let Some(shown) = pinned_listing(&bank, *pinned, *filter) else {
                return Err(Fail::new("a wrong answer"));
            };
            assert_eq!(rt; shown.visits, *nodes);
            assert_eq!(rt; shown.plans, plans);
        }
    }
    Ok(())
}

const PAIRS: [RuleRecord; 2] = [
    RuleRecord {
        rule: Rule::NotEqual,
        arity: 2,
        blocks: [31, 0, 0, 0, 0, 0],
    },
    RuleRecord {
        rule: Rule::AllDiff,
        arity: 2,
        blocks: [30, 31, 0, 0, 0, 0],
    },
];

// Slots 0 and 31 are open to blocks 0, 30 and 31, and slot 5 alone to the others: blocks 0 and 30 are then unlike block 31.
fn wide() -> [u32; 32] {
    let mut masks = [32; 32];
    masks[0] = 0x8000_0001;
    masks[30] = 0x8000_0001;
    masks[31] = 0x8000_0001;
    masks
}

#[test]
fn thirty_two_blocks(rt: HostRuntime) {
    let bank = RuleBank::new(&PAIRS);
    for filter in Nfc::ALL.iter() {
        let mut filter = *filter;
        let mut session = Session::blank();
        assert!(rt; session.open(&bank, &wide()).is_ok());
        let mut place = [99; 32];
        assert_eq!(rt;
            session.next(&bank, &mut filter, 1000, &mut place),
            Ok((Outcome::Plan, 32))
        );
        assert!(rt;
            place[0] == 0 && place[1] == 5 && place[29] == 5 && place[30] == 0 && place[31] == 31
        );
        assert_eq!(rt;
            session.next(&bank, &mut filter, 1000, &mut place),
            Ok((Outcome::Plan, 34))
        );
        assert!(rt; place[0] == 31 && place[30] == 31 && place[31] == 0);
        assert_eq!(rt;
            session.next(&bank, &mut filter, 1000, &mut place),
            Ok((Outcome::Done, 0))
        );
    }
}

#[test]
fn an_empty_open_mask(rt: HostRuntime) {
    let bank = RuleBank::new(&[]);
    let mut session = Session::blank();
    assert!(rt; session.open(&bank, &[7, 0, 7]).is_ok());
    let mut place = [99; 3];
    assert_eq!(rt;
        session.next(&bank, &mut Nfc::Nfc5, 10, &mut place),
        Ok((Outcome::Done, 0))
    );
    assert!(rt; place == [99; 3]);
}
