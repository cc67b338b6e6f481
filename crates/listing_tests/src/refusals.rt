// The refusals of each call, in the order in which they are judged, and that a refusal changes nothing.
use banks::rule::{Rule, RuleRecord};
use banks::rule_bank::RuleBank;
use filters::nfc::Nfc;
use listing::outcome::Outcome;
use listing::session::Session;
use network::bank::Bank;
use network::refusal::Refusal;
use std::test::Fail;

// Three blocks, of which the first two differ.
const UNLIKE: [RuleRecord; 1] = [RuleRecord {
    rule: Rule::NotEqual,
    arity: 2,
    blocks: [0, 1, 9, 9, 9, 9],
}];

// A sheet that names block 3.
const PAST: [RuleRecord; 1] = [RuleRecord {
    rule: Rule::NotEqual,
    arity: 2,
    blocks: [0, 3, 0, 0, 0, 0],
}];

// How a next ends, and whether the place stayed as it was.
fn asked<B: Bank>(
    session: &mut Session,
    bank: &B,
    budget: u32,
    long: usize,
) -> (Result<Outcome, Refusal>, bool) {
    let mut place = [99; 3];
    let part = &mut place[0..long.min(3)];
    let answer = session.next(bank, &mut Nfc::Nfc2, budget, part);
    (answer.map(|(outcome, _)| outcome), place == [99; 3])
}

const LEDGER: [Refusal; 9] = [
    Refusal::Malformed,
    Refusal::LimitExceeded,
    Refusal::Repeated,
    Refusal::PlaceTooShort,
    Refusal::NotOpened,
    Refusal::AlreadyOpened,
    Refusal::OutOfRange,
    Refusal::AlreadyPinned,
    Refusal::BadBudget,
];

#[test]
fn numbers_of_the_ledger(rt: HostRuntime) {
    for (number, refusal) in (1u8..10).zip(LEDGER) {
        assert_eq!(rt; u8::from(refusal), number);
    }
}

// A session after its first plan, 0,1,0: two more slots of block 2 and the pair 1,0 are still to come.
fn begun<B: Bank>(bank: &B) -> Option<Session> {
    let mut session = Session::blank();
    if session.open(bank, &[3, 3, 7]).is_err() {
        return None;
    }
    match session.next(bank, &mut Nfc::Nfc2, 100, &mut [0; 3]) {
        Ok((Outcome::Plan, 3)) => Some(session),
        _ => None,
    }
}

// Whether the next plan is the second, 0,1,1, one visit on.
fn stands_after_first<B: Bank>(session: Session, bank: &B) -> bool {
    let mut session = session;
    let mut place = [99; 4];
    let answer = session.next(bank, &mut Nfc::Nfc2, 100, &mut place);
    answer == Ok((Outcome::Plan, 1)) && place == [0, 1, 1, 99]
}

#[test]
fn of_a_blank_session(rt: HostRuntime) {
    let bank = RuleBank::new(&UNLIKE);
    let past = RuleBank::new(&PAST);
    let mut session = Session::blank();
    assert_eq!(rt; session.pin(255, 255), Err(Refusal::NotOpened));
    assert_eq!(rt; session.rewind(), Err(Refusal::NotOpened));
    assert_eq!(rt;
        asked(&mut session, &past, 0, 0),
        (Err(Refusal::NotOpened), true)
    );
    assert_eq!(rt; session.open(&past, &[]), Err(Refusal::LimitExceeded));
    assert_eq!(rt; session.open(&past, &[7; 33]), Err(Refusal::LimitExceeded));
    assert_eq!(rt; session.open(&past, &[7; 3]), Err(Refusal::OutOfRange));
    // still blank
    assert_eq!(rt; session.rewind(), Err(Refusal::NotOpened));
    assert_eq!(rt; session.open(&past, &[7; 4]), Ok(()));
    assert_eq!(rt; session.open(&bank, &[]), Err(Refusal::AlreadyOpened));
}

#[test]
fn of_next(rt: HostRuntime) -> Result<(), Fail> {
    let bank = RuleBank::new(&UNLIKE);
    let past = RuleBank::new(&PAST);
    let Some(mut session) = begun(&bank) else {
        return Err(Fail::new("no first plan"));
    };
    assert_eq!(rt;
        asked(&mut session, &past, 0, 2),
        (Err(Refusal::BadBudget), true)
    );
    assert_eq!(rt;
        asked(&mut session, &past, 1_000_001, 2),
        (Err(Refusal::BadBudget), true)
    );
    assert_eq!(rt;
        asked(&mut session, &past, 1, 2),
        (Err(Refusal::PlaceTooShort), true)
    );
    assert_eq!(rt;
        asked(&mut session, &past, 1_000_000, 3),
        (Err(Refusal::OutOfRange), true)
    );
    assert!(rt; stands_after_first(session, &bank));
    assert_eq!(rt;
        asked(&mut session, &bank, 1_000_000, 3),
        (Ok(Outcome::Plan), false)
    );
    Ok(())
}

#[test]
fn of_pin(rt: HostRuntime) -> Result<(), Fail> {
    let bank = RuleBank::new(&UNLIKE);
    let Some(mut session) = begun(&bank) else {
        return Err(Fail::new("no first plan"));
    };
    assert_eq!(rt; session.pin(3, 0), Err(Refusal::OutOfRange));
    assert_eq!(rt; session.pin(255, 0), Err(Refusal::OutOfRange));
    assert_eq!(rt; session.pin(2, 32), Err(Refusal::OutOfRange));
    assert_eq!(rt; session.pin(2, 255), Err(Refusal::OutOfRange));
    assert_eq!(rt; session.pin(2, 3), Err(Refusal::OutOfRange));
    assert_eq!(rt; session.open(&bank, &[7; 3]), Err(Refusal::AlreadyOpened));
    assert!(rt; stands_after_first(session, &bank));
    // an accepted pin starts over, and the open mask stays
    assert_eq!(rt; session.pin(0, 1), Ok(()));
    let mut place = [99; 3];
    assert_eq!(rt;
        session.next(&bank, &mut Nfc::Nfc0, 100, &mut place),
        Ok((Outcome::Plan, 3))
    );
    assert!(rt; place == [1, 0, 0]);
    assert_eq!(rt; session.pin(0, 2), Err(Refusal::OutOfRange));
    assert_eq!(rt; session.pin(0, 0), Err(Refusal::AlreadyPinned));
    assert_eq!(rt; session.pin(0, 1), Err(Refusal::AlreadyPinned));
    assert_eq!(rt;
        session.next(&bank, &mut Nfc::Nfc0, 100, &mut place),
        Ok((Outcome::Plan, 1))
    );
    assert!(rt; place == [1, 0, 1]);
    // a rewind keeps the pin
    assert_eq!(rt; session.rewind(), Ok(()));
    assert_eq!(rt;
        session.next(&bank, &mut Nfc::Nfc0, 100, &mut place),
        Ok((Outcome::Plan, 3))
    );
    assert!(rt; place == [1, 0, 0]);
    Ok(())
}
