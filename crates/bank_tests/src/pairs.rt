// Two banks as one.
use banks::pair::Pair;
use banks::rule::{Rule, RuleRecord};
use banks::rule_bank::RuleBank;
use network::bank::Bank;

const EQUAL_NOT: RuleRecord = RuleRecord {
    rule: Rule::NotEqual,
    arity: 2,
    blocks: [0, 1, 0, 0, 0, 0],
};

const DIFFERENT: RuleRecord = RuleRecord {
    rule: Rule::AllDiff,
    arity: 3,
    blocks: [2, 3, 4, 0, 0, 0],
};

#[test]
fn sheets_of_both(rt: HostRuntime) {
    let pair = Pair {
        first: RuleBank::new(&[EQUAL_NOT; 2]),
        second: RuleBank::new(&[DIFFERENT; 1]),
    };
    assert_eq!(rt; pair.count(), 3);
    assert_eq!(rt; pair.arity(1), 2);
    assert_eq!(rt; pair.arity(2), 3);
    assert_eq!(rt; pair.arity(3), 0);
    assert_eq!(rt; pair.block(1, 1), 1);
    assert_eq!(rt; pair.block(2, 2), 4);
    assert_eq!(rt; pair.block(3, 0), 255);
    assert!(rt; pair.supports(1, &[3, 3, 0, 0, 0, 0], 0, 0));
    assert!(rt; !pair.supports(2, &[3, 3, 0, 0, 0, 0], 0, 0));
    assert!(rt; pair.supports(2, &[1, 3, 7, 0, 0, 0], 0, 0));
    assert!(rt; !pair.supports(3, &[1, 3, 7, 0, 0, 0], 0, 0));
}

#[test]
fn cut_after_1024(rt: HostRuntime) {
    let pair = Pair {
        first: RuleBank::new(&[EQUAL_NOT; 1000]),
        second: RuleBank::new(&[DIFFERENT; 1000]),
    };
    assert_eq!(rt; pair.count(), 1024);
    assert_eq!(rt; pair.arity(999), 2);
    assert_eq!(rt; pair.arity(1000), 3);
    assert_eq!(rt; pair.arity(1023), 3);
    assert_eq!(rt; pair.arity(1024), 0);
    assert_eq!(rt; pair.block(1024, 0), 255);
    assert!(rt; pair.supports(1023, &[7, 7, 7, 0, 0, 0], 0, 0));
    assert!(rt; !pair.supports(1024, &[7, 7, 7, 0, 0, 0], 0, 0));
    // a pair of pairs
    let more = Pair {
        first: pair,
        second: RuleBank::new(&[EQUAL_NOT; 1]),
    };
    assert_eq!(rt; more.count(), 1024);
    assert_eq!(rt; more.arity(1024), 0);
}
