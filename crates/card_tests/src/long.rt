// Cards of the full length and of one byte more, and the largest networks that a card can carry.
use crate::room::answer;
use card::refusal::CardRefusal;
use card::sizes::Sizes;
use network::refusal::Refusal;
use std::alloc::Global;
use std::fmt::Write;
use std::test::Fail;

// A card with 3,887 tuples in 32 tables, of which the first so many allow theirs and the others deny them: that is the most tuples that fit.
fn many_tuples(alloc: Global, allowing: usize) -> Result<String, Fail> {
    let mut card = String::new(alloc);
    card.push_str("blocks=2\nopen=1\nopen=1\nsheets=32\n")?;
    for table in 0..32 {
        let kind = if table < allowing { "allow" } else { "deny" };
        let count = if table < 15 { 122 } else { 121 };
        write!(card, "kind={kind}\nscope=0,1\nrows={count}\n")?;
        for i in 0..count {
            write!(card, "row={},{}\n", i / 10, i % 10)?;
        }
    }
    card.push_str("rules=0\nend=net\n")?;
    Ok(card)
}

#[test]
fn full_length(rt: HostRuntime) -> Result<(), Fail> {
    let sizes = Sizes {
        masks: 2,
        tables: 32,
        cells: 7774,
        rules: 0,
    };
    let full = many_tuples(rt.alloc(), 8)?;
    assert_eq!(rt; full.len(), 32768);
    assert!(rt;
        answer(full.as_bytes()) == Ok(sizes),
        "a card of full length"
    );

    let over = many_tuples(rt.alloc(), 9)?;
    assert_eq!(rt; over.len(), 32769);
    let refusal = Refusal::LimitExceeded;
    assert!(rt;
        answer(over.as_bytes()) == Err(CardRefusal { refusal, line: 0 }),
        "one byte more"
    );
    Ok(())
}

// As many blocks, tables and rules as there may be, each over six blocks.
#[test]
fn most_of_each(rt: HostRuntime) -> Result<(), Fail> {
    let mut card = String::new(rt.alloc());
    card.push_str("blocks=32\n")?;
    for _ in 0..32 {
        card.push_str("open=4294967295\n")?;
    }
    card.push_str("sheets=32\n")?;
    for _ in 0..32 {
        card.push_str("kind=deny\nscope=26,27,28,29,30,31\nrows=1\nrow=31,31,31,31,31,31\n")?;
    }
    card.push_str("rules=192\n")?;
    for _ in 0..192 {
        card.push_str("rule=notequal\nscope=31,30,29,28,27,26\n")?;
    }
    card.push_str("end=net\n")?;
    let sizes = Sizes {
        masks: 32,
        tables: 32,
        cells: 192,
        rules: 192,
    };
    assert!(rt;
        answer(card.as_bytes()) == Ok(sizes),
        "the most blocks, tables and rules"
    );
    Ok(())
}
