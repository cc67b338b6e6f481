// The alldiff form of Schur's lemma, 12 balls in 9 boxes: for each filter the visits until "done" are the number that was published for it.
use script::run::run;
use std::fmt::Write;
use std::test::Fail;

// For each pair of balls and their sum a rule that no two of them are in one box.
fn card(text: &mut String) -> Result<(), Fail> {
    text.push_str("blocks=12\n")?;
    for _ in 0..12 {
        text.push_str("open=511\n")?;
    }
    text.push_str("sheets=0\nrules=30\n")?;
    for x in 1u8..12 {
        for y in 1u8..12 {
            if x < y && x + y <= 12 {
                write!(
                    text,
                    "rule=alldiff\nscope={},{},{}\n",
                    x - 1,
                    y - 1,
                    x + y - 1
                )?;
            }
        }
    }
    text.push_str("end=net\n")?;
    Ok(())
}

const LISTINGS: [(u8, &str); 6] = [
    (
        0,
        "outcome=spent\nvisits=1000000\noutcome=done\nvisits=546362\n",
    ),
    (1, "outcome=done\nvisits=986409\noutcome=done\nvisits=0\n"),
    (2, "outcome=done\nvisits=986409\noutcome=done\nvisits=0\n"),
    (3, "outcome=done\nvisits=986409\noutcome=done\nvisits=0\n"),
    (4, "outcome=done\nvisits=623529\noutcome=done\nvisits=0\n"),
    (5, "outcome=done\nvisits=623529\noutcome=done\nvisits=0\n"),
];

#[test]
fn published_counts(rt: HostRuntime) -> Result<(), Fail> {
    let mut network = String::new(rt.alloc());
    card(&mut network)?;
    for (filter, listing) in LISTINGS {
        let mut commands = String::new(rt.alloc());
        write!(commands, "filter={filter}\nnext=1000000\nnext=1000000\n")?;
        let text = run(rt.alloc(), network.as_bytes(), commands.as_bytes())?;
        assert!(rt; text.as_str() == listing, "filter {filter}");
    }
    Ok(())
}
