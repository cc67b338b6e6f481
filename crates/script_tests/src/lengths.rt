// Command files of 4,096 bytes and of one more, refused cards, and which of the two is looked at first.
use crate::cards::TWO;
use script::run::run;
use std::alloc::Global;
use std::test::Fail;

// So many nines between two texts.
fn nines(alloc: Global, front: &[u8], count: usize, end: &[u8]) -> Result<Vec<u8>, Fail> {
    let mut commands = Vec::new(alloc);
    commands.extend_from_slice(front)?;
    for _ in 0..count {
        commands.push(b'9')?;
    }
    commands.extend_from_slice(end)?;
    Ok(commands)
}

// Command files of nines, 4,096 or 4,097 bytes long.
const NINES: &[(&[u8], usize, &[u8], &str)] = &[
    (b"", 4096, b"", "refused=1\n"),
    (b"", 4097, b"", "refused=2\n"),
    (b"filter=", 4088, b"\n", "refused=2\n"),
    (b"filter=", 4089, b"\n", "refused=2\n"),
    (b"filter=0", 4087, b"\n", "refused=1\n"),
    (b"filter=", 4089, b"", "refused=1\n"),
    (b"filter=", 4090, b"", "refused=2\n"),
    (b"filter=0\nnext=", 4081, b"\n", "refused=2\n"),
    (b"filter=0\nnext=0", 4080, b"\n", "refused=1\n"),
    (b"filter=0\nnext=", 4082, b"\n", "refused=2\n"),
    (b"filter=0\nnext=", 4082, b"", "refused=1\n"),
    (b"filter=0\npin=", 4080, b",0\n", "refused=2\n"),
    (b"filter=0\npin=0,", 4080, b"\n", "refused=2\n"),
    (b"filter=0\npin=", 4080, b",x\n", "refused=1\n"),
    (
        b"filter=0\nrewind=1\n",
        4077,
        b"\n",
        "outcome=rewind\nrefused=1\n",
    ),
];

#[test]
fn long_numbers(rt: HostRuntime) -> Result<(), Fail> {
    for (i, (front, count, end, expected)) in NINES.iter().enumerate() {
        let commands = nines(rt.alloc(), front, *count, end)?;
        let text = run(rt.alloc(), TWO, &commands)?;
        assert_eq!(rt; text.as_str(), *expected, "case {i}");
    }
    Ok(())
}

// Command files of 4,096 bytes, and the same with one byte more.
#[test]
fn most_commands(rt: HostRuntime) -> Result<(), Fail> {
    for (i, end) in [b"next=\n", b"next=9"].iter().enumerate() {
        let mut commands = Vec::new(rt.alloc());
        let mut expected = String::new(rt.alloc());
        commands.extend_from_slice(b"filter=0\n")?;
        for _ in 0..583 {
            commands.extend_from_slice(b"next=0\n")?;
            expected.push_str("refused=9\n")?;
        }
        commands.extend_from_slice(*end)?;
        expected.push_str("refused=1\n")?;
        assert_eq!(rt; commands.len(), 4096, "case {i}");
        let text = run(rt.alloc(), TWO, &commands)?;
        assert_eq!(rt; text, expected, "case {i}");
        commands.push(b'\n')?;
        let text = run(rt.alloc(), TWO, &commands)?;
        assert_eq!(rt; text.as_str(), "refused=2\n", "case {i}");
    }
    Ok(())
}

const CARDS: &[(&[u8], &str)] = &[
    (b"", "refused=1\n"),
    (b"\n", "refused=1\n"),
    (b"blocks=0\n", "refused=2\n"),
    (b"blocks=33\n", "refused=2\n"),
    (
        b"blocks=2\nopen=3\nopen=3\nsheets=1\nkind=deny\nscope=0,2\n",
        "refused=7\n",
    ),
    (
        b"blocks=2\nopen=3\nopen=3\nsheets=1\nkind=deny\nscope=0,0\n",
        "refused=3\n",
    ),
    (
        b"blocks=2\nopen=3\nopen=3\nsheets=0\nrules=0\nend=net",
        "refused=1\n",
    ),
    (
        b"blocks=2\nopen=3\nopen=3\nsheets=1\nkind=deny\nscope=0,1\nrows=1\nrow=0,0\nrules=0\nend=net\n\n",
        "refused=1\n",
    ),
    (
        b"blocks=2\nopen=3\nopen=3\nsheets=1\nkind=deny\nscope=0,1\nrows=1\nrow=0,0\nrules=0\nend=net\nx",
        "refused=1\n",
    ),
    (
        b"locks=2\nopen=3\nopen=3\nsheets=1\nkind=deny\nscope=0,1\nrows=1\nrow=0,0\nrules=0\nend=net\n",
        "refused=1\n",
    ),
];

// A refused card is its number alone, whatever the command file is, also one that is too long.
#[test]
fn refused_cards(rt: HostRuntime) -> Result<(), Fail> {
    let long = nines(rt.alloc(), b"", 4097, b"")?;
    let files: [&[u8]; 4] = [b"filter=0\nnext=9\n", b"filter=6\n", b"", &long];
    for (i, (card, expected)) in CARDS.iter().enumerate() {
        for commands in files {
            let text = run(rt.alloc(), card, commands)?;
            assert_eq!(rt; text.as_str(), *expected, "case {i}");
        }
    }
    for (length, expected) in [(32768, "refused=1\n"), (32769, "refused=2\n")] {
        let card = nines(rt.alloc(), b"", length, b"")?;
        let text = run(rt.alloc(), &card, b"")?;
        assert_eq!(rt; text.as_str(), expected, "a card of {length} bytes");
    }
    Ok(())
}
