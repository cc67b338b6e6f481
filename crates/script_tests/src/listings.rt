// Listings: where a pin or a rewind starts over, how a listing ends, and lines that are no commands between.
use crate::cards::TWO;
use script::run::run;
use std::test::Fail;

const SHUT: &[u8] = b"blocks=2\nopen=0\nopen=3\nsheets=0\nrules=0\nend=net\n";

const ONE: &[u8] = b"blocks=1\nopen=2147483649\nsheets=0\nrules=0\nend=net\n";

const CLASH: &[u8] = b"blocks=3\nopen=3\nopen=3\nopen=3\nsheets=0\nrules=1\n\
rule=alldiff\nscope=0,1,2\nend=net\n";

const FILES: &[(&[u8], &[u8], &str)] = &[
    // a node a call, to the end and past it
    (
        TWO,
        b"filter=0\nnext=1\nnext=1\nnext=1\nnext=1\nnext=1\nnext=1\nnext=1\nnext=1\n",
        "outcome=spent\nvisits=1\noutcome=plan\nplan=0,1\nvisits=1\noutcome=spent\nvisits=1\noutcome=plan\nplan=1,0\nvisits=1\noutcome=plan\nplan=1,1\nvisits=1\noutcome=done\nvisits=0\noutcome=done\nvisits=0\noutcome=done\nvisits=0\n",
    ),
    // all nodes at the most budget that there is
    (
        TWO,
        b"filter=0\nnext=1000000\nnext=1000000\nnext=1000000\nnext=1000000\n",
        "outcome=plan\nplan=0,1\nvisits=2\noutcome=plan\nplan=1,0\nvisits=2\noutcome=plan\nplan=1,1\nvisits=1\noutcome=done\nvisits=0\n",
    ),
    // a budget used up on the last node: done where it shows no plan, and a plan where it shows one
    (
        CLASH,
        b"filter=0\nnext=4\nnext=2\nnext=1\nrewind=1\nnext=6\nrewind=1\nnext=5\nnext=1\n",
        "outcome=spent\nvisits=4\noutcome=done\nvisits=2\noutcome=done\nvisits=0\noutcome=rewind\noutcome=done\nvisits=6\noutcome=rewind\noutcome=spent\nvisits=5\noutcome=done\nvisits=1\n",
    ),
    // a rewind starts over, and keeps the pins
    (
        TWO,
        b"filter=0\nnext=2\nrewind=1\nnext=2\npin=1,0\nnext=9\nrewind=1\nnext=9\nnext=9\n",
        "outcome=plan\nplan=0,1\nvisits=2\noutcome=rewind\noutcome=plan\nplan=0,1\nvisits=2\noutcome=pin\noutcome=plan\nplan=1,0\nvisits=3\noutcome=rewind\noutcome=plan\nplan=1,0\nvisits=3\noutcome=done\nvisits=0\n",
    ),
    (
        TWO,
        b"filter=0\nrewind=1\nrewind=1\nnext=2\n",
        "outcome=rewind\noutcome=rewind\noutcome=plan\nplan=0,1\nvisits=2\n",
    ),
    (
        TWO,
        b"filter=0\nnext=9\nnext=9\nnext=9\nnext=9\nrewind=1\nnext=9\n",
        "outcome=plan\nplan=0,1\nvisits=2\noutcome=plan\nplan=1,0\nvisits=2\noutcome=plan\nplan=1,1\nvisits=1\noutcome=done\nvisits=0\noutcome=rewind\noutcome=plan\nplan=0,1\nvisits=2\n",
    ),
    // a pin starts over
    (
        TWO,
        b"filter=0\nnext=3\nnext=1\npin=0,1\nnext=1\nnext=1\nnext=1\nnext=1\n",
        "outcome=plan\nplan=0,1\nvisits=2\noutcome=spent\nvisits=1\noutcome=pin\noutcome=spent\nvisits=1\noutcome=plan\nplan=1,0\nvisits=1\noutcome=plan\nplan=1,1\nvisits=1\noutcome=done\nvisits=0\n",
    ),
    (
        TWO,
        b"filter=0\nnext=9\nnext=9\nnext=9\nnext=9\npin=1,1\nnext=9\nnext=9\nnext=9\n",
        "outcome=plan\nplan=0,1\nvisits=2\noutcome=plan\nplan=1,0\nvisits=2\noutcome=plan\nplan=1,1\nvisits=1\noutcome=done\nvisits=0\noutcome=pin\noutcome=plan\nplan=0,1\nvisits=2\noutcome=plan\nplan=1,1\nvisits=2\noutcome=done\nvisits=0\n",
    ),
    // a second pin of a block, and one out of range there
    (
        TWO,
        b"filter=0\npin=0,0\npin=0,0\npin=0,1\npin=0,2\npin=2,0\npin=0,4294967296\nnext=9\n",
        "outcome=pin\nrefused=8\nrefused=8\nrefused=7\nrefused=7\nrefused=2\noutcome=plan\nplan=0,1\nvisits=2\n",
    ),
    // a refused pin does not start over
    (
        TWO,
        b"filter=0\npin=0,1\nnext=1\npin=0,0\nnext=9\nnext=9\nnext=9\n",
        "outcome=pin\noutcome=spent\nvisits=1\nrefused=8\noutcome=plan\nplan=1,0\nvisits=1\noutcome=plan\nplan=1,1\nvisits=1\noutcome=done\nvisits=0\n",
    ),
    // pins that no plan has
    (
        TWO,
        b"filter=0\npin=0,0\npin=1,0\nnext=9\nnext=9\nrewind=1\nnext=9\n",
        "outcome=pin\noutcome=pin\noutcome=done\nvisits=1\noutcome=done\nvisits=0\noutcome=rewind\noutcome=done\nvisits=1\n",
    ),
    // a last line with no newline is malformed, whatever it says
    (TWO, b"filter=0\nnext=9", "refused=1\n"),
    (
        TWO,
        b"filter=0\nnext=9\nnext=9",
        "outcome=plan\nplan=0,1\nvisits=2\nrefused=1\n",
    ),
    (TWO, b"filter=0\nrewind=1\nx", "outcome=rewind\nrefused=1\n"),
    (
        TWO,
        b"filter=0\nnext=9\n\0",
        "outcome=plan\nplan=0,1\nvisits=2\nrefused=1\n",
    ),
    (TWO, b"filter=0\n ", "refused=1\n"),
    (TWO, b"filter=0\nnext=4294967296", "refused=1\n"),
    // empty lines
    (TWO, b"filter=0\n\n", "refused=1\n"),
    (
        TWO,
        b"filter=0\n\n\nnext=9\n\nnext=9\n\n",
        "refused=1\nrefused=1\noutcome=plan\nplan=0,1\nvisits=2\nrefused=1\noutcome=plan\nplan=1,0\nvisits=2\nrefused=1\n",
    ),
    // a block with no open slot: there are no nodes
    (
        SHUT,
        b"filter=0\nnext=1\nnext=9\npin=0,0\npin=1,0\nnext=1\nrewind=1\nnext=1\n",
        "outcome=done\nvisits=0\noutcome=done\nvisits=0\nrefused=7\noutcome=pin\noutcome=done\nvisits=0\noutcome=rewind\noutcome=done\nvisits=0\n",
    ),
    (SHUT, b"filter=5\nnext=1\n", "outcome=done\nvisits=0\n"),
    // one block, with slots 0 and 31
    (
        ONE,
        b"filter=4\nnext=1\nnext=1\nnext=1\npin=0,31\nnext=1\nnext=1\npin=1,0\npin=0,30\npin=0,0\npin=0,32\n",
        "outcome=plan\nplan=0\nvisits=1\noutcome=plan\nplan=31\nvisits=1\noutcome=done\nvisits=0\noutcome=pin\noutcome=plan\nplan=31\nvisits=1\noutcome=done\nvisits=0\nrefused=7\nrefused=7\nrefused=8\nrefused=7\n",
    ),
    // three blocks that must differ, with two slots: no plan, with each filter
    (
        CLASH,
        b"filter=0\nnext=1\nnext=99\nnext=99\npin=2,1\nnext=99\n",
        "outcome=spent\nvisits=1\noutcome=done\nvisits=5\noutcome=done\nvisits=0\noutcome=pin\noutcome=done\nvisits=6\n",
    ),
    (
        CLASH,
        b"filter=1\nnext=1\nnext=99\nnext=99\npin=2,1\nnext=99\n",
        "outcome=spent\nvisits=1\noutcome=done\nvisits=1\noutcome=done\nvisits=0\noutcome=pin\noutcome=done\nvisits=2\n",
    ),
    (
        CLASH,
        b"filter=2\nnext=1\nnext=99\nnext=99\npin=2,1\nnext=99\n",
        "outcome=spent\nvisits=1\noutcome=done\nvisits=1\noutcome=done\nvisits=0\noutcome=pin\noutcome=done\nvisits=2\n",
    ),
    (
        CLASH,
        b"filter=3\nnext=1\nnext=99\nnext=99\npin=2,1\nnext=99\n",
        "outcome=spent\nvisits=1\noutcome=done\nvisits=1\noutcome=done\nvisits=0\noutcome=pin\noutcome=done\nvisits=2\n",
    ),
    (
        CLASH,
        b"filter=4\nnext=1\nnext=99\nnext=99\npin=2,1\nnext=99\n",
        "outcome=spent\nvisits=1\noutcome=done\nvisits=1\noutcome=done\nvisits=0\noutcome=pin\noutcome=done\nvisits=2\n",
    ),
    (
        CLASH,
        b"filter=5\nnext=1\nnext=99\nnext=99\npin=2,1\nnext=99\n",
        "outcome=spent\nvisits=1\noutcome=done\nvisits=1\noutcome=done\nvisits=0\noutcome=pin\noutcome=done\nvisits=2\n",
    ),
];

#[test]
fn listings(rt: HostRuntime) -> Result<(), Fail> {
    for (i, (card, commands, expected)) in FILES.iter().enumerate() {
        let text = run(rt.alloc(), card, commands)?;
        assert_eq!(rt; text.as_str(), *expected, "case {i}");
    }
    Ok(())
}
