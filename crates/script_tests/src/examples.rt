// The folders of examples/ but the season's: the texts of their files.
use crate::cards::TWO;
use script::run::run;
use std::test::Fail;

const SIX: &[u8] =
    b"blocks=6\nopen=7\nopen=7\nopen=7\nopen=7\nopen=7\nopen=7\nsheets=3\nkind=allow\nscope=0,2,3\nrows=3\n\
row=0,0,0\nrow=0,1,2\nrow=0,2,1\nkind=allow\nscope=1,4,5\nrows=3\nrow=0,0,0\nrow=0,1,1\nrow=2,2,2\n\
kind=allow\nscope=0,2,5\nrows=2\nrow=0,0,0\nrow=0,1,2\nrules=0\nend=net\n";

const REFUSED: &[u8] =
    b"blocks=2\nopen=3\nopen=3\nsheets=1\nkind=deny\nscope=0,2\nrows=1\nrow=0,0\nrules=0\nend=net\n";

const FOLDERS: &[(&[u8], &[u8], &str)] = &[
    // worked
    (
        TWO,
        b"filter=0\nnext=10\npin=0,0\nnext=1\nnext=9\npin=0,1\n",
        "outcome=plan\nplan=0,1\nvisits=2\noutcome=pin\noutcome=spent\nvisits=1\noutcome=plan\nplan=0,1\nvisits=1\n\
refused=8\n",
    ),
    // six-blocks-0
    (
        SIX,
        b"filter=0\nnext=20\nnext=20\nnext=20\nnext=20\nnext=20\nrewind=1\nnext=20\npin=4,2\npin=4,1\npin=2,3\nnext=8\n\
next=8\nnext=8\nnext=8\nnext=8\nnext=8\nnext=8\nnext=8\n",
        "outcome=plan\nplan=0,0,0,0,0,0\nvisits=6\noutcome=spent\nvisits=20\noutcome=plan\nplan=0,2,1,2,2,2\n\
visits=12\noutcome=spent\nvisits=20\noutcome=done\nvisits=7\noutcome=rewind\noutcome=plan\nplan=0,0,0,0,0,0\n\
visits=6\noutcome=pin\nrefused=8\nrefused=7\noutcome=spent\nvisits=8\noutcome=spent\nvisits=8\noutcome=spent\n\
visits=8\noutcome=plan\nplan=0,2,1,2,2,2\nvisits=1\noutcome=spent\nvisits=8\noutcome=spent\nvisits=8\n\
outcome=spent\nvisits=8\noutcome=done\nvisits=3\n",
    ),
    // six-blocks-1
    (
        SIX,
        b"filter=1\nnext=20\nnext=20\nnext=20\nrewind=1\nnext=20\npin=4,2\npin=4,1\npin=2,3\nnext=8\nnext=8\nnext=8\n",
        "outcome=plan\nplan=0,0,0,0,0,0\nvisits=6\noutcome=plan\nplan=0,2,1,2,2,2\nvisits=9\noutcome=done\nvisits=2\n\
outcome=rewind\noutcome=plan\nplan=0,0,0,0,0,0\nvisits=6\noutcome=pin\nrefused=8\nrefused=7\noutcome=spent\n\
visits=8\noutcome=plan\nplan=0,2,1,2,2,2\nvisits=1\noutcome=done\nvisits=2\n",
    ),
    // six-blocks-2
    (
        SIX,
        b"filter=2\nnext=20\nnext=20\nnext=20\nrewind=1\nnext=20\npin=4,2\npin=4,1\npin=2,3\nnext=8\nnext=8\nnext=8\n",
        "outcome=plan\nplan=0,0,0,0,0,0\nvisits=6\noutcome=plan\nplan=0,2,1,2,2,2\nvisits=8\noutcome=done\nvisits=2\n\
outcome=rewind\noutcome=plan\nplan=0,0,0,0,0,0\nvisits=6\noutcome=pin\nrefused=8\nrefused=7\noutcome=spent\n\
visits=8\noutcome=plan\nplan=0,2,1,2,2,2\nvisits=1\noutcome=done\nvisits=2\n",
    ),
    // six-blocks-3
    (
        SIX,
        b"filter=3\nnext=20\nnext=20\nnext=20\nrewind=1\nnext=20\npin=4,2\npin=4,1\npin=2,3\nnext=8\nnext=8\nnext=8\n",
        "outcome=plan\nplan=0,0,0,0,0,0\nvisits=6\noutcome=plan\nplan=0,2,1,2,2,2\nvisits=8\noutcome=done\nvisits=2\n\
outcome=rewind\noutcome=plan\nplan=0,0,0,0,0,0\nvisits=6\noutcome=pin\nrefused=8\nrefused=7\noutcome=spent\n\
visits=8\noutcome=plan\nplan=0,2,1,2,2,2\nvisits=1\noutcome=done\nvisits=2\n",
    ),
    // six-blocks-4
    (
        SIX,
        b"filter=4\nnext=20\nnext=20\nnext=20\nrewind=1\nnext=20\npin=4,2\npin=4,1\npin=2,3\nnext=8\nnext=8\n",
        "outcome=plan\nplan=0,0,0,0,0,0\nvisits=6\noutcome=plan\nplan=0,2,1,2,2,2\nvisits=6\noutcome=done\nvisits=2\n\
outcome=rewind\noutcome=plan\nplan=0,0,0,0,0,0\nvisits=6\noutcome=pin\nrefused=8\nrefused=7\noutcome=plan\n\
plan=0,2,1,2,2,2\nvisits=8\noutcome=done\nvisits=2\n",
    ),
    // six-blocks-5
    (
        SIX,
        b"filter=5\nnext=20\nnext=20\nnext=20\nrewind=1\nnext=20\npin=4,2\npin=4,1\npin=2,3\nnext=8\nnext=8\n",
        "outcome=plan\nplan=0,0,0,0,0,0\nvisits=6\noutcome=plan\nplan=0,2,1,2,2,2\nvisits=6\noutcome=done\nvisits=2\n\
outcome=rewind\noutcome=plan\nplan=0,0,0,0,0,0\nvisits=6\noutcome=pin\nrefused=8\nrefused=7\noutcome=plan\n\
plan=0,2,1,2,2,2\nvisits=8\noutcome=done\nvisits=2\n",
    ),
    // refused-card
    (REFUSED, b"filter=0\nnext=10\n", "refused=7\n"),
];

#[test]
fn example_folders(rt: HostRuntime) -> Result<(), Fail> {
    for (i, (card, commands, expected)) in FOLDERS.iter().enumerate() {
        let text = run(rt.alloc(), card, commands)?;
        assert_eq!(rt; text.as_str(), *expected, "case {i}");
    }
    Ok(())
}
