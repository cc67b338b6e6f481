// Command files with and without a filter line, on the worked card.
use crate::cards::TWO;
use script::run::run;
use std::test::Fail;

const FILES: &[(&[u8], &str)] = &[
    // no filter line
    (b"", "refused=1\n"),
    (b"\n", "refused=1\n"),
    (b"next=9\n", "refused=1\n"),
    (b"\nfilter=0\n", "refused=1\n"),
    (b"next=9\nfilter=0\n", "refused=1\n"),
    (b"x", "refused=1\n"),
    (b"filter\nnext=9\n", "refused=1\n"),
    (b"=0\n", "refused=1\n"),
    (b"Filter=0\nnext=9\n", "refused=1\n"),
    (b"filters=0\n", "refused=1\n"),
    (b"filte=0\n", "refused=1\n"),
    (b"filter =0\n", "refused=1\n"),
    (b" filter=0\n", "refused=1\n"),
    (b"pin=0,0\n", "refused=1\n"),
    // a filter line without its newline
    (b"filter=0", "refused=1\n"),
    (b"filter=6", "refused=1\n"),
    (b"f", "refused=1\n"),
    // a filter of another form
    (b"filter=\nnext=9\n", "refused=1\n"),
    (b"filter=00\n", "refused=1\n"),
    (b"filter=06\nnext=9\n", "refused=1\n"),
    (b"filter=x\n", "refused=1\n"),
    (b"filter=0,1\n", "refused=1\n"),
    (b"filter=0 \n", "refused=1\n"),
    (b"filter=0\r\n", "refused=1\n"),
    (b"filter=-1\n", "refused=1\n"),
    (b"filter=+1\n", "refused=1\n"),
    (b"filter==0\n", "refused=1\n"),
    (b"filter=0=0\n", "refused=1\n"),
    (b"filter=1.0\n", "refused=1\n"),
    (b"filter=06\nfilter=0\n", "refused=1\n"),
    (b"filter=4294967296x\n", "refused=1\n"),
    // a filter above 5
    (b"filter=6\n", "refused=2\n"),
    (b"filter=6\nnext=9\n", "refused=2\n"),
    (b"filter=6\nfilter=0\nnext=9\n", "refused=2\n"),
    (b"filter=10\n", "refused=2\n"),
    (b"filter=255\n", "refused=2\n"),
    (b"filter=256\n", "refused=2\n"),
    (b"filter=257\nnext=9\n", "refused=2\n"),
    (b"filter=4294967295\n", "refused=2\n"),
    (b"filter=4294967296\nnext=9\n", "refused=2\n"),
    (b"filter=4294967297\n", "refused=2\n"),
    (b"filter=18446744073709551616\n", "refused=2\n"),
    (
        b"filter=99999999999999999999999999999999999999999\n",
        "refused=2\n",
    ),
    // a filter chosen
    (b"filter=0\n", ""),
    (
        b"filter=0\nnext=9\nnext=9\nnext=9\nnext=9\n",
        "outcome=plan\nplan=0,1\nvisits=2\noutcome=plan\nplan=1,0\nvisits=2\noutcome=plan\nplan=1,1\nvisits=1\noutcome=done\nvisits=0\n",
    ),
    (
        b"filter=1\nnext=9\nnext=9\nnext=9\nnext=9\n",
        "outcome=plan\nplan=0,1\nvisits=2\noutcome=plan\nplan=1,0\nvisits=2\noutcome=plan\nplan=1,1\nvisits=1\noutcome=done\nvisits=0\n",
    ),
    (
        b"filter=2\nnext=9\nnext=9\nnext=9\nnext=9\n",
        "outcome=plan\nplan=0,1\nvisits=2\noutcome=plan\nplan=1,0\nvisits=2\noutcome=plan\nplan=1,1\nvisits=1\noutcome=done\nvisits=0\n",
    ),
    (
        b"filter=3\nnext=9\nnext=9\nnext=9\nnext=9\n",
        "outcome=plan\nplan=0,1\nvisits=2\noutcome=plan\nplan=1,0\nvisits=2\noutcome=plan\nplan=1,1\nvisits=1\noutcome=done\nvisits=0\n",
    ),
    (
        b"filter=4\nnext=9\nnext=9\nnext=9\nnext=9\n",
        "outcome=plan\nplan=0,1\nvisits=2\noutcome=plan\nplan=1,0\nvisits=2\noutcome=plan\nplan=1,1\nvisits=1\noutcome=done\nvisits=0\n",
    ),
    (
        b"filter=5\nnext=9\nnext=9\nnext=9\nnext=9\n",
        "outcome=plan\nplan=0,1\nvisits=2\noutcome=plan\nplan=1,0\nvisits=2\noutcome=plan\nplan=1,1\nvisits=1\noutcome=done\nvisits=0\n",
    ),
];

#[test]
fn filter_lines(rt: HostRuntime) -> Result<(), Fail> {
    for (i, (commands, expected)) in FILES.iter().enumerate() {
        let text = run(rt.alloc(), TWO, commands)?;
        assert_eq!(rt; text.as_str(), *expected, "case {i}");
    }
    Ok(())
}
