// Each kind of fault on a small card, with the refusal and the line: the first faulty line decides, so the cards end with it.
use crate::room::answer;
use card::refusal::CardRefusal;
use network::refusal::Refusal;
use network::refusal::Refusal::{LimitExceeded, Malformed, OutOfRange, Repeated};
use std::test::Fail;

const TWO: &[u8] = b"blocks=2\nopen=3\nopen=3\n";

const DENY: &[u8] = b"blocks=2\nopen=3\nopen=3\nsheets=1\nkind=deny\n";

const SCOPED: &[u8] = b"blocks=2\nopen=3\nopen=3\nsheets=1\nkind=deny\nscope=0,1\n";

const TUPLES: &[u8] = b"blocks=2\nopen=3\nopen=3\nsheets=1\nkind=deny\nscope=0,1\nrows=2\n";

const RULE: &[u8] = b"blocks=2\nopen=3\nopen=3\nsheets=0\nrules=1\n";

const SEVEN: &[u8] =
    b"blocks=7\nopen=1\nopen=1\nopen=1\nopen=1\nopen=1\nopen=1\nopen=1\nsheets=1\nkind=allow\n";

// How the card begins, how it goes on, and what it is answered.
#[derive(Clone, Copy)]
struct Case(&'static [u8], &'static [u8], Refusal, usize);

const CASES: [Case; 84] = [
    // no line, a line without its newline, without its equals sign or with another byte in it
    Case(b"", b"", Malformed, 1),
    Case(b"", b"blocks=2", Malformed, 1),
    Case(b"", b"blocks\n", Malformed, 1),
    Case(b"", b"\n", Malformed, 1),
    Case(b"", b"blocks=2\r\n", Malformed, 1),
    Case(b"", b"blocks=2\0\n", Malformed, 1),
    Case(b"", b"blocks=\xb2\n", Malformed, 1),
    Case(b"", b"blocks =2\n", Malformed, 1),
    Case(b"", b"blocks= 2\n", Malformed, 1),
    Case(b"", b"blocks=2=\n", Malformed, 1),
    Case(b"", b"=2\n", Malformed, 1),
    Case(b"", b"Blocks=2\n", Malformed, 1),
    Case(b"", b"block=2\n", Malformed, 1),
    Case(b"", b"open=3\n", Malformed, 1),
    // a number of another form
    Case(b"", b"blocks=\n", Malformed, 1),
    Case(b"", b"blocks=02\n", Malformed, 1),
    Case(b"", b"blocks=00\n", Malformed, 1),
    Case(b"", b"blocks=+2\n", Malformed, 1),
    Case(b"", b"blocks=-1\n", Malformed, 1),
    Case(b"", b"blocks=2,\n", Malformed, 1),
    Case(b"", b"blocks=0x2\n", Malformed, 1),
    Case(TWO, b"sheets=01\n", Malformed, 4),
    // a card that ends early, or goes on
    Case(b"", b"blocks=2\n", Malformed, 2),
    Case(b"", b"blocks=2\nopen=3\n", Malformed, 3),
    Case(TWO, b"", Malformed, 4),
    Case(TWO, b"sheets=0\nrules=0\n", Malformed, 6),
    Case(TWO, b"sheets=0\nrules=0\nend=net", Malformed, 6),
    Case(TWO, b"sheets=0\nrules=0\nend=net\n\n", Malformed, 7),
    Case(TWO, b"sheets=0\nrules=0\nend=net\nx", Malformed, 7),
    Case(TWO, b"sheets=0\nrules=0\nend=net\nend=net\n", Malformed, 7),
    // a line where another is due
    Case(b"", b"blocks=2\nopen=3\nsheets=0\n", Malformed, 3),
    Case(TWO, b"open=3\n", Malformed, 4),
    Case(DENY, b"rows=1\n", Malformed, 6),
    Case(SCOPED, b"row=0,0\n", Malformed, 7),
    Case(TUPLES, b"rules=0\n", Malformed, 8),
    Case(SCOPED, b"rows=0\nrow=0,0\n", Malformed, 8),
    Case(RULE, b"scope=0,1\n", Malformed, 6),
    Case(RULE, b"rule=alldiff\nend=net\n", Malformed, 7),
    // another word
    Case(TWO, b"sheets=1\nkind=Deny\n", Malformed, 5),
    Case(TWO, b"sheets=1\nkind=den\n", Malformed, 5),
    Case(TWO, b"sheets=1\nkind=denyx\n", Malformed, 5),
    Case(TWO, b"sheets=1\nkind=notequal\n", Malformed, 5),
    Case(RULE, b"rule=allow\n", Malformed, 6),
    Case(RULE, b"rule=alldif\n", Malformed, 6),
    Case(TWO, b"sheets=0\nrules=0\nend=nets\n", Malformed, 6),
    // a list of another form, or of another length than its scope
    Case(DENY, b"scope=\n", Malformed, 6),
    Case(DENY, b"scope=,0\n", Malformed, 6),
    Case(DENY, b"scope=0,\n", Malformed, 6),
    Case(DENY, b"scope=0,,1\n", Malformed, 6),
    Case(DENY, b"scope=0;1\n", Malformed, 6),
    Case(DENY, b"scope=00,1\n", Malformed, 6),
    Case(TUPLES, b"row=\n", Malformed, 8),
    Case(TUPLES, b"row=0\n", Malformed, 8),
    Case(TUPLES, b"row=0,0,0\n", Malformed, 8),
    Case(TUPLES, b"row=0,00\n", Malformed, 8),
    // past a limit
    Case(b"", b"blocks=0\n", LimitExceeded, 1),
    Case(b"", b"blocks=33\n", LimitExceeded, 1),
    Case(b"", b"blocks=1\nopen=4294967296\n", LimitExceeded, 2),
    Case(TWO, b"sheets=33\n", LimitExceeded, 4),
    Case(SCOPED, b"rows=4097\n", LimitExceeded, 7),
    Case(SCOPED, b"rows=4096\n", Malformed, 8),
    Case(TWO, b"sheets=0\nrules=193\n", LimitExceeded, 5),
    Case(DENY, b"scope=0\n", LimitExceeded, 6),
    Case(SEVEN, b"scope=0,1,2,3,4,5,6\n", LimitExceeded, 11),
    // the tuples of all tables, at the line that passes the limit
    Case(
        TWO,
        b"sheets=2\nkind=deny\nscope=0,1\nrows=1\nrow=0,0\nkind=deny\nscope=1,0\nrows=4096\n",
        LimitExceeded,
        11,
    ),
    Case(
        TWO,
        b"sheets=2\nkind=deny\nscope=0,1\nrows=1\nrow=0,0\nkind=deny\nscope=1,0\nrows=4095\n",
        Malformed,
        12,
    ),
    // a block or a slot that is not there
    Case(DENY, b"scope=0,2\n", OutOfRange, 6),
    Case(DENY, b"scope=2,0\n", OutOfRange, 6),
    Case(
        RULE,
        b"rule=alldiff\nscope=0,99999999999999999999\n",
        OutOfRange,
        7,
    ),
    Case(TUPLES, b"row=0,32\n", OutOfRange, 8),
    Case(TUPLES, b"row=18446744073709551616,0\n", OutOfRange, 8),
    // a block twice, tuples that do not ascend
    Case(DENY, b"scope=0,0\n", Repeated, 6),
    Case(RULE, b"rule=notequal\nscope=1,0,1\n", Repeated, 7),
    Case(TUPLES, b"row=1,0\nrow=1,0\n", Repeated, 9),
    Case(TUPLES, b"row=1,0\nrow=0,9\n", Repeated, 9),
    Case(TUPLES, b"row=10,0\nrow=9,0\n", Repeated, 9),
    // the form of the whole line before its limits, these before the range, and that before repetition and order
    Case(DENY, b"scope=99,00\n", Malformed, 6),
    Case(DENY, b"scope=99\n", LimitExceeded, 6),
    Case(DENY, b"scope=0,0,99\n", OutOfRange, 6),
    Case(DENY, b"scope=0,0,0,0,0,0,0\n", LimitExceeded, 6),
    Case(DENY, b"scope=0,0,0,0,0,0,x\n", Malformed, 6),
    Case(TUPLES, b"row=99,1,2\n", Malformed, 8),
    Case(TUPLES, b"row=99,x\n", Malformed, 8),
    Case(TUPLES, b"row=5,5\nrow=4,32\n", OutOfRange, 9),
];

#[test]
fn first_faulty_line(rt: HostRuntime) -> Result<(), Fail> {
    for (i, case) in CASES.iter().enumerate() {
        let Case(begins, ends, refusal, line) = *case;
        let mut card = Vec::new(rt.alloc());
        card.extend_from_slice(begins)?;
        card.extend_from_slice(ends)?;
        if answer(&card) != Err(CardRefusal { refusal, line }) {
            assert_eq!(rt; i, CASES.len(), "the number of the case, from 0");
            return Ok(());
        }
    }
    Ok(())
}
