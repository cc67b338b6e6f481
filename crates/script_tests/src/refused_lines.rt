// Lines that are refused: each prints its number alone, and the listing goes on where it was.
use crate::cards::TWO;
use script::run::run;
use std::fmt::Write;
use std::test::Fail;

const LINES: &[(&[u8], u8)] = &[
    // a line of another form
    (b"\n", 1),
    (b"x\n", 1),
    (b"pin\n", 1),
    (b"next\n", 1),
    (b"rewind\n", 1),
    (b"=\n", 1),
    (b"=1\n", 1),
    (b" \n", 1),
    (b"next =1\n", 1),
    (b" next=1\n", 1),
    (b"Next=1\n", 1),
    (b"nex=1\n", 1),
    (b"nextt=1\n", 1),
    (b"open=3\n", 1),
    (b"plan=0,1\n", 1),
    (b"end=net\n", 1),
    (b"next:1\n", 1),
    (b"\xff\n", 1),
    (b"\0\n", 1),
    // a second filter line
    (b"filter=0\n", 1),
    (b"filter=1\n", 1),
    (b"filter=6\n", 1),
    (b"filter=\n", 1),
    // a pin of another form
    (b"pin=\n", 1),
    (b"pin=0\n", 1),
    (b"pin=,\n", 1),
    (b"pin=0,\n", 1),
    (b"pin=,0\n", 1),
    (b"pin=0,0,0\n", 1),
    (b"pin=0,0,\n", 1),
    (b"pin=0,,0\n", 1),
    (b"pin=0,x\n", 1),
    (b"pin=x,0\n", 1),
    (b"pin=0;0\n", 1),
    (b"pin=00,0\n", 1),
    (b"pin=0,01\n", 1),
    (b"pin=0, 0\n", 1),
    (b"pin= 0,0\n", 1),
    (b"pin=-1,0\n", 1),
    (b"pin=0,+1\n", 1),
    (b"pin=0=0\n", 1),
    (b"pin==0,0\n", 1),
    (b"pin=0,0\r\n", 1),
    (b"pin=0,0\0\n", 1),
    // a rewind of another form
    (b"rewind=\n", 1),
    (b"rewind=0\n", 1),
    (b"rewind=2\n", 1),
    (b"rewind=01\n", 1),
    (b"rewind=11\n", 1),
    (b"rewind=1,1\n", 1),
    (b"rewind=1 \n", 1),
    (b"rewind==1\n", 1),
    (b"rewind=4294967296\n", 1),
    // a next of another form
    (b"next=\n", 1),
    (b"next=01\n", 1),
    (b"next=00\n", 1),
    (b"next=+1\n", 1),
    (b"next=-1\n", 1),
    (b"next=1,1\n", 1),
    (b"next=1 \n", 1),
    (b"next=x\n", 1),
    (b"next=0x1\n", 1),
    (b"next=1\r\n", 1),
    (b"next==1\n", 1),
    // a number above 4,294,967,295
    (b"pin=4294967296,0\n", 2),
    (b"pin=0,4294967296\n", 2),
    (b"pin=4294967296,4294967296\n", 2),
    (b"pin=18446744073709551616,0\n", 2),
    (b"pin=0,99999999999999999999999999999999999999999\n", 2),
    (b"next=4294967296\n", 2),
    (b"next=4294967297\n", 2),
    (b"next=18446744073709551616\n", 2),
    (b"next=18446744073709551617\n", 2),
    (b"next=99999999999999999999999999999999999999999\n", 2),
    // the form of the whole line before a number above that
    (b"pin=4294967296,x\n", 1),
    (b"pin=x,4294967296\n", 1),
    (b"pin=4294967296\n", 1),
    (b"pin=4294967296,00\n", 1),
    (b"pin=0,0,4294967296\n", 1),
    (b"next=4294967296,0\n", 1),
    (b"next=04294967296\n", 1),
    // that before the range
    (b"pin=2,4294967296\n", 2),
    (b"pin=4294967296,2\n", 2),
    // a block that is not there, a slot above 31 or one that is not open
    (b"pin=2,0\n", 7),
    (b"pin=3,1\n", 7),
    (b"pin=31,0\n", 7),
    (b"pin=32,0\n", 7),
    (b"pin=255,0\n", 7),
    (b"pin=256,0\n", 7),
    (b"pin=257,1\n", 7),
    (b"pin=4294967295,0\n", 7),
    (b"pin=0,2\n", 7),
    (b"pin=1,31\n", 7),
    (b"pin=0,32\n", 7),
    (b"pin=0,33\n", 7),
    (b"pin=0,255\n", 7),
    (b"pin=0,256\n", 7),
    (b"pin=1,257\n", 7),
    (b"pin=0,4294967295\n", 7),
    (b"pin=256,256\n", 7),
    // a budget of 0 or above 1,000,000
    (b"next=0\n", 9),
    (b"next=1000001\n", 9),
    (b"next=16777217\n", 9),
    (b"next=4294967295\n", 9),
];

#[test]
fn refused_lines(rt: HostRuntime) -> Result<(), Fail> {
    for (i, (line, number)) in LINES.iter().enumerate() {
        let mut commands = Vec::new(rt.alloc());
        commands.extend_from_slice(b"filter=0\nnext=2\n")?;
        commands.extend_from_slice(line)?;
        commands.extend_from_slice(b"next=1\n")?;
        let mut expected = String::new(rt.alloc());
        write!(
            expected,
            "outcome=plan\nplan=0,1\nvisits=2\nrefused={number}\noutcome=spent\nvisits=1\n"
        )?;
        let text = run(rt.alloc(), TWO, &commands)?;
        assert_eq!(rt; text, expected, "case {i}");
    }
    Ok(())
}
