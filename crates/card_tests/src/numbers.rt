// Numbers of 1 to 40 digits: a mask or a count past its limit is refused for that, and a slot for its range, at any length.
use crate::room::answer;
use card::refusal::CardRefusal;
use card::sizes::Sizes;
use network::refusal::Refusal;
use std::alloc::Global;
use std::test::Fail;

// A card with a number of so many nines in its second line, or in its eighth.
fn mask_of_nines(alloc: Global, digits: usize) -> Result<Vec<u8>, Fail> {
    let mut card = Vec::new(alloc);
    card.extend_from_slice(b"blocks=1\nopen=")?;
    for _ in 0..digits {
        card.push(b'9')?;
    }
    card.extend_from_slice(b"\nsheets=0\nrules=0\nend=net\n")?;
    Ok(card)
}

fn slot_of_nines(alloc: Global, digits: usize) -> Result<Vec<u8>, Fail> {
    let mut card = Vec::new(alloc);
    card.extend_from_slice(
        b"blocks=2\nopen=1\nopen=1\nsheets=1\nkind=allow\nscope=0,1\nrows=1\nrow=0,",
    )?;
    for _ in 0..digits {
        card.push(b'9')?;
    }
    card.extend_from_slice(b"\nrules=0\nend=net\n")?;
    Ok(card)
}

#[test]
fn nines(rt: HostRuntime) -> Result<(), Fail> {
    for digits in 1..41 {
        let mask = answer(&mask_of_nines(rt.alloc(), digits)?);
        let slot = answer(&slot_of_nines(rt.alloc(), digits)?);
        if digits < 10 {
            assert!(rt; mask.is_ok(), "a mask of {digits} digits");
        } else {
            let refusal = Refusal::LimitExceeded;
            assert!(rt;
                mask == Err(CardRefusal { refusal, line: 2 }),
                "a mask of {digits} digits"
            );
        }
        if digits < 2 {
            assert!(rt; slot.is_ok(), "a slot of {digits} digits");
        } else {
            let refusal = Refusal::OutOfRange;
            assert!(rt;
                slot == Err(CardRefusal { refusal, line: 8 }),
                "a slot of {digits} digits"
            );
        }
    }
    Ok(())
}
