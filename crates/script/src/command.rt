// The lines of a command file.
ghost use Rattle.card.specs.Verdict.{cut};
ghost use Rattle.network.specs.declared.refusal.Refusal.TheVariants.{LimitExceeded};
ghost use Rattle.script.specs.Commands.{command_read, next_read, pin_read, rewind_read, value_read};
ghost use Rattle.std.specs.Prelude.{◌≡◌, ◌^◌, cond, Ok, Err, nat_lt};

use card::number::number;
use card::place::place_of;
use card::word::is_word;
use network::refusal::Refusal;

// A call that is asked for. Of a pin's numbers, those past the last block and the last slot are refused by the session.
#[derive(Clone, Copy)]
pub enum Command {
    Pin { block: u32, slot: u32 },
    Rewind,
    Next(u32),
}

// The number, if it is one of 32 bits.
fn small(n: usize) -> Result<u32, Refusal>
    ensures { result ≡ cond (nat_lt n (2 ^ 32)) (Ok n) (Err LimitExceeded) }
{
    u32::try_from(n).map_err(|_| Refusal::LimitExceeded)
}

impl Command {
    fn pin(value: &[u8]) -> Result<Command, Refusal>
        ensures { result ≡ pin_read (cut 44 value.now) }
    {
        let Some(comma) = place_of(value, b',') else {
            return Err(Refusal::Malformed);
        };
        let Some(block) = number(&value[0..comma]) else {
            return Err(Refusal::Malformed);
        };
        let Some(slot) = number(&value[comma + 1..]) else {
            return Err(Refusal::Malformed);
        };
        Ok(Command::Pin {
            block: small(block)?,
            slot: small(slot)?,
        })
    }

    fn rewind(value: &[u8]) -> Result<Command, Refusal>
        ensures { result ≡ rewind_read value.now }
    {
        if is_word(value, b"1") {
            Ok(Command::Rewind)
        } else {
            Err(Refusal::Malformed)
        }
    }

    fn next(value: &[u8]) -> Result<Command, Refusal>
        ensures { result ≡ next_read value.now }
    {
        let Some(budget) = number(value) else {
            return Err(Refusal::Malformed);
        };
        Ok(Command::Next(small(budget)?))
    }

    fn keyed(key: &[u8], value: &[u8]) -> Result<Command, Refusal>
        ensures { result ≡ value_read key.now value.now }
    {
        if is_word(key, b"pin") {
            Command::pin(value)
        } else if is_word(key, b"rewind") {
            Command::rewind(value)
        } else if is_word(key, b"next") {
            Command::next(value)
        } else {
            Err(Refusal::Malformed)
        }
    }

    // What the bytes before a newline ask for.
    pub(crate) fn read(line: &[u8]) -> Result<Command, Refusal>
        ensures { result ≡ command_read line.now }
    {
        let Some(equals) = place_of(line, b'=') else {
            return Err(Refusal::Malformed);
        };
        Command::keyed(&line[0..equals], &line[equals + 1..])
    }
}
