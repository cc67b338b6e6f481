// How a command file begins: its length, and the line that chooses the filter.
ghost use Rattle.script.specs.Commands.{filter_numbered, filter_read};
ghost use Rattle.script.specs.Serving.{Begins};
ghost use Rattle.std.specs.Prelude.{◌≡◌, ◌≤◌, cond, Ok, Err, nat_le};
ghost use Rattle.network.specs.declared.refusal.Refusal.TheVariants.{LimitExceeded};

use crate::lines::first_line;
use card::number::number;
use card::place::place_of;
use card::word::is_word;
use filters::nfc::Nfc;
use network::refusal::Refusal;

const MAX_BYTES: usize = 4096;

// The filter of a number from 0 to 5.
fn numbered(n: usize) -> Result<Nfc, Refusal>
    ensures { result ≡ cond (nat_le n 5) (Ok (filter_numbered n)) (Err LimitExceeded) }
{
    Nfc::try_from(u8::try_from(n).map_err(|_| Refusal::LimitExceeded)?)
}

// The filter that a line chooses.
fn filter_in(line: &[u8]) -> Result<Nfc, Refusal>
    ensures { result ≡ filter_read line.now }
{
    let Some(equals) = place_of(line, b'=') else {
        return Err(Refusal::Malformed);
    };
    if !is_word(&line[0..equals], b"filter") {
        return Err(Refusal::Malformed);
    }
    let Some(n) = number(&line[equals + 1..]) else {
        return Err(Refusal::Malformed);
    };
    numbered(n)
}

// The filter, and the commands that come after its line.
pub(crate) fn begin(commands: &[u8]) -> Result<(Nfc, &[u8]), Refusal>
    ensures { Begins commands.now result }
{
    if commands.len() > MAX_BYTES {
        return Err(Refusal::LimitExceeded);
    }
    let Some((first, rest)) = first_line(commands) else {
        return Err(Refusal::Malformed);
    };
    Ok((filter_in(first)?, rest))
}
