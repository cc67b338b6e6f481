// The checks of a line's value: its form, its limits, its range, its repetitions.
ghost use Rattle.std.specs.Prelude.{◌≡◌, ◌^◌, ◌<◌, ◌≤◌, nat_lt};
ghost use Rattle.card.specs.Checks.{number_checked, scope_checked, tuple_checked};
ghost use Rattle.network.specs.Tree.{precedes};
ghost use Rattle.std.specs.List.{list_all};

use crate::list::NumberList;
use crate::number::number;
use banks::all_distinct;
use network::mask::SLOTS;
use network::refusal::Refusal;

// The limits of a scope, which in a record are bytes: here they are compared with a count.
const MIN_ARITY: usize = 2;

const MAX_ARITY: usize = 6;

pub(crate) fn number_in(value: &[u8], least: usize, most: usize) -> Result<usize, Refusal>
    requires { most < 2 ^ 32 }
    ensures { result ≡ number_checked least most value.now }
{
    let Some(n) = number(value) else {
        return Err(Refusal::Malformed);
    };
    if n < least || n > most {
        return Err(Refusal::LimitExceeded);
    }
    Ok(n)
}

fn all_below(numbers: &[u8], limit: usize) -> bool
    ensures { result ≡ list_all (λ x. nat_lt x limit) numbers.now }
{
    numbers.iter().all(|x| (*x as usize) < limit)
}

pub(crate) fn scope_in(value: &[u8], blocks: usize) -> Result<NumberList, Refusal>
    requires { blocks ≤ 32 }
    ensures { result ≡ scope_checked blocks value.now }
{
    let Some(list) = NumberList::read(value) else {
        return Err(Refusal::Malformed);
    };
    if list.count < MIN_ARITY || list.count > MAX_ARITY {
        return Err(Refusal::LimitExceeded);
    }
    let scope = &list.numbers[0..list.count];
    if !all_below(scope, blocks) {
        return Err(Refusal::OutOfRange);
    }
    if !all_distinct(scope) {
        return Err(Refusal::Repeated);
    }
    Ok(list)
}

// Whether the first list comes before the second, by the first place where they differ.
#[tactic(auto, using(banks::proofs::Less::less_is))]
fn comes_before(a: &[u8], b: &[u8]) -> bool
    ensures { result ≡ precedes a.now b.now }
{
    a < b
}

// A slot for each block of a scope, in a tuple above the last one.
pub(crate) fn tuple_in(value: &[u8], arity: usize, last: &[u8]) -> Result<NumberList, Refusal>
    requires { arity ≤ 6 }
    ensures { result ≡ tuple_checked arity last.now value.now }
{
    let Some(list) = NumberList::read(value) else {
        return Err(Refusal::Malformed);
    };
    if list.count != arity {
        return Err(Refusal::Malformed);
    }
    let tuple = &list.numbers[0..arity];
    if !all_below(tuple, SLOTS as usize) {
        return Err(Refusal::OutOfRange);
    }
    if !comes_before(last, tuple) {
        return Err(Refusal::Repeated);
    }
    Ok(list)
}
