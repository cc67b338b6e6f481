// The tests of a sheet's scope that tables and rules share.
ghost use Rattle.std.specs.Prelude.{◌≡◌, ◌≤◌, nat_eq, nat_lt};
ghost use Rattle.banks.specs.Verdicts.{first_blocks};
ghost use Rattle.network.specs.Sheets.{is_distinct, some_pass};
ghost use Rattle.std.specs.List.{list_all};

use network::mask::SLOTS;

pub const MAX_SHEETS: usize = 1024;

pub const MIN_ARITY: u8 = 2;

pub const MAX_ARITY: u8 = 6;

// Stands for a block that isn't there, as the trait of banks has it.
pub const NO_BLOCK: u8 = 255;

// Whether each number is below 32, as those of slots and blocks are. Crate card has the like with the limit as an argument: one line each.
pub fn all_in_range(numbers: &[u8]) -> bool
    ensures { result ≡ list_all (λ x. nat_lt x 32) numbers.now }
{
    numbers.iter().all(|x| *x < SLOTS)
}

// Whether `x` is among the numbers.
fn holds(numbers: &[u8], x: u8) -> bool
    ensures { result ≡ some_pass (nat_eq x) numbers.now }
{
    for y in numbers {
        if x == *y {
            return true;
        }
    }
    false
}

// Whether no number stands twice, for more numbers than a scope has. In a function of its own, so that the test of a scope stays short.
#[inline(never)]
fn many_distinct(numbers: &[u8]) -> bool
    ensures { result ≡ is_distinct nat_eq numbers.now }
{
    let mut rest = numbers;
    while let [x, after @ ..] = rest {
        if after.contains(x) {
            return false;
        }
        rest = after;
    }
    true
}

// So many numbers are looked at one after the other in less time than the library's search takes.
const FEW: usize = 12;

// Whether no number stands twice. Few numbers by index: with slice patterns and `contains`, or `any`, the check of records takes half as
// long again.
pub fn all_distinct(numbers: &[u8]) -> bool
    ensures { result ≡ is_distinct nat_eq numbers.now }
{
    if numbers.len() > FEW {
        return many_distinct(numbers);
    }
    for i in 0..numbers.len() {
        if holds(&numbers[i + 1..], numbers[i]) {
            return false;
        }
    }
    true
}

// The blocks that a scope of that arity has: the others are not looked at.
pub(crate) fn scope_of(arity: u8, blocks: &[u8; 6]) -> &[u8]
    requires { arity ≤ 6 }
    ensures { result.now ≡ first_blocks arity blocks.now }
{
    &blocks[0..arity as usize]
}
