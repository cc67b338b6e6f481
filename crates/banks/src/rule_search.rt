// Whether masks have a choice of one slot each that a rule allows.
ghost use Rattle.std.specs.Prelude.{◌≡◌, ◌^◌, not, if◌then◌else◌, ◌==◌, bit_or, nat_lt};
ghost use Rattle.banks.specs.Rules.{Alone, all_same, free};
ghost use Rattle.network.specs.Sheets.{choices, some_pass};
ghost use Rattle.std.specs.List.{list_all, list_any};

use network::mask::{has_slot, single, slots_of};

// Whether each mask has a slot. This test and the next stand alone: inside their caller the chains left goals that did not close.
fn all_filled(masks: &[u32]) -> bool
    ensures { result ≡ list_all (λ m. not (m == 0)) masks.now }
{
    masks.iter().all(|mask| *mask != 0)
}

// Whether some mask is another one.
fn some_other(masks: &[u32], one: u32) -> bool
    ensures { result ≡ list_any (λ m. not (m == one)) masks.now }
{
    masks.iter().any(|mask| *mask != one)
}

// Whether slots that are not all the same can be chosen, where position `p` has one slot alone.
pub(crate) fn some_unequal(masks: &[u32], p: usize) -> bool
    requires { Alone masks.now p }
    ensures { result ≡ some_pass (λ t. not (all_same t)) (choices masks.now) }
{
    all_filled(masks) && some_other(masks, masks[p])
}

// The slots of `used`, and slot `s`.
fn with_slot(used: u32, s: u8) -> u32
    ensures { result ≡ bit_or used (if nat_lt s 32 then 2 ^ s else 0) }
{
    used | single(s)
}

// Whether slots that all differ, and are none of `used`, can be chosen from the masks. A recursion (docs/DECISIONS.md, Forms).
pub(crate) fn some_distinct(masks: &[u32], used: u32) -> bool
    ensures { result ≡ some_pass (free used) (choices masks.now) }
{
    let [mask, rest @ ..] = masks else {
        return true;
    };
    for s in slots_of(*mask) {
        if !has_slot(used, s) && some_distinct(rest, with_slot(used, s)) {
            return true;
        }
    }
    false
}
