// Narrowing a row on one sheet.
ghost use Rattle.std.specs.Prelude.{◌≡◌, ◌<◌, false, ◌&&◌};
ghost use Rattle.filters.specs.Effects.{Told};
ghost use Rattle.filters.specs.Readings.{step_by};
ghost use Rattle.network.specs.RowModel.{model};
ghost use Rattle.network.specs.Rows.{passed_over, undecided_in};
ghost use Rattle.network.specs.Sheets.{has, mask_of, sheet_at, supported};

use crate::effect::Effect;
use crate::reading::Reading;
use network::bank::Bank;
use network::mask::{single, slots_of};
use network::row::Row;

// The slots of the mask that have a support at position `p` of sheet `c`.
fn supported_slots<B: Bank>(bank: &B, c: usize, masks: &[u32; 6], p: usize, mask: u32) -> u32
    ensures { result ≡ mask_of (λ s. has mask s && supported (sheet_at (B.Bank.meaning bank.now) c) masks.now p s) }
{
    let mut left = 0;
    for slot in slots_of(mask) {
        if bank.supports(c, masks, p, slot) {
            left |= single(slot);
        }
    }
    left
}

// Narrows the row on sheet `c`. Only undecided blocks are asked: where each keeps a slot, a tuple supports the decided slots too.
pub(crate) fn narrow<B: Bank>(bank: &B, c: usize, reading: Reading, row: &mut Row) -> Effect
    requires inside { passed_over (model row.old) (sheet_at (B.Bank.meaning bank.now) c) ≡ false }
    requires future { 0 < undecided_in (model row.old) (sheet_at (B.Bank.meaning bank.now) c) }
    ensures row { model row.new ≡ step_by reading (model row.old) (sheet_at (B.Bank.meaning bank.now) c) }
    ensures told { Told result (model row.old) (model row.new) }
{
    let masks = reading.masks(bank, c, row);
    let mut effect = Effect::Unchanged;
    // By number, as a bank is asked.
    for p in 0..bank.arity(c) {
        let block = bank.block(c, p) as usize;
        if block < row.decided() {
            continue;
        }
        let mask = row.present_mask(block);
        let left = supported_slots(bank, c, &masks, p, mask);
        if left != mask {
            row.keep(block, left);
            if left == 0 {
                return Effect::Died;
            }
            effect = Effect::Narrowed;
        }
    }
    effect
}
