// Passes over a set of sheets, by ascending sheet number.
ghost use Rattle.filters.specs.Effects.{Told};
ghost use Rattle.filters.specs.Readings.{step_by};
ghost use Rattle.filters.specs.Sets.{picks_of};
ghost use Rattle.network.specs.Filters.{pass, stabilized};
ghost use Rattle.network.specs.RowModel.{model};
ghost use Rattle.std.specs.Prelude.{◌≡◌};

use crate::effect::Effect;
use crate::narrowing::narrow;
use crate::reading::Reading;
use crate::sheet_set::SheetSet;
use network::bank::Bank;
use network::row::Row;

// One pass, which ends as soon as the row is dead.
pub fn pass<B: Bank>(set: SheetSet, reading: Reading, bank: &B, row: &mut Row) -> Effect
    ensures row { model row.new ≡ pass (step_by reading) (picks_of set) (B.Bank.meaning bank.now) (model row.old) }
    ensures told { Told result (model row.old) (model row.new) }
{
    let mut effect = Effect::Unchanged;
    // By number, as a bank is asked.
    for c in 0..bank.count() {
        if !set.picks(bank, c, row) {
            continue;
        }
        match narrow(bank, c, reading, row) {
            Effect::Unchanged => {}
            Effect::Narrowed => effect = Effect::Narrowed,
            Effect::Died => return Effect::Died,
        }
    }
    effect
}

// Passes until one takes no slot.
pub fn stabilize<B: Bank>(set: SheetSet, bank: &B, row: &mut Row)
    ensures { model row.new ≡ stabilized (picks_of set) (B.Bank.meaning bank.now) (model row.old) }
{
    while let Effect::Narrowed = pass(set, Reading::Present, bank, row) {}
}
