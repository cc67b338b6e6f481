// A filter: what it leaves of a row, given a bank's sheets.
ghost use Rattle.network.specs.Filters.{Filtering};
ghost use Rattle.network.specs.Laws.{LawfulFilter};
ghost use Rattle.network.specs.RowModel.{model};
ghost use Rattle.std.specs.Prelude.{◌≡◌};

use crate::bank::Bank;
use crate::row::Row;

pub trait Filter {
    ghost filtered: { Self → Filtering };

    ghost lawful: { (f : Self) → LawfulFilter (filtered f) };

    // Turns the row into the filter's one.
    fn apply<B: Bank>(&mut self, bank: &B, row: &mut Row)
        ensures row { model row.new ≡ filtered self.old (B.Bank.meaning bank.now) (model row.old) }
        ensures meaning { filtered self.new ≡ filtered self.old };
}
