// The sheets that a filter looks at.
ghost use Rattle.filters.specs.Sets.{picks_of};
ghost use Rattle.network.specs.RowModel.{model};
ghost use Rattle.network.specs.Sheets.{sheet_at};
ghost use Rattle.std.specs.Prelude.{◌≡◌};

use network::bank::Bank;
use network::row::Row;

#[derive(Clone, Copy)]
pub enum SheetSet {
    // naming the current block and exactly one undecided block
    CurrentOne,
    // naming the current block and at least one undecided block
    CurrentFuture,
    // naming at least one decided and at least one undecided block
    PastFuture,
}

impl SheetSet {
    // Whether sheet `c` is in the set at this row. A sheet that names a block not in the row is passed over.
    pub fn picks<B: Bank>(self, bank: &B, c: usize, row: &Row) -> bool
        ensures { result ≡ picks_of self (model row.now) (sheet_at (B.Bank.meaning bank.now) c) }
    {
        let mut current = false;
        let mut past = false;
        let mut future: usize = 0;
        // By number, as a bank is asked.
        for p in 0..bank.arity(c) {
            let block = bank.block(c, p) as usize;
            if block >= row.blocks() {
                return false;
            }
            if block >= row.decided() {
                future += 1;
            } else {
                past = true;
                current = current || block + 1 == row.decided();
            }
        }
        match self {
            SheetSet::CurrentOne => current && future == 1,
            SheetSet::CurrentFuture => current && future > 0,
            SheetSet::PastFuture => past && future > 0,
        }
    }
}
