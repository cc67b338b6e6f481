// The masks with which a sheet is asked for supports.
ghost use Rattle.filters.specs.Readings.{mask_by};
ghost use Rattle.network.specs.RowModel.{model};
ghost use Rattle.network.specs.Sheets.{sheet_at};
ghost use Rattle.std.specs.Prelude.{◌≡◌, map, length, take};

use network::bank::Bank;
use network::row::Row;

#[derive(Clone, Copy)]
pub enum Reading {
    // every block at its present mask
    Present,
    // decided blocks at their present masks, the others at their open ones
    Open,
}

impl Reading {
    // The mask of one block.
    fn mask(self, row: &Row, block: usize) -> u32
        ensures { result ≡ mask_by self (model row.now) block }
    {
        match self {
            Reading::Present => row.present_mask(block),
            Reading::Open => {
                if block < row.decided() {
                    row.present_mask(block)
                } else {
                    row.open_mask(block)
                }
            }
        }
    }

    // The masks of the blocks of sheet `c`, in the scope's order.
    pub fn masks<B: Bank>(self, bank: &B, c: usize, row: &Row) -> [u32; 6]
        ensures { take (length (sheet_at (B.Bank.meaning bank.now) c).scope) result ≡ map (mask_by self (model row.now)) (sheet_at (B.Bank.meaning bank.now) c).scope }
    {
        let mut masks = [0; 6];
        // By number: a bank is asked by position, and has no slice of blocks to go over.
        for p in 0..bank.arity(c) {
            masks[p] = self.mask(row, bank.block(c, p) as usize);
        }
        masks
    }
}
