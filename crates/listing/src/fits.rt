// Whether a bank's sheets name only blocks that there are.
ghost use Rattle.network.specs.Sheets.{sheet_at, some_pass};
ghost use Rattle.std.specs.Prelude.{◌≡◌, nat_le};
ghost use Rattle.listing.specs.Model.{misfits};

use network::bank::Bank;

// Whether sheet `c` names a block that is not below `blocks`.
fn reaches_past<B: Bank>(bank: &B, c: usize, blocks: usize) -> bool
    ensures { result ≡ some_pass (λ b. nat_le blocks b) (sheet_at (B.Bank.meaning bank.now) c).scope }
{
    (0..bank.arity(c)).any(|p| bank.block(c, p) as usize >= blocks)
}

// Whether some sheet does.
pub fn has_misfit<B: Bank>(bank: &B, blocks: usize) -> bool
    ensures { result ≡ misfits blocks (B.Bank.meaning bank.now) }
{
    (0..bank.count()).any(|c| reaches_past(bank, c, blocks))
}
