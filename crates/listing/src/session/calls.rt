// The calls of a session that visit no node.
ghost use Rattle.std.specs.Prelude.{◌≡◌, ◌≤◌, not, ◌||◌, List, map, OnErr, ◌==◌, nat_lt};
ghost use Rattle.listing.specs.Example.{WorkedListings};
ghost use Rattle.listing.specs.Model.{blank, open_call, pin_call, rewind_call};
ghost use Rattle.listing.specs.Records.{unpinned};
ghost use Rattle.listing.specs.Represents.{Represents, Runs, Takes, done_of};
ghost use Rattle.network.specs.Laws.{LawfulBank};
ghost use Rattle.network.specs.Sheets.{Sheet};

use crate::fits::has_misfit;
use crate::listing::Listing;
use crate::session::Session;
use network::bank::Bank;
use network::refusal::Refusal;
use network::row::BLOCKS;

// Whether a session may have so many blocks: a range of one line, of another type and limit than that of budgets.
fn is_block_count(blocks: usize) -> bool
    ensures { result ≡ not (blocks == 0 || nat_lt 32 blocks) }
{
    (1..=BLOCKS).contains(&blocks)
}

impl Session {
    // A blank session. The other clause is of worked lists of calls on one; it is kept shut, so that no caller's proof computes them again.
    pub fn blank() -> Session
        ensures stands { Represents result blank }
        ensures example { ∥ WorkedListings ∥₁ }
    {
        Session { listing: None }
    }

    // Opens a blank session over a network: the bank's sheets, and an open mask for each block.
    pub fn open<B: Bank>(&mut self, bank: &B, masks: &[u32]) -> Result<(), Refusal>
        ensures step { Takes self.old self.new (open_call (B.Bank.meaning bank.now) masks.now) (done_of result) }
        ensures runs { (m : List Sheet) → Runs m self.old self.new (open_call (B.Bank.meaning bank.now) masks.now) (done_of result) }
        ensures refused { OnErr result (self.new ≡ self.old) }
    {
        if self.listing.is_some() {
            return Err(Refusal::AlreadyOpened);
        }
        if !is_block_count(masks.len()) {
            return Err(Refusal::LimitExceeded);
        }
        if has_misfit(bank, masks.len()) {
            return Err(Refusal::OutOfRange);
        }
        self.listing = Some(Listing::new(masks));
        Ok(())
    }

    // Pins a block at one of its open slots. The listing starts over.
    pub fn pin(&mut self, block: u8, slot: u8) -> Result<(), Refusal>
        ensures step { Takes self.old self.new (pin_call block slot) (done_of result) }
        ensures runs { (m : List Sheet) → LawfulBank m → Runs m self.old self.new (pin_call block slot) (done_of result) }
        ensures refused { OnErr result (self.new ≡ self.old) }
    {
        let Some(listing) = &mut self.listing else {
            return Err(Refusal::NotOpened);
        };
        listing.pin(block as usize, slot)
    }

    // Starts the listing over, with its pins.
    pub fn rewind(&mut self) -> Result<(), Refusal>
        ensures step { Takes self.old self.new rewind_call (done_of result) }
        ensures runs { (m : List Sheet) → Runs m self.old self.new rewind_call (done_of result) }
        ensures refused { OnErr result (self.new ≡ self.old) }
    {
        let Some(listing) = &mut self.listing else {
            return Err(Refusal::NotOpened);
        };
        listing.depth = 0;
        Ok(())
    }
}
