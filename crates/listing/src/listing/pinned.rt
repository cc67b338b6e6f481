// How a block of a listing is pinned.
ghost use Rattle.std.specs.Prelude.{◌≡◌, OnErr};
ghost use Rattle.listing.specs.Model.{pin_call};
ghost use Rattle.listing.specs.Represents.{Leads, done_of};

use crate::listing::Listing;
use network::mask::has_slot;
use network::refusal::Refusal;

impl Listing {
    // Pins a block at one of its open slots, and starts over.
    pub(crate) fn pin(&mut self, block: usize, slot: u8) -> Result<(), Refusal>
        ensures step { Leads self.old self.new (pin_call block slot) (done_of result) }
        ensures refused { OnErr result (self.new ≡ self.old) }
    {
        if block >= self.blocks {
            return Err(Refusal::OutOfRange);
        }
        let record = self.records[block];
        if !has_slot(record.opened, slot) {
            return Err(Refusal::OutOfRange);
        }
        if record.pin.is_some() {
            return Err(Refusal::AlreadyPinned);
        }
        self.records[block].pin_at(slot);
        self.depth = 0;
        Ok(())
    }
}
