// What a session keeps of a block.
ghost use Rattle.listing.specs.Records.{pinned_at, record_mask, unpinned};
ghost use Rattle.std.specs.Prelude.{◌≡◌};

use network::mask::single;

#[derive(Clone, Copy)]
pub struct BlockRecord {
    pub opened: u32,
    pub pin: Option<u8>,
}

impl BlockRecord {
    // The record of a block with no pin.
    pub fn new(opened: u32) -> BlockRecord
        ensures { result ≡ unpinned opened }
    {
        BlockRecord { opened, pin: None }
    }

    // The slots that the block may take: its open ones, or its pin alone.
    pub fn mask(&self) -> u32
        ensures { result ≡ record_mask self.now }
    {
        self.pin.map_or(self.opened, single)
    }

    // Sets the pin, by a call on the one record (docs/DECISIONS.md, Forms). The open mask stays as it is.
    pub fn pin_at(&mut self, slot: u8)
        ensures { self.new ≡ pinned_at self.old slot }
    {
        self.pin = Some(slot);
    }
}
