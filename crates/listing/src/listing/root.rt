// The row above a session's first nodes.
ghost use Rattle.std.specs.Prelude.{◌≡◌, ◌<◌};
ghost use Rattle.listing.specs.Represents.{opened_of, pinned_of};
ghost use Rattle.network.specs.RowModel.{model};
ghost use Rattle.network.specs.Tree.{root};

use crate::listing::Listing;
use network::row::{BLOCKS, Row};

impl Listing {
    // Each block at its open mask, or at its pin alone. One empty mask empties all. The masks are set by their numbers, for the reason
    // in opened.rt.
    pub(super) fn root(&self) -> Row
        ensures { model result ≡ root (opened_of self.now) (pinned_of self.now) }
    {
        let blocks = self.blocks;
        let mut opened = [0; BLOCKS];
        let mut present = [0; BLOCKS];
        for (block, record) in self.records[..blocks].iter().enumerate() {
            opened[block] = record.opened;
            present[block] = record.mask();
        }
        if present[..blocks].contains(&0) {
            present = [0; BLOCKS];
        }
        Row::new(&opened[..blocks], &present[..blocks], 0).unwrap()
    }
}
