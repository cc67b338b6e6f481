// An opened session: its blocks with their records, and the node that was visited last.
ghost use Rattle.std.specs.Prelude.{◌≡◌, ◌≤◌, length, take};
ghost use Rattle.listing.specs.Records.{masks_of, pins_of};
ghost use Rattle.listing.specs.ToCome.{Slotted};
ghost use Rattle.network.specs.Nesting.{LawfulOpening};

use crate::record::BlockRecord;
use network::row::BLOCKS;

mod opened;
mod pinned;
mod root;
mod walks;

// The first `blocks` records count, and the path's first `depth` slots: there is no heap and a
// listing is `Copy`, so both are arrays with their count beside them.
#[derive(Clone, Copy)]
pub struct Listing {
    pub blocks: usize,
    pub records: [BlockRecord; BLOCKS],
    pub depth: usize,
    pub path: [u8; BLOCKS],
    ghost few: { blocks ≤ 32 },
    ghost sized: { length (take blocks records) ≡ blocks },
    ghost lawful: { ∥ LawfulOpening (masks_of (take blocks records)) (pins_of (take blocks records)) ∥₁ },
    ghost deep: { depth ≤ blocks },
    ghost room: { depth ≤ length path },
    ghost slotted: { Slotted path depth },
}
