// A listing as it is opened.
ghost use Rattle.std.specs.Prelude.{◌≡◌, ◌<◌, ◌≤◌, map, length, take};
ghost use Rattle.listing.specs.Records.{unpinned};
ghost use Rattle.listing.specs.Represents.{last_of, records_of};

use crate::listing::Listing;
use crate::record::BlockRecord;
use network::row::BLOCKS;

// The records of blocks with these open masks and no pin. They are set by their numbers: of what a zip with `iter_mut` writes, a proof
// knows the length alone.
fn unpinned_records(masks: &[u32]) -> [BlockRecord; BLOCKS]
    requires { length masks.now ≤ 32 }
    ensures { take (length masks.now) result ≡ map unpinned masks.now }
{
    let mut records = [BlockRecord::new(0); BLOCKS];
    for (block, mask) in masks.iter().enumerate() {
        records[block] = BlockRecord::new(*mask);
    }
    records
}

impl Listing {
    // Blocks with these open masks and no pin, before the first node.
    pub(crate) fn new(masks: &[u32]) -> Listing
        requires some { 0 < length masks.now }
        requires few { length masks.now ≤ 32 }
        ensures blocks { result.blocks ≡ length masks.now }
        ensures records { records_of result ≡ map unpinned masks.now }
        ensures depth { result.depth ≡ 0 }
    {
        Listing {
            blocks: masks.len(),
            records: unpinned_records(masks),
            depth: 0,
            path: [0; BLOCKS],
        }
    }
}
