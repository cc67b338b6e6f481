// A walk over the nodes that are still to come: a stack of rows along a path.
ghost use Rattle.std.specs.Prelude.{◌≤◌, length};
ghost use Rattle.listing.specs.ToCome.{Slotted, Stacked, models, width};

use network::row::{BLOCKS, Row};

mod stack;
mod visits;

// The root row, and one below it for each block.
pub(crate) const ROWS: usize = BLOCKS + 1;

// A child of a row of the stack: how deep the row is, and the slot that its next block takes.
#[derive(Clone, Copy)]
pub struct Child {
    pub depth: usize,
    pub slot: u8,
}

// Row k has the path's first k slots decided, for k up to `depth`. The walk goes on from slot `from` of the deepest row's next block.
// There is no heap, so rows and path are arrays with their depth beside them; the path is copied from and to a listing.
#[derive(Drop)]
pub struct Walk {
    pub rows: [Row; ROWS],
    pub path: [u8; BLOCKS],
    pub depth: usize,
    pub from: u8,
    ghost deep: { depth ≤ 32 },
    ghost room: { depth ≤ length path },
    ghost slot: { from ≤ 32 },
    ghost slotted: { Slotted path depth },
    ghost stacked: { Stacked (width (models rows)) (models rows) depth },
}
