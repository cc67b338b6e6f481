// A row: the open and the present masks of its blocks, of which the first ones are decided.
ghost use Rattle.std.specs.Prelude.{◌≡◌, ◌≤◌, length, take};
ghost use Rattle.network.specs.Laws.{LawfulRow};
ghost use Rattle.network.specs.Rows.{row_of};

mod calls;

// A row has at most so many blocks.
pub const BLOCKS: usize = 32;

// A row is `Copy`, with no heap, so its masks stand in arrays with their count; in two, since they are read as two slices.
// It has no model of its own (`impl Model`): proofs in other crates rest on its being lawful by type, which a model would hide.
// The first `blocks` masks of both arrays count. Every row is lawful: its present masks lie inside its open masks, one empty
// present mask empties all, and no decided block has two slots.
#[derive(Clone, Copy)]
pub struct Row {
    blocks: usize,
    decided: usize,
    opened: [u32; BLOCKS],
    present: [u32; BLOCKS],
    ghost few: { blocks ≤ 32 },
    ghost within: { decided ≤ blocks },
    ghost sized: { length (take blocks opened) ≡ blocks },
    ghost lawful: { ∥ LawfulRow (row_of blocks decided opened present) ∥₁ },
}
