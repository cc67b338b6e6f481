// What a row tells of itself, and how it is made, decided and narrowed.
ghost use Rattle.std.specs.Prelude.{◌≡◌, ◌↔◌, IsTrue, suc, ◌&&◌, length, MatchBool, MatchOption, ◌==◌, nat_lt, slice_index};
ghost use Rattle.network.specs.Laws.{LawfulRow};
ghost use Rattle.network.specs.Offers.{first_of, slots_from};
ghost use Rattle.network.specs.RowModel.{MayStand, given, may_have, model};
ghost use Rattle.network.specs.Rows.{dead, decide, keep, next_mask};
ghost use Rattle.network.specs.Sheets.{has};

use crate::mask::{has_slot, slot_from};
use crate::row::{BLOCKS, Row};

// Whether a block may have these masks in a row whose first present mask is `first`: where that is empty, all are.
fn may_have(opened: u32, present: u32, first: u32, decided: bool) -> bool
    ensures { result ≡ may_have opened present first decided }
{
    if first == 0 {
        return present == 0;
    }
    present != 0 && present & opened == present && (!decided || present.count_ones() <= 1)
}

// Whether each block may have its masks, the first ones being decided.
fn may_stand(opened: &[u32], present: &[u32], decided: usize) -> bool
    requires { length opened.now ≡ length present.now }
    ensures { IsTrue result ↔ MayStand opened.now present.now decided }
{
    let first = present.first().copied().unwrap_or(0);
    opened.iter().zip(present).enumerate().all(|(block, (opened, present))| may_have(
        *opened,
        *present,
        first,
        block < decided,
    ))
}

impl Row {
    // The row of these masks with so many blocks decided, if there is one.
    pub fn new(opened: &[u32], present: &[u32], decided: usize) -> Option<Row>
        ensures { MatchOption result (LawfulRow (given opened.now present.now decided) → ⊥) (λ row. model row ≡ given opened.now present.now decided) }
    {
        let blocks = opened.len();
        if blocks > BLOCKS || present.len() != blocks || decided > blocks {
            return None;
        }
        let mut opened_masks = [0; BLOCKS];
        let mut present_masks = [0; BLOCKS];
        if !may_stand(opened, present, decided) {
            return None;
        }
        opened_masks[..blocks].copy_from_slice(opened);
        present_masks[..blocks].copy_from_slice(present);
        Some(Row {
            blocks,
            decided,
            opened: opened_masks,
            present: present_masks,
        })
    }

    // The open masks of its blocks.
    pub fn opened_masks(&self) -> &[u32]
        ensures { result.now ≡ (model self.now).opened }
    {
        &self.opened[..self.blocks]
    }

    // The present masks of its blocks.
    pub fn present_masks(&self) -> &[u32]
        ensures { result.now ≡ (model self.now).present }
    {
        &self.present[..self.blocks]
    }

    // How many blocks the row has.
    pub fn blocks(&self) -> usize
        ensures { result ≡ length (model self.now).opened }
    {
        self.blocks
    }

    // How many blocks are decided: they are the first ones.
    pub fn decided(&self) -> usize
        ensures { result ≡ (model self.now).decided }
    {
        self.decided
    }

    // The open mask of a block: empty for a block that isn't there.
    pub fn open_mask(&self, block: usize) -> u32
        ensures { result ≡ slice_index (model self.now).opened block }
    {
        self.opened_masks().get(block).copied().unwrap_or(0)
    }

    // The present mask of a block: empty for a block that isn't there.
    pub fn present_mask(&self, block: usize) -> u32
        ensures { result ≡ slice_index (model self.now).present block }
    {
        self.present_masks().get(block).copied().unwrap_or(0)
    }

    // Whether every block is decided.
    pub fn is_complete(&self) -> bool
        ensures { result ≡ ((model self.now).decided == length (model self.now).opened) }
    {
        self.decided == self.blocks
    }

    // Whether the row is dead: one of its masks is empty. By a loop, as is the rule here (docs/DECISIONS.md, Forms).
    pub fn is_dead(&self) -> bool
        ensures { result ≡ dead (model self.now) }
    {
        for mask in self.present_masks() {
            if *mask == 0 {
                return true;
            }
        }
        false
    }

    // Whether the next block has a slot.
    pub fn offers(&self, slot: u8) -> bool
        ensures { result ≡ (nat_lt slot 32 && has (next_mask (model self.now)) slot) }
    {
        has_slot(self.present_mask(self.decided), slot)
    }

    // The first slot of the next block that is not below `from`.
    pub fn offer_from(&self, from: u8) -> Option<u8>
        ensures { result ≡ first_of (slots_from (next_mask (model self.now)) from) }
    {
        slot_from(self.present_mask(self.decided), from)
    }

    // The next block takes one of its slots. For any other slot the row stays as it is, and the answer is false.
    pub fn decide(&mut self, slot: u8) -> bool
        ensures offered { result ≡ (nat_lt slot 32 && has (next_mask (model self.old)) slot) }
        ensures row { MatchBool result (model self.new ≡ decide (model self.old) slot) (self.new ≡ self.old) }
    {
        if !self.offers(slot) {
            return false;
        }
        self.present[self.decided] = 1 << slot;
        self.decided += 1;
        true
    }

    // A block keeps only the slots of a mask. Where none is left, the row is wiped; a block that isn't there changes nothing.
    pub fn keep(&mut self, block: usize, mask: u32)
        ensures { model self.new ≡ keep (model self.old) block mask }
    {
        if block >= self.blocks {
            return;
        }
        let left = self.present[block] & mask;
        if left == 0 {
            self.present = [0; BLOCKS];
        } else {
            self.present[block] = left;
        }
    }
}
