// How a walk is taken up after a node, goes down to a child, and finds the next one.
ghost use Rattle.std.specs.Prelude.{◌≡◌, suc, ◌≤◌, [], not, ◌&&◌, length, ◌==◌, slice_set, Some};
ghost use Rattle.listing.specs.Model.{left_after};
ghost use Rattle.listing.specs.ToCome.{ChildOf, Slotted, models, row_at, width};
ghost use Rattle.listing.specs.Walked.{NextChild, Visited, coming};
ghost use Rattle.network.specs.RowModel.{model};
ghost use Rattle.network.specs.Rows.{dead, decide};
ghost use Rattle.network.specs.Tree.{below};

use crate::walk::{Child, Walk};
use network::bank::Bank;
use network::filter::Filter;
use network::row::Row;

// Whether a row shows a plan: it is live, and every block is decided.
fn shows_plan(row: &Row) -> bool
    ensures { result ≡ ((model row.now).decided == length (model row.now).opened && not (dead (model row.now))) }
{
    row.is_complete() && !row.is_dead()
}

// Bank and filter stand side by side in these calls: a struct that held the filter's `&mut` would have to promise, call by call, that it
// still holds the same one.
impl Walk {
    // Goes down from the root along the path `last`, as far as the rows have its slots, and on past it.
    pub(crate) fn go_past<B: Bank, F: Filter>(&mut self, last: &[u8], bank: &B, filter: &mut F)
        requires start { self.old.depth ≡ 0 }
        requires first { self.old.from ≡ 0 }
        requires long { length last.now ≤ width (models self.old.rows) }
        requires slots { Slotted last.now (length last.now) }
        ensures wide { width (models self.new.rows) ≡ width (models self.old.rows) }
        ensures left { coming (F.Filter.filtered filter.old (B.Bank.meaning bank.now)) self.new ≡ left_after last.now (below (F.Filter.filtered filter.old (B.Bank.meaning bank.now)) (width (models self.old.rows)) [] (row_at (models self.old.rows) 0)) }
        ensures meaning { F.Filter.filtered filter.new ≡ F.Filter.filtered filter.old }
    {
        for &slot in last {
            let depth = self.depth;
            if !self.rows[depth].offers(slot) {
                self.from = slot + 1;
                return;
            }
            self.descend(bank, filter, Child { depth, slot });
        }
    }

    // Goes down to a child: its row with the slot decided, filtered.
    fn descend<B: Bank, F: Filter>(&mut self, bank: &B, filter: &mut F, child: Child)
        requires { ChildOf (models self.old.rows) self.old.depth child.depth child.slot }
        ensures rows { models self.new.rows ≡ slice_set (models self.old.rows) (suc child.depth) (F.Filter.filtered filter.old (B.Bank.meaning bank.now) (decide (row_at (models self.old.rows) child.depth) child.slot)) }
        ensures path { self.new.path ≡ slice_set self.old.path child.depth child.slot }
        ensures depth { self.new.depth ≡ suc child.depth }
        ensures from { self.new.from ≡ 0 }
        ensures meaning { F.Filter.filtered filter.new ≡ F.Filter.filtered filter.old }
    {
        let Child { depth, slot } = child;
        let rows = &mut self.rows;
        rows[depth + 1] = rows[depth];
        rows[depth + 1].decide(slot);
        filter.apply(bank, &mut rows[depth + 1]);
        self.path[depth] = slot;
        self.depth = depth + 1;
        self.from = 0;
    }

    // The next node: at the first slot that is left to the deepest row, or else past the path at the deepest row that has a slot left.
    // A loop: a chain over the depths would have to carry the slot to go on from, which the path gives anew at each depth but the first.
    pub(super) fn next_child(&self) -> Option<Child>
        ensures { NextChild self.now result }
    {
        let mut depth = self.depth;
        let mut from = self.from;
        loop {
            if let Some(slot) = self.rows[depth].offer_from(from) {
                return Some(Child { depth, slot });
            }
            if depth == 0 {
                return None;
            }
            depth -= 1;
            from = self.path[depth] + 1;
        }
    }

    // Visits the next child, and says whether it shows a plan.
    pub(super) fn visit<B: Bank, F: Filter>(
        &mut self,
        bank: &B,
        filter: &mut F,
        child: Child,
    ) -> bool
        requires { NextChild self.old (Some child) }
        ensures node { Visited (F.Filter.filtered filter.old (B.Bank.meaning bank.now)) self.old self.new result }
        ensures meaning { F.Filter.filtered filter.new ≡ F.Filter.filtered filter.old }
    {
        self.descend(bank, filter, child);
        shows_plan(&self.rows[self.depth])
    }
}
