// Whether masks have a choice of one slot each that a table allows.
ghost use Rattle.std.specs.Prelude.{◌≡◌, ◌^◌, ◌<◌, ◌≤◌, true, length, is_some, IfSome, count_by, nat_lt};
ghost use Rattle.banks.specs.Tables.{FirstPass, allowed_in, climbs, cut, in_mask, inside};
ghost use Rattle.network.specs.Sheets.{choices, some_pass};
ghost use Rattle.std.specs.List.{list_all, zip};

use crate::table::Kind;
use network::mask::has_slot;

// The cells of a table whose tuples ascend, and a mask for each block of its scope.
#[derive(Clone, Copy)]
pub(crate) struct Search<'a> {
    pub cells: &'a [u8],
    pub masks: &'a [u32],
    ghost low: { 0 < length masks.now },
    ghost high: { length masks.now ≤ 6 },
    ghost ascends: { climbs (cut (length masks.now) cells.now) ≡ true },
}

impl<'a> Search<'a> {
    // Whether the masks have a choice that the table allows.
    pub(crate) fn some_allowed(&self, kind: Kind) -> bool
        ensures { let ms = self.now.masks.now in result ≡ some_pass (allowed_in kind (length ms) (cut (length ms) self.now.cells.now)) (choices ms) }
    {
        match kind {
            Kind::Allow => self.first_inside().is_some(),
            Kind::Deny => self.fewer_inside(),
        }
    }

    // The number of the first tuple inside the masks. By two loops and labels, as is the rule here (docs/DECISIONS.md, Forms).
    fn first_inside(&self) -> Option<usize>
        ensures some { let ms = self.now.masks.now in is_some result ≡ some_pass (inside ms) (cut (length ms) self.now.cells.now) }
        ensures first { let ms = self.now.masks.now in IfSome result (λ i. FirstPass (inside ms) (cut (length ms) self.now.cells.now) i) }
    {
        'search: {
            'tuples: for (i, tuple) in self.cells.chunks_exact(self.masks.len()).enumerate() {
                // by index, as in `is_inside`
                for q in 0..tuple.len().min(self.masks.len()) {
                    if !has_slot(self.masks[q], tuple[q]) {
                        continue 'tuples;
                    }
                }
                break 'search Some(i);
            }
            None
        }
    }

    // Whether fewer tuples are inside the masks than the masks have choices. With more choices than tuples, none is counted.
    fn fewer_inside(&self) -> bool
        ensures { let ms = self.now.masks.now in result ≡ nat_lt (count_by (inside ms) (cut (length ms) self.now.cells.now)) (length (choices ms)) }
    {
        let all = self.combinations();
        self.cells.len() < all * self.masks.len() || self.count_inside() < all
    }

    // How many tuples are inside the masks.
    fn count_inside(&self) -> usize
        ensures { let ms = self.now.masks.now in result ≡ count_by (inside ms) (cut (length ms) self.now.cells.now) }
    {
        self.cells
            .chunks_exact(self.masks.len())
            .filter(|tuple| is_inside(tuple, self.masks))
            .count()
    }

    // How many choices of one slot each the masks have.
    fn combinations(&self) -> usize
        ensures value { result ≡ length (choices self.now.masks.now) }
        ensures bound { result ≤ 2 ^ 30 }
    {
        let mut total = 1;
        for mask in self.masks {
            total *= mask.count_ones() as usize;
        }
        total
    }
}

// Whether each slot of the tuple is in its mask. By index: with `zip` and `all`, listings over deny tables took up to half as long again.
fn is_inside(tuple: &[u8], masks: &[u32]) -> bool
    ensures { result ≡ list_all in_mask (zip masks.now tuple.now) }
{
    for q in 0..tuple.len().min(masks.len()) {
        if !has_slot(masks[q], tuple[q]) {
            return false;
        }
    }
    true
}
