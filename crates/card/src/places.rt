// The memory that a network is written into.
ghost use Rattle.card.specs.Layout.{memory_in, sizes_of};
ghost use Rattle.std.specs.Prelude.{◌≡◌};

use crate::sizes::Sizes;
use banks::rule::RuleRecord;
use banks::table::TableRecord;

#[derive(Drop)]
pub struct Places<'a> {
    pub masks: &'a mut [u32],
    pub tables: &'a mut [TableRecord],
    pub cells: &'a mut [u8],
    pub rules: &'a mut [RuleRecord],
}

impl<'a> Places<'a> {
    // How much room each place has.
    pub(crate) fn room(&self) -> Sizes
        ensures { result ≡ sizes_of (memory_in self.now) }
    {
        Sizes {
            masks: self.masks.len(),
            tables: self.tables.len(),
            cells: self.cells.len(),
            rules: self.rules.len(),
        }
    }
}
