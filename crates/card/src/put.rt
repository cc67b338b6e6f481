// What a line adds, written into memory.
ghost use Rattle.card.specs.Filling.{FitEntry, HasRoom, added};
ghost use Rattle.card.specs.Layout.{Memory, SameLoans, memory_in, over, sizes_of};
ghost use Rattle.std.specs.Prelude.{◌≡◌};

use crate::entry::Entry;
use crate::places::Places;
use crate::sizes::Sizes;
use banks::rule::RuleRecord;
use banks::table::TableRecord;

impl Entry {
    // Writes the entry where what is filled so far ends: places are lent by the caller, and how far they are filled is the reader's.
    pub(crate) fn put(self, filled: Sizes, places: &mut Places)
        requires fit { FitEntry self }
        requires room { HasRoom self filled (sizes_of (memory_in places.old)) }
        ensures written { (m old : Memory) → filled ≡ sizes_of m → memory_in places.old ≡ over m old →
            memory_in places.new ≡ over (added self m) old }
        ensures loans { SameLoans places.old places.new }
        ensures sizes { sizes_of (memory_in places.new) ≡ sizes_of (memory_in places.old) }
    {
        match self {
            Entry::Nothing => {}
            Entry::Mask(mask) => places.masks[filled.masks] = mask,
            Entry::Table {
                kind,
                scope,
                tuples,
            } => {
                let blocks = scope.numbers;
                places.tables[filled.tables] = TableRecord {
                    kind,
                    arity: scope.count as u8,
                    blocks,
                    first: filled.cells,
                    tuples,
                };
            }
            Entry::Tuple(tuple) => {
                let (first, count) = (filled.cells, tuple.count);
                places.cells[first..first + count].copy_from_slice(&tuple.numbers[0..count]);
            }
            Entry::Rule { rule, scope } => {
                let blocks = scope.numbers;
                places.rules[filled.rules] = RuleRecord {
                    rule,
                    arity: scope.count as u8,
                    blocks,
                };
            }
        }
    }
}
