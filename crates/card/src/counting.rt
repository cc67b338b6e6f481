// The sizes of what has been read, entry by entry.
ghost use Rattle.std.specs.Prelude.{◌≡◌, ℕ, ◌+◌, ◌≤◌};
ghost use Rattle.card.specs.Filling.{Few, FitEntry, added};
ghost use Rattle.card.specs.Layout.{Memory, sizes_of};
ghost use Rattle.card.specs.Reads.{fits};

use crate::entry::Entry;
use crate::sizes::Sizes;

impl Sizes {
    // One entry more.
    pub(crate) fn with(self, entry: Entry) -> Sizes
        requires few { Few 32769 self }
        requires fit { FitEntry entry }
        ensures few { (lines : ℕ) → Few lines self → Few (lines + 1) result }
        ensures sizes { (m : Memory) → self ≡ sizes_of m → result ≡ sizes_of (added entry m) }
    {
        match entry {
            Entry::Nothing => self,
            Entry::Mask(_) => Sizes {
                masks: self.masks + 1,
                ..self
            },
            Entry::Table { .. } => Sizes {
                tables: self.tables + 1,
                ..self
            },
            Entry::Tuple(tuple) => Sizes {
                cells: self.cells + tuple.count,
                ..self
            },
            Entry::Rule { .. } => Sizes {
                rules: self.rules + 1,
                ..self
            },
        }
    }

    // Whether there is room for so much.
    pub(crate) fn fit(self, room: Sizes) -> bool
        ensures { result ≡ fits self room }
    {
        self.masks <= room.masks
            && self.tables <= room.tables
            && self.cells <= room.cells
            && self.rules <= room.rules
    }
}
