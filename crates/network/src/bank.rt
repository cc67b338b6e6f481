// A bank: where constraint sheets come from.
ghost use Rattle.network.specs.Laws.{LawfulBank};
ghost use Rattle.network.specs.Sheets.{Decides, HasSupport, Sheet, sheet_at, supported};
ghost use Rattle.std.specs.Prelude.{◌≡◌, List, length, slice_index_or};

// Answers for a sheet past the last one are those of a sheet with no blocks: plain numbers, 0 and 255, which are part of what a bank is.
// Sheets are asked by number. A value of bank and number would be one type more, with the same questions.
pub trait Bank {
    ghost meaning: { Self → List Sheet };

    ghost lawful: { (b : Self) → LawfulBank (meaning b) };

    // How many sheets there are.
    fn count(&self) -> usize
        ensures { result ≡ length (meaning self.now) };

    // How many blocks sheet `c` ties.
    fn arity(&self, c: usize) -> usize
        ensures { result ≡ length (sheet_at (meaning self.now) c).scope };

    // The block at position `p` of sheet `c`, or 255 past its arity.
    fn block(&self, c: usize, p: usize) -> u8
        ensures { result ≡ slice_index_or (sheet_at (meaning self.now) c).scope p 255 };

    // Whether some tuple that sheet `c` allows has slot `s` at position `p`, and a slot of its mask at each other position.
    fn supports(&self, c: usize, masks: &[u32; 6], p: usize, s: u8) -> bool
        ensures test { result ≡ supported (sheet_at (meaning self.now) c) masks.now p s }
        ensures support { Decides result (HasSupport (sheet_at (meaning self.now) c) masks.now p s) };
}
