// The tuples of a table, one after the other in its cells.
ghost use Rattle.std.specs.Prelude.{◌≡◌, ◌<◌};
ghost use Rattle.banks.specs.Tables.{climbs, cut};
ghost use Rattle.network.specs.Tree.{precedes};

// Whether each tuple comes before the next, by the first position where they differ.
pub(crate) fn ascend(cells: &[u8], arity: usize) -> bool
    requires { 0 < arity }
    ensures { result ≡ climbs (cut arity cells.now) }
{
    cells
        .chunks_exact(arity)
        .is_sorted_by(|a, b| comes_before(a, b))
}

// Whether the first tuple comes before the second, by the first position where they differ. By index: with the library's order of slices
// the check of a table whose tuples differ late takes half as long again.
fn comes_before(a: &[u8], b: &[u8]) -> bool
    ensures { result ≡ precedes a.now b.now }
{
    for q in 0..a.len().min(b.len()) {
        if a[q] != b[q] {
            return a[q] < b[q];
        }
    }
    a.len() < b.len()
}
