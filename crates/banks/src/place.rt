// Where a sheet of two banks stands.

// The number is that of the sheet in its own bank. Nowhere stands beside the two banks: as an Option around an enum of two, each
// match on a place would name one constructor more and have as many arms.
#[derive(Clone, Copy)]
pub enum Place {
    First(usize),
    Second(usize),
    Nowhere,
}
