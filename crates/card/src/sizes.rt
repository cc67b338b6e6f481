// How much of each place is filled, or has room.

#[derive(Clone, Copy, PartialEq, Default)]
pub struct Sizes {
    pub masks: usize,
    pub tables: usize,
    pub cells: usize,
    pub rules: usize,
}
