// What narrowing did to a row.
#[derive(Clone, Copy)]
pub enum Effect {
    Unchanged,
    // some slot is gone
    Narrowed,
    // a block has no slot left
    Died,
}
