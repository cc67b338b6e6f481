// A session: a network's plans, listed in ascending order, call by call.
use crate::listing::Listing;

mod calls;
mod next;

// Blank until it is opened: then it has no listing.
#[derive(Clone, Copy)]
pub struct Session {
    listing: Option<Listing>,
}
