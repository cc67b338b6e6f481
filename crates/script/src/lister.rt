// A session that lists plans as commands ask.
use filters::nfc::Nfc;
use listing::session::Session;

// With the filter that the command file chose, and the number of blocks.
#[derive(Clone, Copy)]
pub struct Lister {
    pub session: Session,
    pub filter: Nfc,
    pub blocks: usize,
}
