use crate::kept_header::KeptHeader;

/// A record whose copy has its room: the header that is kept, and the address reserved for the copy.
#[derive(Clone, Copy)]
pub struct Reserved {
    pub kept: KeptHeader,
    pub to: u32,
}
