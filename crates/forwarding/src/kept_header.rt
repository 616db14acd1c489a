use heap_words::Kind;

/// The header of an old record. Its worker keeps it from when it takes the record until it stores the forward.
#[derive(Clone, Copy)]
pub struct KeptHeader {
    pub word: u64,
    pub kind: Kind,
    /// The number of words after the header.
    pub len: u16,
}
