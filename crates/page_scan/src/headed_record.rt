/// A mixed record whose header the scan has read, and whose count of fields it has still to read.
#[derive(Clone, Copy)]
pub struct HeadedRecord {
    /// Its address.
    pub at: u32,
    /// The number of its words, with its header.
    pub size: u32,
}
