use crate::field_access::FieldExchange;

/// What is done with a record.
#[derive(Clone, Copy)]
pub enum RecordUse {
    /// This register gets its length.
    TellsLength(u8),
    /// This register gets a value of it.
    Loads(u8),
    /// This word becomes a value of it.
    Stores(u64),
    /// This word becomes a value of it, if that is what is expected.
    Compares(FieldExchange),
}

/// The access to a record whose header isn't read yet.
#[derive(Clone, Copy)]
pub struct RecordAccess {
    /// The record's address.
    pub at: u32,
    /// The number of the value that is wanted, from 0.
    pub value: u64,
    pub usage: RecordUse,
}
