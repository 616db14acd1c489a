//! What a register or a field holds.

/// The name of a record, which it keeps for ever.
#[derive(Clone, Copy, Debug, PartialEq, Eq)]
pub struct Identity {
    /// The number of the mutator that allocated it, from 0.
    pub mutator: u8,
    /// Which of that mutator's records it is, counted from 1.
    pub serial: u64,
}

/// A number below 2^62, or a reference to a record.
#[derive(Clone, Copy, Debug, PartialEq, Eq)]
pub enum Value {
    Number(u64),
    Reference(Identity),
}
