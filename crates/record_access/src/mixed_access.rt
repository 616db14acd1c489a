use crate::field_access::FieldUse;

/// The access to a value of a mixed record, whose header was read and whose count isn't yet.
#[derive(Clone, Copy)]
pub struct MixedAccess {
    /// The record's address.
    pub at: u32,
    /// The number of the value, from 0.
    pub value: u32,
    /// A word to be stored is still a register's.
    pub usage: FieldUse,
}
