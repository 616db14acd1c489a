use crate::shortage::Shortage;

/// What an allocation comes to.
#[derive(Clone, Copy)]
pub enum Allocated {
    /// The record's header stands at this address.
    Placed(u32),
    /// The pages that it needs don't fit.
    Full(Shortage),
}
