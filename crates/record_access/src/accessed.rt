use plain_state::End;

/// What an access comes to.
#[derive(Clone, Copy)]
pub enum Accessed {
    /// This page isn't open.
    Faults(u32),
    /// It goes on once the epoch is traced.
    Awaits,
    /// This register gets this word.
    Brings(u8, u64),
    Stored,
    /// It is the mutator's end.
    Fails(End),
}
