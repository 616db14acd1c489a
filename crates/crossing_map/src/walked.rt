/// What a walk over a space's records comes to next.
#[derive(Clone, Copy, Debug, PartialEq, Eq)]
pub enum Walked {
    Record { at: u32, size: u32 },
    Ended,
    /// What stands at this address is no record, or a record that doesn't end in its part of the space.
    Broken { at: u32 },
}
