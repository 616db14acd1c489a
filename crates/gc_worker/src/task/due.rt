/// Whether the next look at the gate begins something.
#[derive(Clone, Copy, PartialEq, Eq)]
pub enum Due {
    Nothing,
    /// An instruction.
    Call,
    /// An end that stands in place of one.
    Stop,
}
