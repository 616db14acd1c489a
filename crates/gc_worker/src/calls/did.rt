use plain_state::End;

/// What came of an instruction.
#[derive(Clone, Copy, Debug, PartialEq, Eq)]
pub enum Did {
    /// It was executed.
    Done,
    /// The mutator has this end.
    Trap(End),
}
