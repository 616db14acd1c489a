use plain_state::End;

/// What a worker's step was.
#[derive(Clone, Copy, Debug, PartialEq, Eq)]
pub enum Stepped {
    /// The worker has nothing more to do; nothing changed.
    Idle,
    /// The step was no step of the plain machine.
    Moved,
    /// This mutator executed its next instruction.
    Effect(u8),
    /// The spaces were exchanged, since a mutator had asked for so many pages.
    Flipped(u32),
    /// TRACED was exchanged: the epoch is traced.
    Traced,
    /// This mutator got its end.
    Ended(u8, End),
}
