use space_map::GateWord;

/// What the beginning of a checkpoint comes to.
#[derive(Clone, Copy, Debug, PartialEq, Eq)]
pub enum Snapped {
    /// The checkpoint is begun. This is the gate that was seen, with nobody running.
    Begun(GateWord),
    /// This word of the gate forbids it: a mutator runs.
    NotYet(u64),
}
