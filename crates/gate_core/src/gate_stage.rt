use crate::passed::Passed;
use space_map::GateWord;

/// What a passage is about to do.
#[derive(Clone, Copy)]
pub enum GateStage {
    /// Load the gate.
    Loads,
    /// Exchange the gate that was read, which allows the passage, for the gate after it. A look comes without.
    Exchanges(GateWord),
    /// Nothing more: it has come to this.
    Ended(Passed),
}
