use crate::snap::snapped::Snapped;
use space_map::GateWord;

/// What the beginning of a checkpoint is about to do.
#[derive(Clone, Copy)]
pub enum SnapStage {
    /// Load the gate, whether all mutators have stopped.
    LoadsGate,
    /// Exchange the number of the last checkpoint for the next one: this was the gate.
    ExchangesSnap(GateWord),
    /// Nothing more: it has come to this.
    Ended(Snapped),
}
