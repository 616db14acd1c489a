use crate::flipped::Flipped;
use crate::reset::Reset;
use space_map::GateWord;

/// What a flip is about to do.
#[derive(Clone, Copy)]
pub enum FlipStage {
    /// Load the gate, whether all mutators have stopped and none is behind.
    LoadsGate,
    /// Load the size of the space that is in use: this was the gate.
    LoadsSize(GateWord),
    /// Load its area: these were the gate and the size.
    LoadsArea(GateWord, u32),
    /// Store the size of the other space.
    StoresSize(Reset),
    /// Store the area of the other space, which is empty yet.
    StoresArea(Reset),
    /// Store 0 in WEAK: no cell of the next epoch is linked yet.
    ResetsWeak(Reset),
    /// Exchange the gate that was read for that of the next epoch.
    Exchanges(Reset),
    /// Nothing more: it has come to this.
    Ended(Flipped),
}
