//! The gate's other steps: a mutator attaches, parks, asks for a flip, has forwarded its registers, goes on, or leaves.

ghost use Rattle.heap_laws.specs.Gate.{ReadingGateKeeps, SeeingTracedKeeps, SeeingSizeKeeps, SizesAreKnown, PassingGateKeeps, TakingEpochKeeps, GatesFit};

/// What a worker reads of the gate, of TRACED and of SIZE.
pub fn passages_are_made_ready()
    ensures gate { ReadingGateKeeps }
    ensures traced { SeeingTracedKeeps }
    ensures size { SeeingSizeKeeps }
    ensures known { SizesAreKnown }
{}

/// The exchange of the gate, whichever passage it is for.
pub fn gates_are_passed()
    ensures { PassingGateKeeps }
{}

/// A scanner takes the epoch of the gate that it reads.
pub fn epochs_are_taken()
    ensures { TakingEpochKeeps }
{}

/// What the gate counts fits its word.
pub fn gates_fit()
    ensures { GatesFit }
{}
