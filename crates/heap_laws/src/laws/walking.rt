//! The walk over the chain of copied cells: each step of it. Each function here does nothing: its contract is what is proved.

ghost use Rattle.heap_laws.specs.Walking.{WalksBegin, WalksGoOn, TargetsStay, TargetsLeadOut, CopiesReplaceTargets, NothingReplacesTargets, TargetsAreReplaced};

/// The walker loads WEAK, and the link of each cell whose target it has done with.
pub fn linked_cells_are_walked()
    ensures begins { WalksBegin }
    ensures goes_on { WalksGoOn }
{}

/// It loads a cell's target, and what stands where that leads, and stores what replaces the target.
pub fn targets_are_settled()
    ensures stays { TargetsStay }
    ensures leads_out { TargetsLeadOut }
    ensures copied { CopiesReplaceTargets }
    ensures not_copied { NothingReplacesTargets }
    ensures replaced { TargetsAreReplaced }
{}
