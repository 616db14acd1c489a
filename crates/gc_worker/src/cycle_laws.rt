//! What a cycle does to LOW, to sizes, claims and flips. Each function here does nothing: its contract is what is proved.

ghost use Rattle.gc_worker.specs.Laws.Cycles.{LowFallsByClaims, SizesStay, SizesAreWithin, SeenFlipsDouble, SizesHold, FlipsSetSizes, NextSizesBegin, NextSizesStay, ClaimsAreSetAside, SetAsideIsForRecords, FlipsAreFirst, FlipsStayFirst, CallsGoOn};

/// Within an epoch LOW falls by the words that allocations claim, and by these alone; a flip sets it to the end of the pages in use.
pub fn low_falls_by_claims()
    ensures { LowFallsByClaims }
{}

/// Within an epoch as many pages of its space stay in use; the space that is flipped into has as many, or twice as many, as far as there
/// are so many; twice as many if the mutator that flips has seen a flip since it began its instruction. A step that changes the other
/// space's size makes it no smaller than that of the space in use.
pub fn sizes_stay()
    ensures stay { SizesStay }
    ensures within { SizesAreWithin }
    ensures double { SeenFlipsDouble }
    ensures hold { SizesHold }
{}

/// A flip sets in use as many pages of the next space as follow from those of the one before: twice as many, as far as there are so many, if
/// its mutator has seen a flip since it began its instruction, or if more than half of their words were copied; else as many. So it is once
/// the mutator has found this size, from when it has read all on; and all workers begin so, and stay so at each step.
pub fn flips_set_sizes()
    ensures set { FlipsSetSizes }
    ensures begin { NextSizesBegin }
    ensures stay { NextSizesStay }
{}

/// What an allocation claims is set aside for the record that its mutator's instruction makes, until the record stands.
pub fn claims_are_for_records()
    ensures set_aside { ClaimsAreSetAside }
    ensures records { SetAsideIsForRecords }
{}

/// If each mutator that asks for a flip has seen none since it began its instruction, or the space may still grow, so it is after each step;
/// and it goes on with that instruction until it answers, but for a checkpoint that has no number left, which it begins anew.
pub fn flips_are_first()
    ensures first { FlipsAreFirst }
    ensures stay { FlipsStayFirst }
    ensures calls { CallsGoOn }
{}
