//! From the laws to configurations. Each function here does nothing: its contract is what is proved.

ghost use Rattle.heap_laws.specs.Lifting.{StandingIsReady, StepsAreLifted, PlainStepsAreLifted, SizesAreLifted, FlipsAreLifted};

/// Each worker of a configuration that stands is ready for a step.
pub fn standing_is_ready()
    ensures { StandingIsReady }
{}

/// What a law says of a step is so of each configuration that stands: it stands after the step, the row that is written is one of
/// the table, what a cycle keeps is kept, and no page word's epoch falls.
pub fn steps_are_lifted()
    ensures kept { StepsAreLifted }
    ensures plain { PlainStepsAreLifted }
    ensures sizes { SizesAreLifted }
    ensures flips { FlipsAreLifted }
{}
