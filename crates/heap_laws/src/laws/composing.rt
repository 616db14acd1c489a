//! Steps one after another, and what a worker may forget: an atomic step may be several changes of what it knows.

ghost use Rattle.heap_laws.specs.Composing.{RoundsAreForgotten, TracedIsForgotten, SizesAreForgotten, ScannedRecordsAreForgotten, RoundFrontsAreForgotten, StepsForget, StepsAreReady, StepsFollow, PlainStepsForget, PlainStepsAreReady, PlainStepsFollow, StepsWriteBeside, PlainStepsWriteBeside};
ghost use Rattle.heap_laws.specs.Composites.{RegistersArePassed, RegistersFindForwards, RegistersAreSettled, LookingAtLastPageKeeps, ClaimsBegin, RoundsEnd};

/// What a worker may forget: the round of the duty that it is in or FRONT of it, that the epoch is traced, the size of its space, and in which
/// record its scan is.
pub fn knowledge_is_forgotten()
    ensures round { RoundsAreForgotten }
    ensures front { RoundFrontsAreForgotten }
    ensures traced { TracedIsForgotten }
    ensures size { SizesAreForgotten }
    ensures scanned { ScannedRecordsAreForgotten }
{}

/// After a step a worker may know less.
pub fn steps_forget()
    ensures kept { StepsForget }
    ensures plain { PlainStepsForget }
{}

/// A step is followed by one that writes no row: both are one step, and all is ready for the second.
pub fn steps_follow()
    ensures ready { StepsAreReady }
    ensures kept { StepsFollow }
    ensures plain_ready { PlainStepsAreReady }
    ensures plain { PlainStepsFollow }
{}

/// A step that writes no row of the epoch's may write one of checkpoints, which the epoch doesn't see: all is kept as if it had
/// written none.
pub fn rows_beside_are_written()
    ensures kept { StepsWriteBeside }
    ensures plain { PlainStepsWriteBeside }
{}

/// The registers of a mutator that is behind, several in one step: by themselves, where a copy is found, and where one was made.
pub fn registers_are_settled()
    ensures passed { RegistersArePassed }
    ensures found { RegistersFindForwards }
    ensures settled { RegistersAreSettled }
{}

/// Rounds of the duty: the last page of the first look, the load at which a claim begins, and the end of a round.
pub fn rounds_are_ended()
    ensures last { LookingAtLastPageKeeps }
    ensures claims { ClaimsBegin }
    ensures ends { RoundsEnd }
{}
