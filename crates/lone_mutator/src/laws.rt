//! What holds of the steps of a lone mutator, and of a core's runs of it. Each function here does nothing: its contract is what is proved.

ghost use Rattle.lone_mutator.specs.Law.{LoneHeapsOpen, LoneStepsLower, LoneTasksBegin};
ghost use Rattle.lone_mutator.specs.Runs.{LoneMutatorsGoOn, LoneRunsEnd};

/// A step of a mutator without company that answers nothing leaves it less to pay, and it is without company still. After an effect it has
/// less to pay than the most steps of an instruction, and has executed one more; else it has its end.
pub fn lone_steps_lower()
    ensures { LoneStepsLower }
{}

/// A heap of one mutator without a scanner opens so, and the mutator has less to pay than the most steps of an instruction.
pub fn lone_heaps_open()
    ensures { LoneHeapsOpen }
{}

/// A task that it is given changes nothing of that.
pub fn lone_tasks_begin()
    ensures { LoneTasksBegin }
{}

/// A mutator that has the core to itself gets on: in any number of steps it comes to its end, or has executed an instruction for each time
/// that the most steps of one are in them.
pub fn lone_mutators_go_on()
    ensures { LoneMutatorsGoOn }
{}

/// It has its end after as many steps as the instructions for which it has turns, and one more, can take.
pub fn lone_runs_end()
    ensures { LoneRunsEnd }
{}
