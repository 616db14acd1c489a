//! The laws of what workers learn of checkpoints by loads, of rounds over their pages, and of the end of a checkpoint. Each function
//! here does nothing: its contract is what is proved.

ghost use Rattle.heap_laws.specs.Saving.Rounds.{
  SaversForget,
  RunsKeepSaving,
  EachIsForgotten,
  RoundsFollow,
  SaversLearn,
  NumbersFit,
  NumbersStay,
  CheckpointsEnd,
};

/// A worker may forget what it knows of checkpoints, and a mutator begins to run and stops.
pub fn savers_forget()
    ensures less { SaversForget }
    ensures each { EachIsForgotten }
    ensures runs { RunsKeepSaving }
{}

/// A round goes on from page to page until it has passed all.
pub fn rounds_follow()
    ensures { RoundsFollow }
{}

/// A load by which a worker learns of checkpoints leaves what is kept of them, and SNAP stays while a mutator runs that has read it.
pub fn savers_learn()
    ensures loads { SaversLearn }
    ensures fit { NumbersFit }
    ensures again { NumbersStay }
{}

/// The exchange of DONE, after a round has passed all pages, leaves what is kept of checkpoints.
pub fn checkpoints_end()
    ensures { CheckpointsEnd }
{}
