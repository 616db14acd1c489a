//! The laws of which steps spare the checkpoints. Each function here does nothing: its contract is what is proved.

ghost use Rattle.heap_laws.specs.Saving.Sparing.{
  TracingIsBefore,
  TracedWordsAreSpared,
  ClaimsAreSpared,
  ScannedPagesAreSpared,
  TracedIsSpared,
  StoresAreSpared,
  ZerosAreSpared,
  NewPagesAreLoose,
  NewPagesAreSpared,
  NobodyIsStillWhereAstir,
  PassagesAreSpared,
  PassagesFollowPosts,
  PassagesKeepSaving,
  FlippersKeepSaving,
  FlippersFollowPosts,
};

/// What traces an epoch is done before it is traced, so while no checkpoint is in progress: what who copies or scans stores, the pages
/// that are claimed, and opened after a scan, and TRACED.
pub fn tracing_is_spared()
    ensures before { TracingIsBefore }
    ensures words { TracedWordsAreSpared }
    ensures claims { ClaimsAreSpared }
    ensures pages { ScannedPagesAreSpared }
    ensures traced { TracedIsSpared }
{}

/// A mutator stores on pages that it has found saved or new, or while no checkpoint is in progress.
pub fn stores_are_spared()
    ensures { StoresAreSpared }
{}

/// The pages that a mutator makes 0, marks as new and opens are no pages of a checkpoint in progress, and nobody saves them.
pub fn new_pages_are_spared()
    ensures zeros { ZerosAreSpared }
    ensures loose { NewPagesAreLoose }
    ensures pages { NewPagesAreSpared }
{}

/// Where the request is clear, a mutator runs or one is behind, nobody is still; so it is at each passage but the one that clears the
/// request. A passage leaves what is kept of checkpoints.
pub fn passages_are_spared()
    ensures still { NobodyIsStillWhereAstir }
    ensures passed { PassagesAreSpared }
    ensures posts { PassagesFollowPosts }
    ensures kept { PassagesKeepSaving }
{}

/// Who has found DONE equal to SNAP and then flips leaves what is kept of checkpoints.
pub fn flippers_are_spared()
    ensures posts { FlippersFollowPosts }
    ensures kept { FlippersKeepSaving }
{}
