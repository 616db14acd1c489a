//! The end of the copied area: it is looked at, the turn is taken, TRACED is exchanged, and then nothing leads into the old space.

ghost use Rattle.heap_laws.specs.Tracing.{ReadingTracedKeeps, ReadingRoundFrontKeeps, BeginningLookKeeps, LookingAtFrontKeeps, LookingAtBoardKeeps, LookingAtPageKeeps, LookingAtFillingPageKeeps, LookingAgainKeeps, ClaimingFillingPageKeeps, TurnsAreTaken, TracingKeeps, LostTargetsAreZero, SleeperLosesTraced, TracedLeadsNowhere, TracedCopiesReachable};
ghost use Rattle.heap_laws.specs.Flipping.Live.{TracedIsLive};

/// The loads of a round of the duty.
pub fn rounds_are_begun()
    ensures traced { ReadingTracedKeeps }
    ensures front { ReadingRoundFrontKeeps }
{}

/// The loads of the look at the end of the area, one by one, and of the second look.
pub fn the_end_is_looked_at()
    ensures gate { BeginningLookKeeps }
    ensures front { LookingAtFrontKeeps }
    ensures board { LookingAtBoardKeeps }
    ensures page { LookingAtPageKeeps }
    ensures filling { LookingAtFillingPageKeeps }
    ensures again { LookingAgainKeeps }
    ensures claim { ClaimingFillingPageKeeps }
{}

/// The exchange of WEAKTURN: who wins it has the turn of the epoch, alone.
pub fn turns_are_taken()
    ensures { TurnsAreTaken }
{}

/// The exchange of TRACED: who wins it is of the current epoch, and keeps all. The plain state then is one
/// in which each cell is as before or empty, and each one in the epoch's space holds what its target shows.
/// If the plain state has kept the cells of the flip (`KeepsCells`), the target of such a cell is 0 if its
/// record wasn't reachable at the flip, and else shows what the cell held.
pub fn epochs_are_traced()
    ensures traced { TracingKeeps }
    ensures lost { LostTargetsAreZero }
    ensures asleep { SleeperLosesTraced }
{}

/// What holds where the epoch is traced.
pub fn traced_epochs_are_clean()
    ensures clean { TracedLeadsNowhere }
    ensures copied { TracedCopiesReachable }
{}

/// What a traced epoch has copied, by the words alone, is what was live at its flip.
pub fn traced_epochs_have_copied()
    ensures { TracedIsLive }
{}
