//! What holds of a worker's steps besides the law that keeps the heap. Each function here does nothing: its contract is what is proved.

ghost use Rattle.worker_progress.specs.Progress.{MachinesGoOn};
ghost use Rattle.worker_progress.specs.WonFlips.{FlipsAreWon};
ghost use Rattle.worker_progress.specs.FullTold.{FullIsTold, SizesReadAreSo, FullIsToldInHeaps};
ghost use Rattle.worker_progress.specs.PastEpochs.{PastClaimsAreLost, PastTurnsAreLost, PastMarksAreLost, PagesAreWonNow};

/// A step from a heap that stands, after which the same machine is at work, leaves it less to do, by the machine's own count of what is
/// left; or its exchange was lost; or it loaded the first word of a record whose header another worker keeps, or SAVE of a page that another
/// worker is saving; or a mutator's round is over, and its next one begins; or the worker waits for others: the gate doesn't let it in or run
/// on yet, mutators run or are behind while it is to flip or to begin a checkpoint, or it is a scanner, whose round has ended. A mutator that
/// looks at the gate and then looks again has no task, or one that the look has done.
pub fn machines_go_on()
    ensures { MachinesGoOn }
{}

/// A flipper's exchange of the gate is never lost.
pub fn flips_are_won()
    ensures { FlipsAreWon }
{}

/// A mutator that found its epoch traced tells that the heap is full if the words have no room for the pages that its task asks for,
/// and no flip can help. In a heap that stands as many pages of its space are in use as it has read.
pub fn full_is_told()
    ensures told { FullIsTold }
    ensures read { SizesReadAreSo }
    ensures in_heaps { FullIsToldInHeaps }
{}

/// The exchange of a round that slept past a flip is lost, as the round's epoch is past: that of the word of the page that it claims, that
/// of WEAKTURN, and that of TRACED. No word changes, and the round ends with nothing done. So a page is won in the gate's epoch alone.
pub fn exchanges_of_past_epochs_are_lost()
    ensures pages { PastClaimsAreLost }
    ensures turn { PastTurnsAreLost }
    ensures traced { PastMarksAreLost }
    ensures won { PagesAreWonNow }
{}
