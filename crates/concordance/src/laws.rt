//! What holds of clerks and their notes. Each function here does nothing: its contract is what is proved.

ghost use Rattle.concordance.specs.Full.{LiveIsMade, LoneCallsAreDone, LoneFullsAreFilled};
ghost use Rattle.concordance.specs.Notes.Theorems.{EndedPathsHaveNone, NotesNeedNoMore};
ghost use Rattle.concordance.specs.Notes.Worked.{HoldsWorkedOut};
ghost use Rattle.concordance.specs.OneMutator.{LoneFlipsAreFew, LoneFlipsAreNow, LoneHistories};
ghost use Rattle.concordance.specs.Whole.{WholeCalls};

/// The history of a heap with one mutator, which makes no cell.
pub fn lone_histories_are_plain()
    ensures calls { LoneHistories }
    ensures now { LoneFlipsAreNow }
    ensures few { LoneFlipsAreFew }
{}

/// A clerk that has the heap for itself finds it full only if its own records fill it.
pub fn lone_fulls_are_filled()
    ensures live { LiveIsMade }
    ensures done { LoneCallsAreDone }
    ensures full { LoneFullsAreFilled }
{}

/// The calls of a clerk that has taken in all others are those of the plain machine, one after another, if nobody makes a cell.
pub fn whole_calls_are_plain()
    ensures { WholeCalls }
{}

/// If the path of a word has ended, and no entry on it is of the word, no note is of the word.
pub fn ended_paths_have_none()
    ensures { EndedPathsHaveNone }
{}

/// Notes that tell nothing but words of a text in their lines fill no more heap words than the text's rows need.
pub fn notes_need_no_more()
    ensures { NotesNeedNoMore }
{}

/// Notes worked out by hand.
pub fn notes_are_worked_out()
    ensures { HoldsWorkedOut }
{}
