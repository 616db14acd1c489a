//! What holds of all histories, and of calls that are made by acts. Each function here does nothing: its contract is what is proved.

ghost use Rattle.ael_threads.specs.Alone.{LoneCallsComeToTheSame};
ghost use Rattle.ael_threads.specs.CallsByActs.{BegunCallsAreUnderWay, EffectsCompleteCalls, EndsCompleteCalls, UnansweredCallsGoOn};
ghost use Rattle.ael_threads.specs.Unread.{BoardWordsStay, LastPutStands, UnreadBoardsShareNothing};

/// In a legal history, the calls of a mutator none of whose calls names the board or makes a cell come to the same as alone: made on an
/// empty plain heap, where nobody else makes a call, they get the same replies, up to heap full, which can only be the last; and they
/// leave the mutator and its records as the whole history does. The others may use the board, and make cells.
pub fn lone_calls_come_to_the_same()
    ensures { LoneCallsComeToTheSame }
{}

/// In a legal history in which nobody reads the board or makes a cell, the calls of each mutator come to the same as alone, as in
/// `lone_calls_come_to_the_same`, if a move of its register to itself stands in place of each put.
pub fn unread_boards_share_nothing()
    ensures { UnreadBoardsShareNothing }
{}

/// A word of the board stays as long as each call makes no cell, and leaves the board alone or puts a register in another word. So in a
/// legal history of a new heap it is what the register held that was put there last, if only such calls came later.
pub fn board_words_stay()
    ensures stays { BoardWordsStay }
    ensures put { LastPutStands }
{}

/// Who makes a call by `begin` or `begin_end` and acts is promised as much of it as by `exec`, also if it ends with a full heap. The call is
/// under way from `begin` on, an act that tells neither an effect nor an end leaves it so, and one that tells it makes it a call.
pub fn acts_make_calls()
    ensures begun { BegunCallsAreUnderWay }
    ensures goes_on { UnansweredCallsGoOn }
    ensures executed { EffectsCompleteCalls }
    ensures ended { EndsCompleteCalls }
{}
