//! What holds of all histories. Each function here does nothing: its contract is what is proved.

ghost use Rattle.gc_worker.specs.History.Checkpoints.{HistoriesCountCheckpoints, HistoriesKeepTheLastCheckpoint};
ghost use Rattle.gc_worker.specs.History.Loads.{ExchangesFindTheLastStore, LoadsGetTheLastStore, RecordsKeepTheirShape, WordsAreStored, WordsBeginAsZero};

/// The calls of a record form one history: in a legal history, a load of a word of a record that had its effect got what the last
/// store in that word before it wrote, of whatever mutator, or what stood there before the history. An exchange that had its effect
/// found that there, told whether it was what it expected, and is such a store itself if so. In a new heap what stood there before
/// the history is the number 0. And so it is of each word at any time, whether loaded or not, but of a cell's: a load of one gets its
/// value, and nothing is stored in it.
pub fn loads_get_the_last_store()
    ensures loads { LoadsGetTheLastStore }
    ensures exchanges { ExchangesFindTheLastStore }
    ensures words { WordsAreStored }
    ensures first { WordsBeginAsZero }
{}

/// Once a record is made it is there for ever in each history that goes on, with the same kind and the same length.
pub fn records_keep_their_shape()
    ensures { RecordsKeepTheirShape }
{}

/// After a history of a heap without checkpoints, such as a new one, no call of `snap` has had its effect, and the number of
/// checkpoints is 0; or a call of `snap` began the last one: as many had been made before as its number says, what is kept is the
/// board and the records right after it, and none has been made since, if there haven't been the most checkpoints. Their number
/// is that of these calls, or the most.
pub fn histories_keep_the_last_checkpoint()
    ensures last { HistoriesKeepTheLastCheckpoint }
    ensures counted { HistoriesCountCheckpoints }
{}
