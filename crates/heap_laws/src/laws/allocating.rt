//! Allocation: pages are claimed, made 0 and opened, and new records placed in them.

ghost use Rattle.heap_laws.specs.Allocation.Stocks.{RoomIsSeen, StocksAreClaimed, StocksAreOpened, StocksAreZeroed, WordsAreStoredAhead};
ghost use Rattle.heap_laws.specs.Fields.Stores.{MutatorsPlace};
ghost use Rattle.heap_laws.specs.Allocation.Records.{ZerosShow};

/// A running mutator exchanges the area word and has pages below LOW.
pub fn stocks_are_claimed()
    ensures room { RoomIsSeen }
    ensures claimed { StocksAreClaimed }
{}

/// A word of what is claimed is made 0.
pub fn stocks_are_zeroed()
    ensures { StocksAreZeroed }
{}

/// The next page of what is claimed, all 0, is opened.
pub fn stocks_are_opened()
    ensures { StocksAreOpened }
{}

/// A word is stored behind a run's place, ahead of the next record's header.
pub fn words_are_stored_ahead()
    ensures { WordsAreStoredAhead }
{}

/// The header of a new record is stored at the run's place, and the mutator points to it: the plain heap gains the record that
/// the words behind the header show. These are 0, but for a mixed record's count: the record is one of zeros.
pub fn mutators_place()
    ensures places { MutatorsPlace }
    ensures zeros { ZerosShow }
{}
