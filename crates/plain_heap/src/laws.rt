//! What holds of all runs. Each function here does nothing: its contract is what is proved.

ghost use Rattle.plain_heap.specs.Calls.{CallLeavesOthers, CallKeepsCount, CallMakesNewRecord, NewRecordIsMade, ElseNoneIsMade, AsksForNewRecord, OnlySnapBegins};
ghost use Rattle.plain_heap.specs.Checkpoints.Checkpoint.{OneCheckpoint, OneText, SameIsPrinted, SameIsReached};
ghost use Rattle.plain_heap.specs.Checkpoints.LastCheckpoint.{OrdersCountCheckpoints, OrdersKeepTheLastCheckpoint};
ghost use Rattle.plain_heap.specs.Consistent.{OpensConsistent, MarksKeepConsistent, RunsStayConsistent};
ghost use Rattle.plain_heap.specs.Records.{CellsStay, ExchangesFindTheWord, LoadsTakeTheWord, OnlyStoresChangeWords, ShapesStay};
ghost use Rattle.plain_heap.specs.Emptied.{EmptiedOfLostCells};
ghost use Rattle.plain_heap.specs.Reaching.{ReachesIsReachable};
ghost use Rattle.plain_heap.specs.Tracing.{TracingIsDoneOnce, TracingNeedsCells, TracingNeedsFlip};
ghost use Rattle.plain_heap.specs.Order.{StoryHasOpening, StoryHasLastFlip};
ghost use Rattle.plain_heap.specs.Stores.{OrdersStoreWords, StepsCompareTheLastStore, StepsLoadTheLastStore};
ghost use Rattle.plain_heap.specs.Alone.{AlwaysTheSame, EndsAlone};
ghost use Rattle.plain_heap.specs.Checkpoints.WorkedCheckpoint.{ArePrinted};

/// In a program without `get`, `put`, `swap` and `weak`, whatever the order, each mutator has printed the
/// first of the numbers that it prints alone, and all of them where it has its end and that isn't
/// for want of room.
pub fn alone_mutators_are_independent()
    ensures same { AlwaysTheSame }
    ensures ends { EndsAlone }
{}

/// A story of a run has beside the state that the run comes to the one in which its last flip came,
/// or the opening where none came.
pub fn stories_keep_the_last_flip()
    ensures no_flip { StoryHasOpening }
    ensures last_flip { StoryHasLastFlip }
{}

/// Whatever the order, in each state that a program comes to the board and the registers are all
/// there, numbers are numbers of the language, and references lead to records that were allocated.
pub fn reached_states_are_consistent()
    ensures opening { OpensConsistent }
    ensures marks { MarksKeepConsistent }
    ensures runs { RunsStayConsistent }
{}

/// An instruction of one mutator leaves every other as it was, and no mutator comes or goes.
pub fn call_leaves_the_others()
    ensures others { CallLeavesOthers }
    ensures count { CallKeepsCount }
{}

/// Where the action of an instruction is to make a record, that record is allocated, and room is
/// counted for it and for no other. Where none is counted, each mutator has as many records as
/// before.
pub fn call_makes_the_new_record()
    ensures made { CallMakesNewRecord }
    ensures no_other { NewRecordIsMade }
    ensures else_none { ElseNoneIsMade }
    ensures asked { AsksForNewRecord }
{}

/// An instruction changes a word of a record only by storing in it, as a store does, and an exchange
/// that finds there what it expects: any other, also one that makes a record, leaves each word as it
/// is read. A load takes the word into its register, and changes nothing else. An exchange tells in its
/// register whether the word is what it expects, and changes nothing else if it isn't. A word that
/// isn't there is read as the number 0, as a new record has it.
pub fn only_stores_change_words()
    ensures stores { OnlyStoresChangeWords }
    ensures loads { LoadsTakeTheWord }
    ensures exchanges { ExchangesFindTheWord }
{}

/// In an order, of whatever mutators, a load of a word of a record gets what the last store in that word
/// before it wrote, and a load of a weak cell gets the value that the cell has then. An exchange finds there
/// what the last store wrote, tells whether it is what it expects, and is such a store itself if so. What
/// no step has stored in is the number 0. And so it is of each word of a record that is no cell, at any time,
/// whether loaded or not.
pub fn steps_find_the_last_store()
    ensures loads { StepsLoadTheLastStore }
    ensures exchanges { StepsCompareTheLastStore }
    ensures words { OrdersStoreWords }
{}

/// An instruction leaves each record there, with its kind and its length, and each cell as it is.
pub fn shapes_stay()
    ensures shapes { ShapesStay }
    ensures cells { CellsStay }
{}

/// A function tells which records are reachable.
pub fn reaching_is_reachable()
    ensures { ReachesIsReachable }
{}

/// A mark `Traced` empties the cells whose targets weren't reachable at the last flip, and changes nothing else. Before the first
/// flip it changes nothing, nor does a second one after the same flip, nor any in a program without `weak`.
pub fn tracing_empties_cells()
    ensures emptied { EmptiedOfLostCells }
    ensures no_flip { TracingNeedsFlip }
    ensures once { TracingIsDoneOnce }
    ensures no_cells { TracingNeedsCells }
{}

/// An instruction whose action it is to begin a checkpoint changes nothing else of the heap. Any other leaves
/// as many checkpoints as there were, and what the last one keeps.
pub fn only_snap_begins_checkpoints()
    ensures { OnlySnapBegins }
{}

/// After whatever order, no step of it has executed `snap`, and the number of checkpoints is 0; or a step began the last one by
/// executing `snap`: as many steps had done so before as its number says, what is kept is the board and the records right after
/// it, and none has executed `snap` since, if there haven't been the most checkpoints. Their number is that of the steps that
/// executed `snap`, or the most.
pub fn orders_keep_the_last_checkpoint()
    ensures last { OrdersKeepTheLastCheckpoint }
    ensures counted { OrdersCountCheckpoints }
{}

/// What is kept of a checkpoint has one board and one list of the records that the board leads to, and
/// one text is printed of it.
pub fn checkpoints_have_one_text()
    ensures checkpoint { OneCheckpoint }
    ensures text { OneText }
{}

/// What is printed of a checkpoint doesn't depend on records to which its board doesn't lead: if two
/// boards are the same, and so is each record to which the first one leads, then the other leads to the
/// same records, and the same is printed.
pub fn only_reached_records_are_printed()
    ensures reached { SameIsReached }
    ensures printed { SameIsPrinted }
{}

/// Checkpoints worked out by hand: none, one with one record, one with a record of each kind but a cell, beside
/// a record to which the board doesn't lead, and one with a cell.
pub fn worked_checkpoints_are_printed()
    ensures { ArePrinted }
{}
