//! What holds of all events and runs. Each function here does nothing: its contract is what is proved.

ghost use Rattle.gc_core.specs.Checkpoints.{CheckpointsAreTold};
ghost use Rattle.gc_core.specs.Cycles.{CyclesEmptyLostCells, CyclesKeepWhatIsLive, FullHeapsAreFilled, InstructionsFlipOnce, SizesAreBetween, SizesGrowAtFlips, SizesNeverFall};
ghost use Rattle.gc_core.specs.Law.{EventsMeet, IsLawful};
ghost use Rattle.gc_core.specs.Needs.{ClaimsAreForRecords, ClaimsAreMadeOrSetAside, LargeHeapsAreNeverFull, LoneFullsFollowTheirFlips, LoneHeapsAreNeverFull, OrdersAreFilledByClaims, OrdersFillTheSpace};
ghost use Rattle.gc_core.specs.Stores.{ExchangesOfRunsFindTheLastStore, LoadsOfRunsGetTheLastStore};
ghost use Rattle.gc_core.specs.Told.{WhatStandsIsTold};
ghost use Rattle.gc_core.specs.Whole.{CopiedPagesAreWonOnce, FlipsAreOfTracedCores, FullsFollowFlips, MissingWorkersAreIdle, NoPageIsWonTwice, RunsArePlainRuns, RunsFollow};

use crate::machine::Core;

/// The event of any worker does to each plain state that the core represents what the mark of it does; but if it tells that the epoch is
/// traced, those cells are emptied whose targets are the number 0, by the words then. What is told of it is so. The core is lawful after it
/// and represents that state, so the same holds of the next event.
pub fn events_meet()
    ensures { EventsMeet }
{}

impl<'p> Core<'p> {
    /// A core is lawful, however it was stepped.
    pub fn lawful(&self)
        ensures { IsLawful self.now }
    {
        let _ = &self.program;
    }
}

/// Whoever steps a core by hand, whichever worker comes next, makes a run of the plain machine. Up to the last mutator's end, from any
/// lawful core and for each plain state that it represents, and whose cells are as in the core's epoch, the core then represents what the plain
/// machine comes to from there, which executes the same instructions in the order in which their marks came. It is lawful again, with the state
/// at the last flip then, by which the cells are so again, and the same holds of what follows; what is seen of each mutator is what is seen of
/// its plain one, each mark acts, and a heap that is said to be full is. If checkpoints can be begun, a core represents those plain states
/// alone that have kept the same one.
pub fn runs_are_plain_runs()
    ensures { RunsArePlainRuns }
{}

/// In whatever order a schedule steps the workers of a core, from its opening on, the core represents the plain machine that
/// executes the same instructions in one order, the order of the run: its run is a plain run.
pub fn runs_follow()
    ensures { RunsFollow }
{}

/// In the order of a run, by which the core represents the plain machine, a load of a word of a record gets what the last store in that
/// word before it wrote. An exchange finds that there, tells whether it is what it expects, and is such a store itself if so. What no step
/// has stored in is the number 0. A load of a cell gets its value.
pub fn runs_find_the_last_store()
    ensures loads { LoadsOfRunsGetTheLastStore }
    ensures exchanges { ExchangesOfRunsFindTheLastStore }
{}

/// Wherever a run stops in which checkpoints can be begun, the words of its core say the last checkpoint of the order: its number, and the
/// board and the records right after the `snap` that began it.
pub fn checkpoints_are_told()
    ensures { CheckpointsAreTold }
{}

/// A worker that isn't there is idle.
pub fn missing_workers_are_idle()
    ensures { MissingWorkersAreIdle }
{}

/// In the order of a run a mutator finds the heap full only after a flip since its last step, or in the last epoch.
pub fn fulls_follow_flips()
    ensures { FullsFollowFlips }
{}

/// In a run no page is won twice in an epoch.
pub fn no_page_is_won_twice()
    ensures { NoPageIsWonTwice }
{}

/// Where the epoch of a run's core is traced, what was copied in it is what was reachable at the last flip of the order, each record once,
/// and so many words are told as live.
pub fn cycles_keep_what_is_live()
    ensures { CyclesKeepWhatIsLive }
{}

/// And exactly those cells of its space are empty whose targets weren't reachable at that flip, besides those that were empty then. Any other
/// one denotes what it had at the flip, or refers to a record if it was made since.
pub fn cycles_empty_lost_cells()
    ensures { CyclesEmptyLostCells }
{}

/// In a run a space has as many pages in use as at first, or more, and no more than the limit. A flip leaves as many in use, or twice as
/// many, as far as the limit goes; no other event changes how many they are.
pub fn sizes_grow_at_flips()
    ensures at_flips { SizesGrowAtFlips }
    ensures never_fall { SizesNeverFall }
    ensures between { SizesAreBetween }
{}

/// Where a run tells that the heap is full, as many pages as the limit are in use, or the epoch is the last. What was live at the last flip,
/// the words claimed since then and the room that is left are all words of these pages; and what was claimed is no more than the pages of
/// records made since then and of those that the other mutators make next. Each mark of the order that tells the heap to be full comes so, from a step of the run before which just these words were claimed.
pub fn full_heaps_are_filled()
    ensures filled { FullHeapsAreFilled }
    ensures for_records { ClaimsAreForRecords }
    ensures orders { OrdersFillTheSpace }
    ensures by_claims { OrdersAreFilledByClaims }
{}

/// At any time of a run, what was claimed since the last flip is no more than the pages of the records made since then and those set aside
/// for records that workers are making: for each of them room was found, and it doesn't stand yet.
pub fn claims_are_made_or_set_aside()
    ensures { ClaimsAreMadeOrSetAside }
{}

/// In a run a mutator flips at most once for an instruction if as many pages as the limit are in use; and with one mutator the heap is full
/// right after a flip, but for the end of tracing, or in the last epoch.
pub fn instructions_flip_once()
    ensures once { InstructionsFlipOnce }
    ensures lone { LoneFullsFollowTheirFlips }
{}

/// A heap is never full in which, wherever a flip came since a mutator's last step or the epoch is the last, the mutator's next record fits
/// beside what was live at the last flip, all records made since then, and those that the others make next: in as many pages as the limit,
/// but in the last epoch in those in use at first. With one mutator, before the last epoch, it is enough that the record fits beside what is
/// live in as many pages as the limit.
pub fn large_heaps_are_never_full()
    ensures large { LargeHeapsAreNeverFull }
    ensures lone { LoneHeapsAreNeverFull }
{}

/// In each epoch after the first the pages that are open for copies, or being scanned, were won in the run, each exactly once. Once the
/// epoch is traced, the board and all pages into which records were copied are open, and were won so; and no event flips before.
pub fn copied_pages_are_won_once()
    ensures won { CopiedPagesAreWonOnce }
    ensures flips { FlipsAreOfTracedCores }
{}

/// What is told of a heap that stands for a plain state, whoever stepped its workers, is so: what is seen of the mutators, what a dump says,
/// and the words that a cycle copied.
pub fn what_stands_is_told()
    ensures { WhatStandsIsTold }
{}
