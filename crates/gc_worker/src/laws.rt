//! What holds of a worker's steps. Each function here does nothing: its contract is what is proved.

ghost use Rattle.gc_worker.specs.Laws.Step.{SnapsAreWon, StepsKeep, CheckpointsAreKept, ClearsAreWon, PlacesFit, RegistersLeadBack};
ghost use Rattle.gc_worker.specs.Laws.Checkpoints.{CheckpointsAreSafe};
ghost use Rattle.gc_worker.specs.Laws.Between.{HeapsOpen, ReadyingStands, TasksMayBegin, WorkersGoOn, WorkersWant, WhatStandsIsSo, AnswersLeaveTheOthers};
ghost use Rattle.gc_worker.specs.Laws.Gone.{ScannersBeginLast, ScannersStayLast, WhoIsGoneSawWhy};
ghost use Rattle.gc_worker.specs.Laws.MachineEnds.{EndedMachinesMakeWay};
ghost use Rattle.gc_worker.specs.Workers.Begun.{BeginningsAreKept, FullIsFoundLater};
ghost use Rattle.gc_worker.specs.Laws.Claims.{TracedPagesAreOpen, FlipsAreOfTraced, PagesAreOpenedByClaims, LowRisesAtFlips, CopiedPagesAreBelowLow};
ghost use Rattle.gc_worker.specs.Laws.Copied.{CopiedWasLive, FullTellsLive};
ghost use Rattle.gc_worker.specs.Workers.Counted.{CountedFit, CountsAreApart};
ghost use Rattle.gc_worker.specs.Laws.Represented.{RepresentedWorkersStand};
ghost use Rattle.gc_worker.specs.Laws.Stories.{StoriesKeep, StoriesOpen};
ghost use Rattle.gc_worker.specs.Laws.Lost.{LostCellsAreEmpty};
ghost use Rattle.gc_worker.specs.Steps.Direct.{LoadsGoByStages};

/// A step of a worker is of a word of the table, and the worker may take the reply. What stood for a plain state before stands after
/// it for the state that the answer leaves; if it tells that the epoch is traced, for that in which those cells are empty whose targets are
/// the number 0; else for the same. What a cycle keeps it keeps; no page that was won in an epoch is won again in it.
pub fn steps_keep()
    ensures { StepsKeep }
{}

/// What stood for a story stands after a step for what the story then has: if the step told that the epoch is traced, for the state in
/// which the cells lost their targets that weren't reachable at the flip. A new heap stands for a story.
pub fn stories_keep()
    ensures keep { StoriesKeep }
    ensures begin { StoriesOpen }
{}

/// Once an epoch is traced, exactly those cells of its space are empty whose targets weren't reachable at its flip, besides those that
/// were empty then. Any other one denotes what it had at the flip; one that was made since refers to a record. Each denotes what the plain
/// cell has.
pub fn lost_cells_are_empty()
    ensures { LostCellsAreEmpty }
{}

/// The exchange of SNAP by which a checkpoint is begun is never lost, nor is that of the gate by which its request is cleared.
pub fn checkpoints_are_begun()
    ensures begun { SnapsAreWon }
    ensures cleared { ClearsAreWon }
{}

/// The words of a heap that stands, in which checkpoints can be begun, say what the plain heap has kept at the last `snap`.
pub fn checkpoints_are_kept()
    ensures { CheckpointsAreKept }
{}

/// While the last checkpoint of such a heap is unfinished, its epoch is traced, nobody is to flip, its pages are open and not new, and
/// who writes on an open page next does so on one that is saved or new. Who has found this of a page, or that DONE is SNAP on its way
/// to a request, still finds it so. Whoever saves a page has copied its words as they were when the checkpoint began; and who is to
/// finish the checkpoint has all of its pages saved.
pub fn checkpoints_are_safe()
    ensures { CheckpointsAreSafe }
{}

/// What a direct `ld` reads takes the worker of the proofs from its look to the value's word, stage by stage, and tells nothing.
pub fn direct_loads_go_by_stages()
    ensures { LoadsGoByStages }
{}

/// The place of a step is in the table, by what the worker holds alone.
pub fn places_fit()
    ensures { PlacesFit }
{}

/// A register whose record is being copied leads into the space that was copied into in the mutator's own epoch.
pub fn registers_lead_back()
    ensures { RegistersLeadBack }
{}

/// A heap with its workers that stands for one plain state stands for each that it represents, with what a cycle keeps, if that one has
/// kept the same checkpoint.
pub fn what_is_represented_stands()
    ensures { RepresentedWorkersStand }
{}

/// A new heap, with its workers before their first steps, stands for the plain state in which nothing was made yet.
pub fn heaps_open()
    ensures { HeapsOpen }
{}

/// A worker may become another without a step, if it is the same to the proofs of the heap and still sound.
pub fn readying_stands()
    ensures { ReadyingStands }
{}

/// A mutator that has no end, and no task that it has not answered, may be given a task.
pub fn tasks_may_begin()
    ensures { TasksMayBegin }
{}

/// A step answers the task that was begun, or keeps it; once it is answered there is none.
pub fn workers_go_on()
    ensures { WorkersGoOn }
{}

/// A worker wants a step until it is gone.
pub fn workers_want()
    ensures { WorkersWant }
{}

/// A machine that has come to its end makes way for another one. If it is at work again at once, a round of a mutator is over, and its next
/// one begins; or the worker waits for others: the gate doesn't let it in or run on yet, mutators run or are behind while it is to flip or to
/// begin a checkpoint, or it is a scanner, whose round has ended.
pub fn ended_machines_make_way()
    ensures { EndedMachinesMakeWay }
{}

/// The step after which a worker is gone is a mutator's won exchange of the gate that counts it as left, or a scanner's look at a gate that
/// counts all mutators as left.
pub fn who_is_gone_saw_why()
    ensures { WhoIsGoneSawWhy }
{}

/// Scanners go last: a heap begins so that once a scanner is gone all mutators are, and each step of a worker keeps that.
pub fn scanners_go_last()
    ensures begin { ScannersBeginLast }
    ensures stay { ScannersStayLast }
{}

/// What is so of a heap with its workers between any two steps: its words represent the plain state, each mutator is as its plain one,
/// and its registers show that one's.
pub fn what_stands_is_so()
    ensures { WhatStandsIsSo }
{}

/// A step that answers a task leaves the other mutators of the plain state as they were.
pub fn answers_leave_the_others()
    ensures { AnswersLeaveTheOthers }
{}

/// What a traced epoch has copied, by the walk below FRONT, is what was live at its flip, and so is what a full heap tells as live.
pub fn what_was_copied_was_live()
    ensures copied { CopiedWasLive }
    ensures full { FullTellsLive }
{}

/// Once an epoch is traced, the board and all pages into which records were copied are open in it; and no step flips before that.
pub fn traced_pages_are_open()
    ensures opened { TracedPagesAreOpen }
    ensures flips { FlipsAreOfTraced }
{}

/// A page for copies gets a word of the epoch by a claim and no other way: if its word is of the gate's epoch after a step, it was
/// before, in the same epoch, or the step won the page. LOW, below which these pages lie, rises at a flip alone.
pub fn pages_are_opened_by_claims()
    ensures opened { PagesAreOpenedByClaims }
    ensures low { LowRisesAtFlips }
    ensures copied { CopiedPagesAreBelowLow }
{}

/// A worker with another count of its mutator's instructions wants, tells and becomes the same, and is as sound.
pub fn counts_are_apart()
    ensures same { CountsAreApart }
    ensures sound { CountedFit }
{}

/// The epoch in which an instruction began, at a look, is kept until it is answered; and that the heap is full is found only after the look.
pub fn beginnings_are_kept()
    ensures kept { BeginningsAreKept }
    ensures full { FullIsFoundLater }
{}
