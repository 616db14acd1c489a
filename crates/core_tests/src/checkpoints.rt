use crate::acts::Act::{
    self, Checkpoint, Cycles, Executes, Holds, Printed, TellFirst, TellFirstToTheEnd, ToTheEnd,
    Until,
};
use crate::acts::{perform, play};
use crate::asserting::assert_same;
use crate::stepping::{Goal, executes, gate, open, printed, program, step, word};
use crate::telling::{FIRST, check_text, step_telling_first, tell_first, tell_first_to_the_end};
use atom_store::Step;
use gc_core::{Config, Core, Stepped};
use plain_heap::End;
use std::alloc::Global;
use std::process::Abort;

/// A record on the board, whose number changes after the checkpoint.
const CHANGED: &str = "/.mutator/new r0 1/li r1 5/st r0 0 r1/put 0 r0/snap\
    /li r1 6/st r0 0 r1/put 1 r1/halt/";

/// The same, and another mutator that stores there too.
const CHANGED_BY_TWO: &str = "/.mutator/new r0 1/li r1 5/st r0 0 r1/put 0 r0/snap\
    /li r1 6/st r0 0 r1/put 1 r1/halt\
    /.mutator/get r0 0/li r1 7/st r0 0 r1/put 2 r1/halt/";

/// The same, but the other begins the next checkpoint.
const BEGUN_BY_TWO: &str = "/.mutator/new r0 1/li r1 5/st r0 0 r1/put 0 r0/snap\
    /li r1 6/st r0 0 r1/halt\
    /.mutator/snap/halt/";

/// A space of four pages is full right after the checkpoint.
const FLIPPED: &str = "/.mutator/new r0 1/li r1 5/st r0 0 r1/put 0 r0/snap\
    /raw r2 127/li r2 0/raw r2 127/halt/";

/// How many instructions the first mutator executes up to its checkpoint.
const BEGINNING: u32 = 5;

const NONE: &str = "checkpoint 0\n";

const SECOND: &str = "checkpoint 2\nboard 0.1 0 0 0 0 0 0 0 0 0 0 0 0 0 0 0\n0.1 fields 1: 6\n";

/// The smallest heap with room for checkpoints, without scanners and with one.
const ROOMY: Config = Config {
    pages: 4,
    limit: 4,
    scanners: 0,
    snap: true,
};

const SCANNED: Config = Config {
    pages: 4,
    limit: 4,
    scanners: 1,
    snap: true,
};

/// The number of the last checkpoint that was finished.
const DONE: usize = 15;

/// The number of the record on page 3, and what is said of that page and of the board's for checkpoints.
const NUMBER: usize = 226;

const SAVE_3: usize = 636;

const SAVE_BOARD: usize = 641;

/// The number 6, as a word.
const SIX: u64 = 24;

/// A page is saved for checkpoint 1, or worker 0 or 1 saves it.
const SAVED: u64 = 0x0001_0002;

const SAVED_BY_0: u64 = 0x0001_0001;

const SAVED_BY_1: u64 = 0x0001_0005;

/// How many steps a scanner makes at most to finish a checkpoint of two pages.
const MOST_TO_FINISH: u32 = 320;

/// How many steps a mutator makes after its checkpoint, up to a store on a page that it saves and the look before its next one.
const MOST_TO_SAVE: u32 = 144;

/// How long a worker sleeps.
const LONG: u32 = 250;

/// More steps than any of these runs has.
const MOST: u32 = 1_000_000;

const HALTED: &[Act] = &[Printed(0, &[], Some(End::Halt))];

const BOTH_HALTED: &[Act] = &[
    Printed(0, &[], Some(End::Halt)),
    Printed(1, &[], Some(End::Halt)),
];

/// A run may stop after any step: the words tell the last checkpoint that was begun.
#[test]
fn a_run_may_stop_in_a_checkpoint(rt: HostRuntime) {
    let program = program(&rt, rt.alloc(), CHANGED);
    let mut core = open(&rt, rt.alloc(), &program, &ROOMY);
    check_text(&rt, rt.alloc(), &core, NONE);
    let mut left = BEGINNING;
    for _ in 0..MOST {
        if core.all_ended() {
            break;
        }
        if let Stepped::Effect(_) = step(&rt, &mut core, 0) {
            left = left.saturating_sub(1);
        }
        let text = if left > 0 { NONE } else { FIRST };
        check_text(&rt, rt.alloc(), &core, text);
    }
    perform(&rt, rt.alloc(), &mut core, HALTED);
}

/// Two mutators store on the record's page while the scanner sleeps. Then all go on.
const BOTH_STORE: &[Act] = &[TellFirst(&[0, 1], LONG), TellFirstToTheEnd];

/// The scanner finishes the checkpoint.
const FINISHES: &[Act] = &[
    Executes(0, BEGINNING),
    TellFirst(&[2], MOST_TO_FINISH - 1),
    Holds(DONE, 1),
];

/// The scanner saves the board and then the record's page, and falls asleep after so many steps, at last when the checkpoint is
/// finished.
#[test]
fn a_saver_may_sleep_after_any_step(rt: HostRuntime) {
    for steps in 0..MOST_TO_FINISH {
        let saves = [Executes(0, BEGINNING), TellFirst(&[2], steps)];
        let lists = [saves.as_slice(), BOTH_STORE, BOTH_HALTED];
        play(&rt, rt.alloc(), CHANGED_BY_TWO, &SCANNED, &lists);
    }
    play(&rt, rt.alloc(), CHANGED_BY_TWO, &SCANNED, &[FINISHES]);
}

/// Mutator 1 waits while the request for the checkpoint is set, and while the record's page is said to be saved by mutator 0; else it
/// goes on up to its end. Then both go on. It tells what was said of the page.
fn check_other_stores(rt: &impl Abort, alloc: Global, core: &mut Core<'_>) -> u64 {
    let said = word(core, SAVE_3);
    let waits = said == SAVED_BY_0 || gate(rt, core).request;
    tell_first(rt, alloc, core, &[1], 4 * LONG);
    let left = if waits {
        (said, None)
    } else {
        (SAVED, Some(End::Halt))
    };
    let ended = printed(rt, core, 1).1;
    assert_same(rt, &(word(core, SAVE_3), ended), &left);
    tell_first_to_the_end(rt, alloc, core);
    perform(rt, alloc, core, BOTH_HALTED);
    said
}

/// Mutator 0 saves the record's page by its look before a store there, and falls asleep after so many steps, at last when the page is
/// saved. Mutator 1 stores there too.
#[test]
fn a_mutator_may_sleep_while_it_saves(rt: HostRuntime) {
    let program = program(&rt, rt.alloc(), CHANGED_BY_TWO);
    let mut said = 0;
    for steps in 0..MOST_TO_SAVE {
        let mut core = open(&rt, rt.alloc(), &program, &ROOMY);
        executes(&rt, &mut core, 0, BEGINNING);
        tell_first(&rt, rt.alloc(), &mut core, &[0], steps);
        said = check_other_stores(&rt, rt.alloc(), &mut core);
    }
    assert_same(&rt, &said, &SAVED);
}

/// Mutator 0 has found its page saved, and sleeps before it stores there. The checkpoint is finished meanwhile, and the next one,
/// which another mutator wants, can't be begun before mutator 0 has stored.
const FOUND_SAVED: &[Act] = &[
    Executes(0, BEGINNING + 1),
    Until(2, Goal::Word(SAVE_3, SAVED)),
    Until(0, Goal::Want(Step::Store(NUMBER, SIX))),
    Until(2, Goal::Word(DONE, 1)),
    TellFirst(&[1], LONG),
    TellFirst(&[0], 1),
    ToTheEnd,
    Checkpoint(SECOND),
];

#[test]
fn who_found_a_page_saved_may_sleep(rt: HostRuntime) {
    play(
        &rt,
        rt.alloc(),
        BEGUN_BY_TWO,
        &SCANNED,
        &[FOUND_SAVED, BOTH_HALTED],
    );
}

/// The mutator wants a flip while the scanner, which saves the board for a checkpoint, sleeps.
const WANTS_FLIP: &[Act] = &[
    Executes(0, BEGINNING + 2),
    Until(1, Goal::Word(SAVE_BOARD, SAVED_BY_1)),
];

const NOT_FLIPPED: &[Act] = &[Holds(DONE, 0), Cycles(0)];

const FLIPPED_ONCE: &[Act] = &[Holds(DONE, 1), Cycles(1)];

/// The mutator asks for no flip before the checkpoint is finished.
#[test]
fn a_flip_waits_for_the_checkpoint(rt: HostRuntime) {
    let program = program(&rt, rt.alloc(), FLIPPED);
    let mut core = open(&rt, rt.alloc(), &program, &SCANNED);
    perform(&rt, rt.alloc(), &mut core, WANTS_FLIP);
    for _ in 0..4 * LONG {
        step_telling_first(&rt, rt.alloc(), &mut core, 0);
        assert_same(&rt, &gate(&rt, &core).request, &false);
    }
    perform(&rt, rt.alloc(), &mut core, NOT_FLIPPED);
    tell_first_to_the_end(&rt, rt.alloc(), &mut core);
    perform(&rt, rt.alloc(), &mut core, HALTED);
    perform(&rt, rt.alloc(), &mut core, FLIPPED_ONCE);
}
