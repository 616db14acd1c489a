use crate::acts::Act::{self, Come, Executes, Printed, ToTheEnd, Until};
use crate::acts::perform;
use crate::asserting::assert_same;
use crate::rows::{GARBAGE, check_end};
use crate::stepping::{
    Goal, SMALLEST, loses, open, page_word, program, step, until, until_exchange, word,
};
use gc_core::{Config, Core, Stepped};
use plain_heap::End;
use space_map::PageWord;
use std::process::Abort;

/// Both mutators read a record that the first has put on the board. Before it does, the first flips.
const SHARING: &str = "/.mutator/new r0 1/li r1 7/st r0 0 r1/put 0 r0/a: get r2 1/jz r2 a\
    /raw r3 127/li r3 0/raw r3 127/get r4 0/ld r5 r4 0/out r5/halt\
    /.mutator/b: get r0 0/isp r1 r0/jz r1 b/li r2 1/put 1 r2/get r4 0/ld r5 r4 0/out r5/halt/";

/// The board, which is page 8 if a space has four pages, and the place of its word.
const BOARD_PAGE: u32 = 8;

const BOARD: usize = 24;

/// So many scanners sleep before their claims of the board until the next flip is past.
fn check_past(rt: &impl Abort, core: &mut Core<'_>, scanners: u8) {
    until(rt, core, 0, Goal::Cycle(1));
    assert_same(rt, &core.live_words(), &None);
    for scanner in 1..=scanners {
        until_exchange(rt, core, scanner, BOARD);
    }
    until(rt, core, 0, Goal::Cycle(2));
    for scanner in 1..=scanners {
        loses(rt, core, scanner, BOARD);
    }
    check_end(rt, core, &GARBAGE);
}

#[test]
fn claims_of_an_epoch_that_is_past_are_lost(rt: HostRuntime) {
    let program = program(&rt, rt.alloc(), GARBAGE.lines);
    for scanners in [1, 8] {
        let config = Config {
            scanners,
            ..SMALLEST
        };
        let mut core = open(&rt, rt.alloc(), &program, &config);
        check_past(&rt, &mut core, scanners);
    }
}

/// Both mutators have come to the epoch after the first flip.
const SHARED: [Act; 4] = [
    Executes(0, 4),
    Executes(1, 5),
    Until(0, Goal::Request),
    Come(2, 1),
];

/// Both come to their ends, and have printed what they read.
const ENDED: [Act; 3] = [
    ToTheEnd,
    Printed(0, &[7], Some(End::Halt)),
    Printed(1, &[7], Some(End::Halt)),
];

/// All workers are about to claim the board.
fn all_claim(rt: &impl Abort, core: &mut Core<'_>) {
    for worker in 0..core.workers() {
        let old = until_exchange(rt, core, worker, BOARD);
        assert_same(rt, &(worker, word(core, BOARD)), &(worker, old));
    }
}

/// This worker claims the board first, so that all others lose.
fn first_wins(rt: &impl Abort, core: &mut Core<'_>, first: u8) {
    assert_same(rt, &step(rt, core, first), &Stepped::Moved);
    let claimed = Some(PageWord::Scanning(1, first));
    assert_same(rt, &page_word(core, BOARD_PAGE), &claimed);
    for worker in 0..core.workers() {
        if worker != first {
            loses(rt, core, worker, BOARD);
        }
    }
}

#[test]
fn of_all_claims_of_one_page_one_is_won(rt: HostRuntime) {
    let program = program(&rt, rt.alloc(), SHARING);
    for (scanners, workers) in [(0, 2), (8, 10)] {
        let config = Config {
            scanners,
            ..SMALLEST
        };
        for first in 0..workers {
            let mut core = open(&rt, rt.alloc(), &program, &config);
            perform(&rt, rt.alloc(), &mut core, &SHARED);
            all_claim(&rt, &mut core);
            first_wins(&rt, &mut core, first);
            perform(&rt, rt.alloc(), &mut core, &ENDED);
        }
    }
}
