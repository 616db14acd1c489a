//! The text of the last checkpoint, while workers go on.

use crate::asserting::assert_same;
use crate::stepping::{step, want};
use atom_store::Step;
use checkpoint_text::checkpoint;
use gc_core::Core;
use std::alloc::Global;
use std::process::Abort;

/// The first checkpoint of each program of the tests of checkpoints.
pub const FIRST: &str = "checkpoint 1\nboard 0.1 0 0 0 0 0 0 0 0 0 0 0 0 0 0 0\n0.1 fields 1: 5\n";

/// More turns than any of these runs has.
const MOST: u32 = 1_000_000;

/// The words tell the last checkpoint by this text.
pub fn check_text(rt: &impl Abort, alloc: Global, core: &Core<'_>, text: &'static str) {
    let lines = checkpoint(alloc, core.words()).expect(rt, "no lines");
    assert_same(rt, &lines.as_slice(), &text.as_bytes());
}

/// One step of a worker, after which the words still tell the first checkpoint. A load changes none of them.
pub fn step_telling_first(rt: &impl Abort, alloc: Global, core: &mut Core<'_>, worker: u8) {
    let loads = matches!(want(rt, core, worker), Some(Step::Load(_)));
    step(rt, core, worker);
    if !loads {
        check_text(rt, alloc, core, FIRST);
    }
}

/// So many steps of each of these workers by turns, after each of which the words still tell the first checkpoint.
pub fn tell_first(rt: &impl Abort, alloc: Global, core: &mut Core<'_>, workers: &[u8], steps: u32) {
    for _ in 0..steps {
        for worker in workers {
            step_telling_first(rt, alloc, core, *worker);
        }
    }
}

/// All workers go on by turns until each mutator has its end, and after each step the words still tell the first checkpoint.
pub fn tell_first_to_the_end(rt: &impl Abort, alloc: Global, core: &mut Core<'_>) {
    for _ in 0..MOST {
        if core.all_ended() {
            return;
        }
        for worker in 0..core.workers() {
            step_telling_first(rt, alloc, core, worker);
        }
    }
    panic!(rt; "not all end");
}
