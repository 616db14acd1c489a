//! A core, step by step. Each loop here gives up after more steps than any of these runs has.

use crate::asserting::assert_same;
use atom_store::Step;
use gc_core::{Config, Core, Stepped};
use mmu_model::read;
use mutator_asm::Program;
use plain_heap::End;
use program_text::assemble;
use space_map::{GateWord, PageWord};
use std::alloc::Global;
use std::process::Abort;

const MOST: u32 = 10_000_000;

/// The places of the gate's word, of TRACED, and of WEAK, the head of the chain of copied cells.
pub const GATE: usize = 0;

pub const TRACED: usize = 2;

pub const WEAK: usize = 6;

/// The places of how many pages of both spaces are in use, and of page 0's word, behind which stand those of the others.
pub const SIZE_0: usize = 12;

pub const SIZE_1: usize = 13;

const PAGE_0: usize = 16;

/// The smallest heap, without scanners.
pub const SMALLEST: Config = Config {
    pages: 4,
    limit: 4,
    scanners: 0,
    snap: false,
};

/// The program whose lines are separated by slashes.
pub fn program(rt: &impl Abort, alloc: Global, lines: &str) -> Program {
    let text = lines.replace(alloc, '/', "\n").expect(rt, "no text");
    assert!(rt; text.len() < 1 << 31);
    assemble(alloc, text.as_bytes()).expect(rt, "no program")
}

/// The program's mutators and the scanners before their first steps.
pub fn open<'p>(rt: &impl Abort, alloc: Global, program: &'p Program, config: &Config) -> Core<'p> {
    assert!(rt; config.scanners <= 8);
    Core::open(alloc, program, MOST, config).expect(rt, "no core")
}

/// One step of a worker that the core has.
pub fn step(rt: &impl Abort, core: &mut Core<'_>, worker: u8) -> Stepped {
    assert!(rt; worker < core.workers());
    core.step(worker)
}

/// What the worker would do next.
pub fn want(rt: &impl Abort, core: &Core<'_>, worker: u8) -> Option<Step> {
    assert!(rt; worker < core.workers());
    core.want(worker)
}

/// What the worker keeps of a record that it copies: the header, and the place reserved for the copy and one more.
pub fn kept(rt: &impl Abort, core: &Core<'_>, worker: u8) -> (u64, u64) {
    assert!(rt; worker < core.workers());
    core.kept(worker)
}

/// The word at a place of the table.
pub fn word(core: &Core<'_>, place: usize) -> u64 {
    core.words().get(place).copied().unwrap_or(0)
}

/// What a page's word says.
pub fn page_word(core: &Core<'_>, page: u32) -> Option<PageWord> {
    read(word(core, PAGE_0 + page as usize))
}

/// What the gate says.
pub fn gate(rt: &impl Abort, core: &Core<'_>) -> GateWord {
    GateWord::read(word(core, GATE)).expect(rt, "the gate's word says nothing")
}

/// What mutator m has printed, and its end.
pub fn printed<'a>(rt: &impl Abort, core: &'a Core<'_>, m: u8) -> (&'a [u64], Option<End>) {
    assert!(rt; usize::from(m) < core.mutators());
    (core.outputs(m), core.ended(m))
}

/// What a worker is stepped up to.
#[derive(Clone, Copy, Debug)]
pub enum Goal {
    /// A flip is requested.
    Request,
    /// The spaces were exchanged so often.
    Cycle(u32),
    /// The word at this place is this.
    Word(usize, u64),
    /// The worker is about to make this step.
    Want(Step),
    /// It has made a record busy.
    Busy,
    /// It does nothing any more.
    Idle,
}

fn is_reached(rt: &impl Abort, core: &Core<'_>, worker: u8, goal: Goal) -> bool {
    match goal {
        Goal::Request => gate(rt, core).request,
        Goal::Cycle(cycles) => core.cycles() >= cycles,
        Goal::Word(place, wanted) => word(core, place) == wanted,
        Goal::Want(wanted) => want(rt, core, worker) == Some(wanted),
        Goal::Busy => kept(rt, core, worker).0 != 0,
        Goal::Idle => want(rt, core, worker).is_none(),
    }
}

/// Steps the worker until this is so.
pub fn until(rt: &impl Abort, core: &mut Core<'_>, worker: u8, goal: Goal) {
    for _ in 0..MOST {
        if is_reached(rt, core, worker, goal) {
            return;
        }
        step(rt, core, worker);
    }
    panic!(rt; "worker {worker} never comes to {goal:?}");
}

/// Steps the worker until it has executed so many more instructions.
pub fn executes(rt: &impl Abort, core: &mut Core<'_>, worker: u8, count: u32) {
    let mut left = count;
    for _ in 0..MOST {
        if left == 0 {
            return;
        }
        if let Stepped::Effect(_) = step(rt, core, worker) {
            left -= 1;
        }
    }
    panic!(rt; "mutator {worker} executes too few");
}

/// Steps the worker up to the next step that isn't a mere move, and tells what that was.
pub fn next_told(rt: &impl Abort, core: &mut Core<'_>, worker: u8) -> Stepped {
    for _ in 0..MOST {
        let told = step(rt, core, worker);
        if told != Stepped::Moved {
            return told;
        }
    }
    panic!(rt; "worker {worker} only moves")
}

/// Steps the worker until it is about to exchange the word at this place, and tells which old word it expects there.
pub fn until_exchange(rt: &impl Abort, core: &mut Core<'_>, worker: u8, place: usize) -> u64 {
    for _ in 0..MOST {
        match want(rt, core, worker) {
            Some(Step::Exchange(at, old, _)) if at == place => return old,
            _ => step(rt, core, worker),
        };
    }
    panic!(rt; "worker {worker} never exchanges the word at {place}")
}

/// The worker makes its exchange of the word at this place, which loses.
pub fn loses(rt: &impl Abort, core: &mut Core<'_>, worker: u8, place: usize) {
    let before = word(core, place);
    assert!(rt;
        until_exchange(rt, core, worker, place) != before,
        "{worker} would win"
    );
    assert_same(rt, &step(rt, core, worker), &Stepped::Moved);
    assert_same(rt, &word(core, place), &before);
}

/// Steps the first so many mutators by turns until all are of this epoch.
pub fn until_all_came(rt: &impl Abort, core: &mut Core<'_>, mutators: u8, epoch: u32) {
    for _ in 0..MOST {
        for m in 0..mutators {
            let gate = gate(rt, core);
            if gate.epoch == epoch && gate.behind == 0 {
                return;
            }
            step(rt, core, m);
        }
    }
    panic!(rt; "not all come to epoch {epoch}");
}

/// Steps all workers so often by turns, but for the one that sleeps.
pub fn turns(rt: &impl Abort, core: &mut Core<'_>, sleeper: Option<u8>, count: u32) {
    for _ in 0..count {
        for worker in 0..core.workers() {
            if sleeper != Some(worker) {
                step(rt, core, worker);
            }
        }
    }
}

/// Steps all workers by turns until each mutator has its end.
pub fn by_turns_to_the_end(rt: &impl Abort, core: &mut Core<'_>) {
    for _ in 0..MOST {
        if core.all_ended() {
            return;
        }
        turns(rt, core, None, 1);
    }
    panic!(rt; "not all end");
}
