//! What workers are made to do, one act after another, and what is found meanwhile.

use crate::asserting::assert_same;
use crate::stepping::{
    GATE, Goal, SIZE_0, by_turns_to_the_end, executes, loses, next_told, open, printed, program,
    step, turns, until, until_all_came, until_exchange, want, word,
};
use crate::telling::{check_text, tell_first, tell_first_to_the_end};
use atom_store::Step;
use gc_core::{Config, Core, Stepped};
use plain_heap::End;
use std::alloc::Global;
use std::process::Abort;

/// The step that a worker wants, and what that tells.
pub type Event = (Step, Stepped);

/// The worker that makes a step, the step that it wants, what that tells, and the gate's word after it.
pub type Passage = (u8, Step, Stepped, u64);

/// What is done to a core, or found of it.
#[derive(Clone, Copy)]
pub enum Act {
    /// The worker executes so many more instructions.
    Executes(u8, u32),
    /// The worker goes on until this is so.
    Until(u8, Goal),
    /// The worker goes on up to its exchange of the word at this place, and makes it.
    Exchanges(u8, usize),
    /// So it does, and loses.
    Loses(u8, usize),
    /// The worker makes just these steps, which tell this.
    Makes(u8, &'static [Event]),
    /// These workers make just these steps, and the gate's word is this after each.
    Pass(&'static [Passage]),
    /// The worker goes on up to its next step that isn't a mere move, which tells this.
    Tells(u8, Stepped),
    /// The first so many mutators go on by turns until all are of this epoch.
    Come(u8, u32),
    /// All workers, but for the one that sleeps, make so many steps by turns.
    Turns(Option<u8>, u32),
    /// All workers go on by turns until each mutator has its end.
    ToTheEnd,
    /// Each of these workers makes so many steps by turns, and after each the words still tell the first checkpoint.
    TellFirst(&'static [u8], u32),
    /// All workers go on by turns until each mutator has its end, and after each step the words still tell the first checkpoint.
    TellFirstToTheEnd,
    /// The words tell the last checkpoint by this text.
    Checkpoint(&'static str),
    /// The mutator has printed these numbers, and has this end.
    Printed(u8, &'static [u64], Option<End>),
    /// The word at this place is this.
    Holds(usize, u64),
    /// The spaces were exchanged so often.
    Cycles(u32),
    /// So many words were copied in this epoch, if it is traced.
    Live(Option<u64>),
    /// It is this epoch, of whose space so many pages are in use.
    InUse(u32, u64),
}

/// The worker makes just these steps, one after another.
fn makes(rt: &impl Abort, core: &mut Core<'_>, worker: u8, events: &[Event]) {
    for (number, event) in events.iter().enumerate() {
        let (wanted, told) = *event;
        let wants = want(rt, core, worker);
        let tells = step(rt, core, worker);
        assert_same(rt, &(number, wants, tells), &(number, Some(wanted), told));
    }
}

/// These workers make just these steps, one after another, and the gate's word is this after each.
fn pass(rt: &impl Abort, core: &mut Core<'_>, passages: &[Passage]) {
    for (number, passage) in passages.iter().enumerate() {
        let (worker, wanted, told, gate) = *passage;
        let wants = want(rt, core, worker);
        let tells = step(rt, core, worker);
        assert_same(
            rt,
            &(number, wants, tells, word(core, GATE)),
            &(number, Some(wanted), told, gate),
        );
    }
}

/// The pages in use of the space of the core's epoch.
fn in_use(core: &Core<'_>) -> u64 {
    word(core, SIZE_0 + core.cycles() as usize % 2)
}

/// The act comes to pass.
fn perform_one(rt: &impl Abort, alloc: Global, core: &mut Core<'_>, act: &Act) {
    match *act {
        Act::Executes(m, count) => executes(rt, core, m, count),
        Act::Until(worker, goal) => until(rt, core, worker, goal),
        Act::Exchanges(worker, place) => {
            until_exchange(rt, core, worker, place);
            step(rt, core, worker);
        }
        Act::Loses(worker, place) => loses(rt, core, worker, place),
        Act::Makes(worker, events) => makes(rt, core, worker, events),
        Act::Pass(passages) => pass(rt, core, passages),
        Act::Tells(worker, told) => {
            assert_same(rt, &(worker, next_told(rt, core, worker)), &(worker, told));
        }
        Act::Come(mutators, epoch) => until_all_came(rt, core, mutators, epoch),
        Act::Turns(sleeper, count) => turns(rt, core, sleeper, count),
        Act::ToTheEnd => by_turns_to_the_end(rt, core),
        Act::TellFirst(workers, steps) => tell_first(rt, alloc, core, workers, steps),
        Act::TellFirstToTheEnd => tell_first_to_the_end(rt, alloc, core),
        Act::Checkpoint(text) => check_text(rt, alloc, core, text),
        Act::Printed(m, numbers, end) => {
            assert_same(rt, &(m, printed(rt, core, m)), &(m, (numbers, end)));
        }
        Act::Holds(place, wanted) => {
            assert_same(rt, &(place, word(core, place)), &(place, wanted));
        }
        Act::Cycles(cycles) => assert_same(rt, &core.cycles(), &cycles),
        Act::Live(live) => assert_same(rt, &core.live_words(), &live),
        Act::InUse(epoch, pages) => {
            assert_same(rt, &(core.cycles(), in_use(core)), &(epoch, pages));
        }
    }
}

/// The acts come to pass, one after another.
pub fn perform(rt: &impl Abort, alloc: Global, core: &mut Core<'_>, acts: &[Act]) {
    for act in acts {
        perform_one(rt, alloc, core, act);
    }
}

/// In a new heap of this program these lists of acts come to pass, one after another.
pub fn play(rt: &impl Abort, alloc: Global, lines: &str, config: &Config, lists: &[&[Act]]) {
    let program = program(rt, alloc, lines);
    let mut core = open(rt, alloc, &program, config);
    for acts in lists {
        perform(rt, alloc, &mut core, acts);
    }
}
