//! What a mutator does next.

ghost use Rattle.std.specs.Prelude.{◌≡◌, ◌<◌, ◌≤◌, ◌^◌, ◌+◌, length, Ok, Err, IfErr, IfSome, OnOk, OnErr, option_map};
ghost use Rattle.plain_state.specs.Layout.{size_of, values_at, words_behind};
ghost use Rattle.plain_machine.specs.declared.stop.Stop.TheVariants.{OutOfMemory};
ghost use Rattle.plain_heap.specs.Memory.{TurnTakesMemory};
ghost use Rattle.plain_machine.specs.Outcome.{Leaves, StopsBy};
ghost use Rattle.plain_heap.specs.Step.{fetch, executes, new_record, pages_for, asked_if};

use crate::heap::PlainHeap;
use crate::instructions::{action_of, execute};
use crate::mutator::PlainMutator;
use crate::stop::Stop;
use mutator_asm::{Code, Instr};
use plain_heap::Action;
use plain_state::{End, Kind, PAGE_WORDS};
use std::alloc::Global;

/// The instruction that mutator m executes next, or the end that stands in its place.
fn fetch(code: &Code, turns: u32, m: u8, mutator: &PlainMutator) -> Result<Instr, End>
    ensures exact { result ≡ fetch code.now turns m mutator.now }
    ensures has_turns { OnOk result (mutator.now.executed < turns) }
{
    if turns <= mutator.executed() {
        return Err(End::TurnsOut);
    }
    code.instr(m, mutator.counter()).ok_or(End::JumpOut)
}

/// Mutator m, which has no end, executes its next instruction. Where it stops, nothing changes.
pub fn take_turn(
    alloc: Global,
    heap: &mut PlainHeap,
    mutator: &mut PlainMutator,
    code: &Code,
    turns: u32,
    m: u8,
) -> Result<(), Stop>
    requires { m < length heap.old.records }
    ensures executed { OnOk result (Leaves (executes code.now turns m heap.old mutator.old) heap.new mutator.new) }
    ensures stopped { IfErr result (StopsBy (executes code.now turns m heap.old mutator.old)) }
    ensures takes_memory { result ≡ Err OutOfMemory → TurnTakesMemory code.now turns m heap.old mutator.old }
    ensures as_many { length heap.new.records ≡ length heap.old.records }
    ensures heap_unchanged { OnErr result (heap.new ≡ heap.old) }
    ensures mutator_unchanged { OnErr result (mutator.new ≡ mutator.old) }
{
    let instr = fetch(code, turns, m, mutator)?;
    execute(alloc, heap, mutator, m, instr)
}

/// The words of the record that an instruction would allocate, with its header.
fn size_allocated(mutator: &PlainMutator, instr: Instr) -> Option<usize>
    ensures exact { result ≡ option_map size_of (new_record mutator.now instr) }
    ensures short { IfSome result (λ size. size ≤ 2 ^ 17) }
{
    match action_of(mutator, instr) {
        Ok(Action::Makes(kind, _, len, _)) => Some(usize::from(len) + words_beside(kind)),
        _ => None,
    }
}

/// The words of a record of this kind before and behind its values.
fn words_beside(kind: Kind) -> usize
    ensures exact { result ≡ values_at kind + words_behind kind }
    ensures few { result ≤ 2 }
{
    match kind {
        Kind::Fields | Kind::Raw => 1,
        Kind::Mixed(_) | Kind::Weak => 2,
    }
}

/// The pages that so many words take.
fn pages_for(size: usize) -> u32
    requires { size ≤ 2 ^ 17 }
    ensures { result ≡ pages_for size }
{
    size.div_ceil(PAGE_WORDS) as u32
}

/// The pages that the record would take which mutator m's next step would allocate.
pub fn asked(code: &Code, turns: u32, m: u8, mutator: &PlainMutator) -> Option<u32>
    ensures { result ≡ asked_if code.now turns m mutator.now mutator.now.end }
{
    if mutator.end().is_some() {
        return None;
    }
    let instr = fetch(code, turns, m, mutator).ok()?;
    let size = size_allocated(mutator, instr)?;
    Some(pages_for(size))
}
