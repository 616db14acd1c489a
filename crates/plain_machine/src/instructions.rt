//! The instructions, as a mutator executes them on the plain heap.

pub mod numbers;
pub mod places;
pub mod values;

ghost use Rattle.std.specs.Prelude.{◌≡◌, ◌<◌, ◌+◌, ◌^◌, Err, length, IsTrue};
ghost use Rattle.plain_machine.specs.declared.stop.Stop.TheVariants.{OutOfMemory};
ghost use Rattle.plain_heap.specs.Action.{action};
ghost use Rattle.plain_heap.specs.Call.{call};
ghost use Rattle.plain_heap.specs.Memory.{takes_memory};
ghost use Rattle.plain_machine.specs.Outcome.{IsTried};

use crate::effects::perform;
use crate::heap::PlainHeap;
use crate::instructions::numbers::{compute, jump_to, print};
use crate::instructions::places::{
    allocate, allocate_mixed, exchange, get, load, make_cell, measure, put, store, swap,
};
use crate::instructions::values::{are_same, is_reference, target_if_zero};
use crate::mutator::PlainMutator;
use crate::stop::Stop;
use mutator_asm::Instr;
use plain_heap::Action;
use plain_state::{End, Kind, Operation, Value};
use std::alloc::Global;

/// What an instruction does, as far as the registers tell.
#[tactic(auto, unfolding(plain_heap::specs::Action::action))]
pub fn action_of(mutator: &PlainMutator, instr: Instr) -> Result<Action, End>
    ensures { result ≡ action mutator.now instr }
{
    match instr {
        Instr::Li(d, number) => Ok(Action::Sets(d, Value::Number(number))),
        Instr::Mov(d, a) => Ok(Action::Sets(d, mutator.register(a))),
        Instr::Add(d, a, b) => compute(mutator, Operation::Add, d, a, b),
        Instr::Sub(d, a, b) => compute(mutator, Operation::Sub, d, a, b),
        Instr::Mul(d, a, b) => compute(mutator, Operation::Mul, d, a, b),
        Instr::Div(d, a, b) => compute(mutator, Operation::Div, d, a, b),
        Instr::Rem(d, a, b) => compute(mutator, Operation::Rem, d, a, b),
        Instr::Lt(d, a, b) => compute(mutator, Operation::Lt, d, a, b),
        Instr::Eq(d, a, b) => Ok(Action::Sets(d, are_same(mutator, a, b))),
        Instr::Jmp(target) => Ok(Action::Jumps(u64::from(target))),
        Instr::Jz(a, target) => Ok(Action::Jumps(target_if_zero(mutator, a, target))),
        Instr::Jal(d, target) => Ok(Action::Links(d, u64::from(target))),
        Instr::Jr(a) => jump_to(mutator, a),
        Instr::New(d, x) => allocate(mutator, Kind::Fields, d, x),
        Instr::Raw(d, x) => allocate(mutator, Kind::Raw, d, x),
        Instr::Mix(d, fields, raw) => allocate_mixed(mutator, d, fields, raw),
        Instr::Weak(d, a) => make_cell(mutator, d, a),
        Instr::Ld(d, a, x) => load(mutator, d, a, x),
        Instr::St(a, x, b) => store(mutator, a, x, b),
        Instr::Cas(d, a, x, b, c) => exchange(mutator, d, a, x, b, c),
        Instr::Len(d, a) => measure(mutator, d, a),
        Instr::Isp(d, a) => Ok(Action::Sets(d, is_reference(mutator, a))),
        Instr::Get(d, x) => get(mutator, d, x),
        Instr::Put(x, a) => put(mutator, x, a),
        Instr::Swap(d, x) => swap(mutator, d, x),
        Instr::Out(a) => print(mutator, a),
        Instr::Snap => Ok(Action::Snaps),
        Instr::Halt => Err(End::Halt),
    }
}

/// Mutator m executes an instruction. Where it stops, nothing changes.
#[tactic(auto, unfolding(plain_heap::specs::Call::call))]
pub fn execute(
    alloc: Global,
    heap: &mut PlainHeap,
    mutator: &mut PlainMutator,
    m: u8,
    instr: Instr,
) -> Result<(), Stop>
    requires has_records { m < length heap.old.records }
    requires has_turns { mutator.old.executed + 1 < 2 ^ 32 }
    ensures tried { IsTried (call m heap.old mutator.old instr) result heap.old mutator.old heap.new mutator.new }
    ensures takes_memory { result ≡ Err OutOfMemory → IsTrue (takes_memory (action mutator.old instr)) }
    ensures as_many { length heap.new.records ≡ length heap.old.records }
{
    let action = action_of(mutator, instr)?;
    perform(alloc, heap, mutator, m, action)
}
