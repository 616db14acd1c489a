//! The state of the plain machine, and its step.

ghost use Rattle.std.specs.Prelude.{◌≡◌, ◌<◌, fold, length, Some, IfOk, OnOk, OnErr, option_copied, option_map, replicate, slice_get};
ghost use Rattle.std.specs.Option.{option_map_or};
ghost use Rattle.plain_state.specs.Consistent.{IsConsistent};
ghost use Rattle.plain_state.specs.State.{record_of};
ghost use Rattle.plain_state.specs.Writing.{with_heap};
ghost use Rattle.plain_heap.specs.Emptied.{cells_to_empty, emptied_cell};
ghost use Rattle.plain_heap.specs.Order.{fresh, opening};
ghost use Rattle.plain_heap.specs.Memory.{StepTakesMemory};
ghost use Rattle.plain_heap.specs.Step.{stepped, asked_by, ended};

use crate::heap::PlainHeap;
use crate::heap::record::PlainRecord;
use crate::mutator::PlainMutator;
use crate::search::mark_reachable;
use crate::step::{asked, take_turn};
use crate::stop::Stop;
use mutator_asm::{Code, Program};
use plain_state::{End, Identity, NoMemory, Value};
use std::alloc::Global;
use std::marker::Model;

/// A state of the plain machine: the heap, and the mutators by their numbers. Contracts see it so.
#[derive(Debug, Drop)]
pub struct PlainState {
    heap: PlainHeap,
    mutators: Vec<PlainMutator>,
}

impl Model for PlainState {
    ghost use Rattle.std.specs.Prelude.{◌≡◌, length};
    ghost use Rattle.plain_state.specs.State.{Plain};

    ghost Value = { Plain };

    ghost view = { λ s. record { heap = s.heap; mutators = s.mutators.items } };

    ghost invariant = { λ s. length s.heap.records ≡ length s.mutators.items };
}

/// So many mutators before their first instruction.
fn fresh_mutators(alloc: Global, count: usize) -> Result<Vec<PlainMutator>, NoMemory>
    ensures { IfOk result (λ mutators. mutators.items ≡ replicate count fresh) }
{
    let mut mutators = Vec::new(alloc);
    for _mutator in 0..count {
        mutators.push(PlainMutator::new(alloc))?;
    }
    Ok(mutators)
}

impl PlainState {
    /// The state in which a program begins.
    pub fn open(alloc: Global, p: &Program) -> Result<PlainState, NoMemory>
        ensures { IfOk result (λ s. s ≡ opening p.now.code) }
    {
        let count = p.code.len();
        let heap = PlainHeap::new(alloc, count)?;
        let mutators = fresh_mutators(alloc, count)?;
        Ok(PlainState { heap, mutators })
    }

    /// How many mutators there are.
    pub fn mutators(&self) -> usize
        ensures { result ≡ length self.now.mutators }
    {
        self.mutators.len()
    }

    /// The numbers that mutator m has printed.
    pub fn printed(&self, m: u8) -> &[u64]
        requires { m < length self.now.mutators }
        ensures { option_map (λ k. k.printed) (slice_get self.now.mutators m) ≡ Some result.now }
    {
        self.mutators[m as usize].printed()
    }

    /// The end of mutator m, where it has one.
    pub fn ended(&self, m: u8) -> Option<End>
        requires { m < length self.now.mutators }
        ensures { option_map (λ k. k.end) (slice_get self.now.mutators m) ≡ Some result }
    {
        self.mutators[m as usize].end()
    }

    /// The registers of mutator m.
    pub fn registers(&self, m: u8) -> &[Value]
        requires { m < length self.now.mutators }
        ensures { option_map (λ k. k.registers) (slice_get self.now.mutators m) ≡ Some result.now }
    {
        self.mutators[m as usize].registers()
    }

    /// The words of the board.
    pub fn board(&self) -> &[Value]
        ensures { result.now ≡ self.now.heap.board }
    {
        self.heap.board()
    }

    /// The record with an identity, if it is there.
    pub fn record(&self, i: Identity) -> Option<&PlainRecord>
        ensures { option_copied result ≡ record_of self.now.heap i }
    {
        self.heap.record(i)
    }

    /// The cells that refer to what isn't reachable. If there are no cells, no memory is taken.
    pub(crate) fn cells_to_empty(&self, alloc: Global) -> Result<Vec<Identity>, NoMemory>
        requires consistent { IsConsistent self.now }
        requires few { length self.now.mutators < 256 }
        ensures { IfOk result (λ cells. cells.items ≡ cells_to_empty self.now) }
    {
        if !self.heap.has_cells() {
            return Ok(Vec::new(alloc));
        }
        let marks = mark_reachable(alloc, &self.heap, self.mutators.as_slice())?;
        self.heap.lost_cells(alloc, &marks)
    }

    /// Empties these cells.
    pub(crate) fn empty(&mut self, cells: &[Identity])
        ensures { self.new ≡ with_heap self.old (fold emptied_cell self.old.heap cells.now) }
    {
        self.heap.empty_all(cells);
    }

    /// The mutators by their numbers.
    pub(crate) fn all(&self) -> &[PlainMutator]
        ensures { result.now ≡ self.now.mutators }
    {
        self.mutators.as_slice()
    }

    /// The pages that the record would take which mutator m's next step would allocate.
    #[tactic(auto, unfolding(plain_heap::specs::Step::asked_by))]
    pub(crate) fn asked_by(&self, code: &Code, turns: u32, m: u8) -> Option<u32>
        ensures { result ≡ asked_by code.now turns self.now m }
    {
        let mutator = self.mutators.get(m as usize)?;
        asked(code, turns, m, mutator)
    }

    /// Mutator m, where there is one, gets its end.
    pub(crate) fn end(&mut self, m: u8, why: End)
        ensures { self.new ≡ option_map_or
            (λ k. ended self.old m k why) (slice_get self.old.mutators m) self.old }
    {
        if let Some(mutator) = self.mutators.get_mut(m as usize) {
            mutator.set_end(why);
        }
    }
}

/// A step of mutator m, which executes at most so many instructions. Where the program or the state
/// has no such mutator, nothing changes; nor where there is no memory for the record or the number
/// that the step adds, or for the checkpoint that it begins.
pub fn plain_step(
    alloc: Global,
    s: &mut PlainState,
    p: &Program,
    turns: u32,
    m: u8,
) -> Result<(), NoMemory>
    ensures ok { OnOk result (s.new ≡ stepped p.now.code turns s.old m) }
    ensures err { OnErr result (s.new ≡ s.old) }
    ensures no_memory { OnErr result (StepTakesMemory p.now.code turns s.old m) }
{
    if m as usize >= p.code.len() {
        return Ok(());
    }
    let Some(mutator) = s.mutators.get_mut(m as usize) else {
        return Ok(());
    };
    if mutator.end().is_some() {
        return Ok(());
    }
    match take_turn(alloc, &mut s.heap, mutator, &p.code, turns, m) {
        Ok(()) => Ok(()),
        Err(Stop::Ended(why)) => {
            mutator.set_end(why);
            Ok(())
        }
        Err(Stop::OutOfMemory) => Err(NoMemory),
    }
}
