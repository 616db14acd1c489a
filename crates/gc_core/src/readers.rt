//! What a core tells of itself. Nothing here takes memory.

ghost use Rattle.std.specs.Prelude.{◌≡◌, ◌<◌, ◌≤◌, length, Some, option_map, slice_get};
ghost use Rattle.std.specs.List.{list_all};
ghost use Rattle.std.specs.Option.{is_some};
ghost use Rattle.space_map.specs.declared.spaces.TheConstants.{MOST_MUTATORS};
ghost use Rattle.gc_worker.specs.Steps.Stepped.{header_kept, place_kept};
ghost use Rattle.gc_worker.specs.Steps.Wanted.{wanted};
ghost use Rattle.gc_core.specs.Core.{workers_of};
ghost use Rattle.gc_core.specs.Dumped.{dumped};
ghost use Rattle.gc_core.specs.Event.{ready};
ghost use Rattle.gc_core.specs.Readers.{seen_of, registers_in, kept_in, cycles_of, live_of};
ghost use Rattle.gc_core.specs.Run.{all_ended};

use crate::machine::Core;
use crate::slot::Slot;
use atom_store::Step;
use gc_worker::{epoch_said, live_said};
use plain_heap::End;
use plain_state::REGISTERS;

impl Slot {
    pub(crate) fn regs(&self) -> [u64; REGISTERS]
        ensures { result ≡ self.now.registers }
    {
        self.worker.regs()
    }

    pub(crate) fn outputs(&self) -> &[u64]
        ensures { result.now ≡ self.now.account.printed }
    {
        self.worker.outputs()
    }

    pub(crate) fn ended(&self) -> Option<End>
        ensures { result ≡ self.now.account.end }
    {
        self.worker.ended()
    }

    pub(crate) fn kept(&self) -> (u64, u64)
        ensures header { result.0 ≡ header_kept self.now.stage }
        ensures place { result.1 ≡ place_kept self.now.stage }
    {
        self.worker.kept()
    }
}

/// Whether all of these have their ends.
fn have_ended(slots: &[Slot]) -> bool
    ensures { result ≡ list_all (λ x. is_some x.account.end) slots.now }
{
    slots.iter().all(|slot| slot.ended().is_some())
}

impl<'p> Core<'p> {
    /// How many workers there are: the mutators, numbered from 0, then the scanners.
    pub fn workers(&self) -> u8
        ensures exact { result ≡ workers_of self.now }
        ensures kept { result ≡ length (kept_in self.now) }
    {
        self.slots.len() as u8
    }

    /// How many mutators there are.
    pub fn mutators(&self) -> usize
        ensures exact { result ≡ length (seen_of self.now) }
        ensures registers { result ≡ length (registers_in self.now) }
        ensures small { result ≤ MOST_MUTATORS }
    {
        self.program.code.len()
    }

    /// The most pages of a space.
    pub fn pages(&self) -> u32
        ensures { result ≡ self.now.heap.pages }
    {
        self.spaces.pages()
    }

    /// A worker's next step, where its event is not idle.
    pub fn want(&self, worker: u8) -> Option<Step>
        requires { worker < workers_of self.now }
        ensures { result ≡ wanted (ready self.now worker) }
    {
        self.slots[worker as usize].want()
    }

    /// Whether every mutator has its end.
    pub fn all_ended(&self) -> bool
        ensures { result ≡ all_ended self.now }
    {
        have_ended(&self.slots[..self.program.code.len()])
    }

    /// The words that the workers share.
    pub fn words(&self) -> &[u64]
        ensures { result.now ≡ self.now.heap.words }
    {
        self.atoms.words()
    }

    /// The words that a dump shows: all but those that checkpoints save.
    pub fn table_words(&self) -> &[u64]
        ensures { result.now ≡ (dumped self.now).words }
    {
        &self.words()[..self.spaces.table_len()]
    }

    /// The words in a mutator's registers.
    pub fn regs(&self, m: u8) -> [u64; REGISTERS]
        requires { m < length (seen_of self.now) }
        ensures { slice_get (registers_in self.now) m ≡ Some result }
    {
        self.slots[m as usize].regs()
    }

    /// The header that a worker keeps while it copies a record, and the address that it has reserved and one more; 0 for none.
    pub fn kept(&self, w: u8) -> (u64, u64)
        requires { w < workers_of self.now }
        ensures { slice_get (kept_in self.now) w ≡ Some (record { header = result.0; place = result.1 }) }
    {
        self.slots[w as usize].kept()
    }

    /// The numbers that a mutator has printed.
    pub fn outputs(&self, m: u8) -> &[u64]
        requires { m < length (seen_of self.now) }
        ensures { option_map (λ k. k.printed) (slice_get (seen_of self.now) m) ≡ Some result.now }
    {
        self.slots[m as usize].outputs()
    }

    /// A mutator's end, where it has one.
    pub fn ended(&self, m: u8) -> Option<End>
        requires { m < length (seen_of self.now) }
        ensures { option_map (λ k. k.end) (slice_get (seen_of self.now) m) ≡ Some result }
    {
        self.slots[m as usize].ended()
    }

    /// How often the spaces were exchanged, which is the epoch.
    pub fn cycles(&self) -> u32
        ensures { result ≡ cycles_of self.now }
    {
        epoch_said(self.atoms.words()[self.spaces.gate_place()])
    }

    /// The words copied in this epoch, where it is traced.
    pub fn live_words(&self) -> Option<u64>
        ensures { result ≡ live_of self.now }
    {
        let epoch = self.cycles();
        let words = self.atoms.words();
        let area = self.spaces.area_place(self.spaces.to_space(epoch));
        live_said(epoch, words[self.spaces.traced_place()], words[area])
    }
}
