//! The heap of a run on threads once all its workers have left it.

use crate::runs::report::Report;
use ael_threads::Outputs;
use checkpoint_text::push_checkpoint;
use plain_heap::{End, NoMemory};
use plain_state::REGISTERS;
use space_map::MOST_MUTATORS;
use std::marker::Model;

/// What is told of the heap.
#[derive(Drop)]
pub struct ClosedHeap {
    outputs: Outputs,
}

impl Model for ClosedHeap {
    ghost use Rattle.ael_jobs.specs.Runs.ClosedHeap.{IsWholeHeap, told_by};
    ghost use Rattle.ael_jobs.specs.Runs.Told.{RunReport};

    ghost Value = { RunReport };

    ghost view = { λ c. told_by c.outputs };

    ghost invariant = { λ c. IsWholeHeap c.outputs };
}

impl ClosedHeap {
    ghost use Rattle.std.specs.Prelude.{◌≡◌};
    ghost use Rattle.ael_jobs.specs.Runs.ClosedHeap.{IsWholeHeap, told_by};

    pub fn new(outputs: Outputs) -> ClosedHeap
        requires { IsWholeHeap outputs }
        ensures { result ≡ told_by outputs }
    {
        ClosedHeap { outputs }
    }
}

impl Report for ClosedHeap {
    ghost told = { λ told. told };

    fn pages(&self) -> u32 {
        self.outputs.spaces.pages()
    }

    fn mutators(&self) -> u8 {
        self.outputs.mutators.len() as u8
    }

    fn workers(&self) -> u8 {
        self.outputs.kept.len() as u8
    }

    fn places(&self) -> usize {
        self.outputs.spaces.table_len()
    }

    fn printed(&self, m: u8) -> &[u64] {
        &self.outputs.mutators[m as usize].numbers
    }

    fn end(&self, m: u8) -> Option<End> {
        Some(self.outputs.mutators[m as usize].end)
    }

    /// A run on threads tells the end of each.
    fn all_ended(&self) -> bool {
        prove!(self.outputs.mutators.len() <= MOST_MUTATORS as usize);
        true
    }

    fn cycles(&self) -> u32 {
        self.outputs.cycles
    }

    fn live_words(&self) -> Option<u64> {
        self.outputs.live
    }

    fn registers(&self, m: u8) -> [u64; REGISTERS] {
        self.outputs.regs[m as usize]
    }

    fn kept(&self, w: u8) -> (u64, u64) {
        self.outputs.kept[w as usize]
    }

    fn word(&self, place: usize) -> u64 {
        self.outputs.words.word(place)
    }

    /// The words are copied first, since they lie apart.
    fn push_checkpoint(&self, out: &mut String) -> Result<(), NoMemory> {
        let words = self.outputs.words.to_vec(*out.allocator())?;
        push_checkpoint(out, &words)
    }
}
