//! What is told of a heap and its workers once a run is over, by whoever has them.

ghost use Rattle.std.specs.Prelude.{◌≡◌, ◌<◌, OnOk, Some, length, option_map, slice_get, string_bytes};
ghost use Rattle.std.specs.List.{list_all};
ghost use Rattle.checkpoint_text.specs.Text.{AddsLinesOf};
ghost use Rattle.ael_jobs.specs.Runs.Verdict.{has_ended};
ghost use Rattle.ael_jobs.specs.Runs.Told.{RunReport};

use checkpoint_text::push_checkpoint;
use gc_core::Core;
use plain_heap::{End, NoMemory};
use plain_state::REGISTERS;

/// Tells of a heap and its workers. Mutators and workers are told of by their numbers, which begin with 0.
pub trait Report {
    /// All that it tells.
    ghost told: { Self → RunReport };

    /// The pages of a space.
    fn pages(&self) -> u32
        ensures { result ≡ (told self.now).dump.pages };

    /// How many mutators there are.
    fn mutators(&self) -> u8
        ensures seen { result ≡ length (told self.now).seen }
        ensures registers { result ≡ length (told self.now).dump.registers };

    /// How many workers there are.
    fn workers(&self) -> u8
        ensures { result ≡ length (told self.now).dump.kept };

    /// How many words a dump tells: those of the table but what checkpoints save.
    fn places(&self) -> usize
        ensures { result ≡ length (told self.now).dump.words };

    /// The numbers that a mutator has printed.
    fn printed(&self, m: u8) -> &[u64]
        requires { m < length (told self.now).seen }
        ensures { option_map (λ k. k.printed) (slice_get (told self.now).seen m) ≡ Some result.now };

    /// A mutator's end, where it has one.
    fn end(&self, m: u8) -> Option<End>
        requires { m < length (told self.now).seen }
        ensures { option_map (λ k. k.end) (slice_get (told self.now).seen m) ≡ Some result };

    /// Whether every mutator has its end.
    fn all_ended(&self) -> bool
        ensures { result ≡ list_all has_ended (told self.now).seen };

    /// How often the spaces were exchanged.
    fn cycles(&self) -> u32
        ensures { result ≡ (told self.now).cycles };

    /// The words that were copied since, where all are.
    fn live_words(&self) -> Option<u64>
        ensures { result ≡ (told self.now).live };

    /// The words in a mutator's registers.
    fn registers(&self, m: u8) -> [u64; REGISTERS]
        requires { m < length (told self.now).dump.registers }
        ensures { slice_get (told self.now).dump.registers m ≡ Some result };

    /// The header that a worker keeps while it copies a record, and the address that it has reserved and one more; 0 for none.
    fn kept(&self, w: u8) -> (u64, u64)
        requires { w < length (told self.now).dump.kept }
        ensures { slice_get (told self.now).dump.kept w ≡ Some (record { header = result.0; place = result.1 }) };

    /// A word that a dump tells.
    fn word(&self, place: usize) -> u64
        requires { place < length (told self.now).dump.words }
        ensures { slice_get (told self.now).dump.words place ≡ Some result };

    /// Adds the lines of the last checkpoint, as all words of the table say it.
    fn push_checkpoint(&self, out: &mut String) -> Result<(), NoMemory>
        ensures { OnOk result (AddsLinesOf (told self.now).words (string_bytes out.old) (string_bytes out.new)) };
}

impl<'p> Report for Core<'p> {
    ghost use Rattle.ael_jobs.specs.Runs.Told.{told_of};

    ghost told = { told_of };

    fn pages(&self) -> u32 {
        self.pages()
    }

    fn mutators(&self) -> u8 {
        self.mutators() as u8
    }

    fn workers(&self) -> u8 {
        self.workers()
    }

    fn places(&self) -> usize {
        self.table_words().len()
    }

    fn printed(&self, m: u8) -> &[u64] {
        self.outputs(m)
    }

    fn end(&self, m: u8) -> Option<End> {
        self.ended(m)
    }

    fn all_ended(&self) -> bool {
        self.all_ended()
    }

    fn cycles(&self) -> u32 {
        self.cycles()
    }

    fn live_words(&self) -> Option<u64> {
        self.live_words()
    }

    fn registers(&self, m: u8) -> [u64; REGISTERS] {
        self.regs(m)
    }

    fn kept(&self, w: u8) -> (u64, u64) {
        self.kept(w)
    }

    fn word(&self, place: usize) -> u64 {
        self.table_words()[place]
    }

    fn push_checkpoint(&self, out: &mut String) -> Result<(), NoMemory> {
        push_checkpoint(out, self.words())
    }
}
