//! A core: the workers and the words that they share, stepped by whoever has the schedule.

ghost use Rattle.std.specs.Prelude.{◌≡◌, ◌≢◌, ◌<◌, ℕ};
ghost use Rattle.plain_state.specs.declared.end.End.{End};
ghost use Rattle.gc_core.specs.Core.{workers_of};
ghost use Rattle.gc_core.specs.Event.{core_after, event_of};
ghost use Rattle.gc_core.specs.Run.{all_ended};

use crate::slot::Slot;
use atom_store::PlainAtoms;
use gc_worker::Stepped;
use mutator_asm::Program;
use space_map::Spaces;
use std::marker::Model;

/// The workers of a program, the mutators first, and the words that they share.
#[derive(Debug, Drop)]
pub struct Core<'p> {
    /// The words. First, so that the address of their vector is the core's, which is in a register anyway.
    pub(crate) atoms: PlainAtoms,
    pub(crate) program: &'p Program,
    pub(crate) turns: u32,
    pub(crate) spaces: Spaces,
    pub(crate) slots: Vec<Slot>,
}

impl<'p> Model for Core<'p> {
    ghost use Rattle.std.specs.Prelude.{◌+◌, ◌≤◌, length, vec_len};
    ghost use Rattle.space_map.specs.declared.spaces.TheConstants.{MOST_MUTATORS, MOST_SCANNERS};
    ghost use Rattle.gc_core.specs.Core.{CoreState};

    ghost Value = { CoreState };

    ghost use Rattle.gc_core.specs.Inside.{core_in};
    ghost use Rattle.gc_core.specs.Law.{IsLawful};

    ghost view = { core_in };

    ghost invariant = { λ c. (vec_len c.slots ≤ MOST_MUTATORS + MOST_SCANNERS) × (length c.program.now.code ≤ vec_len c.slots) × IsLawful (core_in c) };
}

impl<'p> Core<'p> {
    /// One event of a worker: its next atomic step. It takes no memory.
    #[inline(always)]
    pub fn step(&mut self, worker: u8) -> Stepped
        requires { worker < workers_of self.old }
        ensures told { result ≡ (event_of self.old worker).told }
        ensures after { self.new ≡ core_after self.old worker }
        ensures ends_are_told { ((m : ℕ) (why : End) → result ≢ Stepped.Ended m why) → all_ended self.new ≡ all_ended self.old }
        ensures workers { workers_of self.new ≡ workers_of self.old }
    {
        let slot = &mut self.slots[worker as usize];
        slot.ready(self.program, self.turns, worker);
        slot.step(&mut self.atoms)
    }
}
