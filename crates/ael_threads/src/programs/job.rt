//! What all threads of a run share.

ghost use Rattle.std.specs.Prelude.{◌≡◌, ◌≤◌, true};
ghost use Rattle.gc_worker.specs.declared.config.TheConstants.{MOST_TURNS};

use crate::shared::Shared;
use mutator_asm::Program;
use std::marker::Model;

/// What the threads of a run share: the heap, the program, the most instructions that a mutator may execute of it, and what
/// they wait by and are paced by.
#[derive(Drop)]
pub(crate) struct Job<'a, R, P> {
    pub rt: &'a R,
    pub pace: &'a P,
    pub heap: &'a Shared,
    pub program: &'a Program,
    pub turns: u32,
    pub ghost few: { turns ≤ MOST_TURNS },
    pub ghost prints: { heap.now.table.shared.key.prints ≡ true },
}

impl<'a, R, P> Model for Job<'a, R, P> {
    ghost use Rattle.ael_threads.specs.Runs.Running.{Work};

    ghost Value = { Work };

    ghost view = { λ j. record { code = j.program.now.code; turns = j.turns; table = j.heap.now.table.shared.table_id; plan = j.heap.now.table.shared.key } };
}
