//! How a core is opened.

ghost use Rattle.std.specs.Prelude.{◌≡◌, ◌+◌, ◌≤◌, ◌<◌, ◌↔◌, true, length, IfOk, IsErrOf, IsTrue, not};
ghost use Rattle.gc_worker.specs.Laws.Between.{fresh_worker, fresh_workers};
ghost use Rattle.space_map.specs.declared.spaces.TheConstants.{LAST_WORKER, MOST_MUTATORS, MOST_SCANNERS};
ghost use Rattle.gc_worker.specs.declared.config.TheConstants.{MOST_TURNS};
ghost use Rattle.gc_core.specs.Core.{opening_core, workers_of, has_sizes};

use crate::machine::Core;
use crate::slot::Slot;
use atom_store::NoMemory;
use gc_worker::{Config, OpenError, Worker, opening_words};
use mutator_asm::Program;
use space_map::Spaces;
use std::alloc::{AllocError, Global};

/// Worker `k` before its first step.
fn worker(alloc: Global, spaces: Spaces, k: u8, mutators: u8) -> Result<Slot, NoMemory>
    requires few { mutators ≤ MOST_MUTATORS }
    requires all { k ≤ LAST_WORKER }
    ensures { IfOk result (λ slot. slot ≡ fresh_worker true spaces mutators k) }
{
    if k < mutators {
        return Ok(Slot::new(Worker::mutator(alloc, spaces, k, mutators, true)?));
    }
    Ok(Slot::new(Worker::scanner(alloc, spaces, k, mutators, true)))
}

/// All workers, the mutators first.
fn slots(alloc: Global, spaces: Spaces, mutators: u8, count: u8) -> Result<Vec<Slot>, NoMemory>
    requires few { mutators ≤ MOST_MUTATORS }
    requires all { count ≤ MOST_MUTATORS + MOST_SCANNERS }
    ensures { IfOk result (λ slots. slots.items ≡ fresh_workers true spaces mutators 0 count) }
{
    let mut slots = Vec::new(alloc);
    for k in 0..count {
        if let Err(e) = slots.push(worker(alloc, spaces, k, mutators)?) {
            return Err(AllocError::from(e).into());
        }
    }
    Ok(slots)
}

impl<'p> Core<'p> {
    /// A core in which nobody has made a step, and each mutator may execute so many instructions, 1 to 10,000,000. `BadPages` comes exactly
    /// for fewer than `FEWEST_PAGES` at first, for fewer in all than at first, or for more than `MOST_PAGES`. The words and the room for the
    /// most numbers of each mutator are taken here; no later call takes memory.
    pub fn open(
        alloc: Global,
        program: &'p Program,
        turns: u32,
        config: &Config,
    ) -> Result<Core<'p>, OpenError>
        requires scanners { config.now.scanners ≤ MOST_SCANNERS }
        requires turns { (1 ≤ turns) × (turns ≤ MOST_TURNS) }
        ensures opened { IfOk result (λ c. c ≡ opening_core program.now.code turns config.now) }
        ensures workers { IfOk result (λ c. workers_of c ≡ length program.now.code + config.now.scanners) }
        ensures bad_pages { IsErrOf result OpenError.BadPages ↔ IsTrue (not (has_sizes config.now)) }
    {
        let spaces = config.spaces()?;
        let atoms = opening_words(alloc, spaces, config.pages)?;
        let mutators = program.code.len() as u8;
        let slots = slots(alloc, spaces, mutators, mutators + config.scanners)?;
        Ok(Core {
            program,
            turns,
            spaces,
            atoms,
            slots,
        })
    }
}
