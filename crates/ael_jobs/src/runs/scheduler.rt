//! Who makes the next step.

pub mod draws;
pub mod listing;
pub mod turns;

ghost use Rattle.std.specs.Prelude.{◌≡◌, ◌+◌, ◌<◌, ℕ, IsTrue};
ghost use Rattle.std.specs.List.{list_all};
ghost use Rattle.mutator_asm.specs.Program.{is_item};
ghost use Rattle.ael_jobs.specs.Runs.Schedule.{scheduled_by};
ghost use Rattle.ael_jobs.specs.Runs.ToCome.{to_come};

use crate::runs::scheduler::draws::Draws;
use crate::runs::scheduler::listing::Listing;
use crate::runs::scheduler::turns::Turns;
use mutator_asm::Item;

/// Names the worker of each step, in constant memory and constant time.
#[derive(Drop)]
pub enum Scheduler<'p> {
    InTurn(Turns),
    Listed(Listing<'p>),
    Drawn(Draws),
}

impl<'p> Scheduler<'p> {
    /// A seed has it, or else the items that are listed, or else the workers have their turns.
    pub fn new(seed: Option<u64>, items: &'p [Item], workers: u8) -> Scheduler<'p>
        requires some { 0 < workers }
        requires items { IsTrue (list_all is_item items.now) }
        ensures { (at : ℕ) → to_come result at ≡ scheduled_by seed items.now workers at }
    {
        match seed {
            Some(seed) => Scheduler::Drawn(Draws::new(seed, workers)),
            None if items.is_empty() => Scheduler::InTurn(Turns::new(workers)),
            None => Scheduler::Listed(Listing::new(items)),
        }
    }

    /// The worker of the next step.
    #[inline(always)]
    pub fn next(&mut self) -> u8
        ensures names { result ≡ to_come self.old 0 }
        ensures later { (at : ℕ) → to_come self.new at ≡ to_come self.old (at + 1) }
    {
        match self {
            Scheduler::InTurn(turns) => turns.next(),
            Scheduler::Listed(_) | Scheduler::Drawn(_) => self.named(),
        }
    }

    /// It stands apart from the loop of the run, where workers in turn are named.
    #[inline(never)]
    fn named(&mut self) -> u8
        ensures names { result ≡ to_come self.old 0 }
        ensures later { (at : ℕ) → to_come self.new at ≡ to_come self.old (at + 1) }
    {
        match self {
            Scheduler::InTurn(turns) => turns.next(),
            Scheduler::Listed(listing) => listing.next(),
            Scheduler::Drawn(draws) => draws.next(),
        }
    }
}
