//! What a seat knows. Of these types but `Plan` no value is made: they are what contracts and the rule of the table speak of.

use gc_worker::{Call, Config, Entry, Worker};
use space_map::{BadPages, Spaces};
use std::collections::LinkedList;

/// How large the heap is, and who works on it.
#[derive(Clone, Copy, Debug)]
pub struct Plan {
    /// Its layout: how many pages of a space may come into use, and whether checkpoints can be begun.
    pub spaces: Spaces,
    /// Pages of a space that are in use at first.
    pub least: u32,
    pub mutators: u8,
    pub scanners: u8,
    /// Whether its mutators may print.
    pub prints: bool,
}

impl Plan {
    ghost use Rattle.std.specs.Prelude.{◌≡◌, ◌≤◌, ◌↔◌, IfOk, IsOk, IsTrue};
    ghost use Rattle.space_map.specs.declared.spaces.TheConstants.{FEWEST_PAGES};
    ghost use Rattle.gc_worker.specs.Config.{has_sizes};
    ghost use Rattle.ael_threads.specs.Opened.{plan_with};

    /// The plan of a heap whose mutators may print, or may not.
    pub(crate) fn new(mutators: u8, config: &Config, prints: bool) -> Result<Plan, BadPages>
        ensures plan { IfOk result (λ plan. plan ≡ plan_with prints mutators config.now) }
        ensures sizes { IfOk result (λ plan. (FEWEST_PAGES ≤ plan.least) × (plan.least ≤ plan.spaces.pages)) }
        ensures refused_exactly_outside { IsOk result ↔ IsTrue (has_sizes config.now) }
    {
        Ok(Plan {
            spaces: config.spaces()?,
            least: config.pages,
            mutators,
            scanners: config.scanners,
            prints,
        })
    }
}

/// A worker by its number, what it held after its last step, and the calls that it has made.
pub struct Hand {
    pub number: usize,
    pub worker: Worker,
    pub own: LinkedList<Call>,
}

/// A page that was won in an epoch.
pub struct WonClaim {
    pub page: usize,
    pub epoch: usize,
}

/// The seat's workers, its own first and then those that it absorbed; the history that it has seen, which ends with its own latest call,
/// the one that it has heard of, as it was after its latest step, and the pages that it has won.
pub struct View {
    pub plan: Plan,
    pub hands: LinkedList<Hand>,
    pub seen: LinkedList<Entry>,
    pub heard: LinkedList<Entry>,
    pub claims: LinkedList<WonClaim>,
}
