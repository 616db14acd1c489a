//! Who watches the workers of a run.

ghost use Rattle.std.specs.Prelude.{◌≤◌, ◌<◌};
ghost use Rattle.space_map.specs.declared.spaces.TheConstants.{MOST_MUTATORS};

use crate::scanner::Scanner;
use std::marker::Sync;

/// Sees each worker of a run before it goes on, and may hold it there. A run tells nothing of when its workers come to its calls.
pub trait Pace: Sync {
    /// A mutator, by its number, is about to execute its `n`th instruction, counted from 1. If its last one was `snap`, all other mutators
    /// may stand still until it goes on: who holds it here until another comes waits for ever.
    fn pass(&self, worker: u8, n: u64)
        requires mutator { worker < MOST_MUTATORS }
        requires counted { 1 ≤ n };

    /// A scanner is about to make its next act.
    fn scan(&self, scanner: &Scanner);
}

/// Holds nobody.
#[derive(Clone, Copy, Debug)]
pub struct NoPace;

impl Pace for NoPace {
    fn pass(&self, _worker: u8, _n: u64) {}

    fn scan(&self, _scanner: &Scanner) {}
}
