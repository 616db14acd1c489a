//! Workers in turn.

ghost use Rattle.std.specs.Prelude.{◌≡◌, ◌+◌, ◌<◌, ℕ};
ghost use Rattle.ael_jobs.specs.Runs.Schedulers.{in_turn_from};

use std::marker::Model;

/// The workers in turn, from 0 on.
#[derive(Drop)]
pub struct Turns {
    next: u8,
    workers: u8,
}

impl Model for Turns {
    ghost use Rattle.std.specs.Prelude.{◌<◌};
    ghost use Rattle.ael_jobs.specs.Runs.Schedulers.{Turn};

    ghost Value = { Turn };

    ghost view = { λ t. record { next = t.next; workers = t.workers } };

    ghost invariant = { λ t. t.next < t.workers };
}

impl Turns {
    pub fn new(workers: u8) -> Turns
        requires { 0 < workers }
        ensures { result ≡ record { next = 0; workers = workers } }
    {
        Turns { next: 0, workers }
    }

    /// The worker whose turn it is.
    #[inline(always)]
    pub fn next(&mut self) -> u8
        ensures names { result ≡ in_turn_from self.old 0 }
        ensures later { (at : ℕ) → in_turn_from self.new at ≡ in_turn_from self.old (at + 1) }
    {
        let worker = self.next;
        self.next = if worker + 1 < self.workers {
            worker + 1
        } else {
            0
        };
        worker
    }
}
