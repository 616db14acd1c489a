//! Workers by a seed.

ghost use Rattle.std.specs.Prelude.{◌≡◌, ◌+◌, ◌<◌, ℕ};
ghost use Rattle.ael_jobs.specs.Runs.Schedulers.{drawn_from};

use rand_core::SeedableRng;
use rand_core::utils::NextWord;
use rand_xoshiro::SplitMix64;
use std::marker::Model;

/// Workers drawn by the words of a generator.
#[derive(Drop)]
pub struct Draws {
    words: SplitMix64,
    workers: u8,
}

impl Model for Draws {
    ghost use Rattle.std.specs.Prelude.{◌<◌};
    ghost use Rattle.ael_jobs.specs.Runs.Schedulers.{Draw};

    ghost Value = { Draw };

    ghost view = { λ d. record { state = d.words; workers = d.workers } };

    ghost invariant = { λ d. 0 < d.workers };
}

impl Draws {
    pub fn new(seed: u64, workers: u8) -> Draws
        requires { 0 < workers }
        ensures { result ≡ record { state = seed; workers = workers } }
    {
        Draws {
            words: SplitMix64::seed_from_u64(seed),
            workers,
        }
    }

    /// The worker that the next word gives.
    #[inline(always)]
    pub fn next(&mut self) -> u8
        ensures names { result ≡ drawn_from self.old 0 }
        ensures later { (at : ℕ) → drawn_from self.new at ≡ drawn_from self.old (at + 1) }
    {
        (self.words.next_word() % u64::from(self.workers)) as u8
    }
}
