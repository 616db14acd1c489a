//! A scanner of the heap.

ghost use Rattle.std.specs.Prelude.{◌≡◌, ◌+◌, ◌^◌, ◌<◌, ◌-◌};
ghost use Rattle.gc_worker.specs.Steps.AtRest.{is_at_rest};
ghost use Rattle.gc_worker.specs.Steps.Stepped.{header_kept, place_kept};
ghost use Rattle.ael_threads.specs.Readers.{steps_after};
ghost use Rattle.ael_threads.specs.Seats.{Acts};

use crate::caller::Caller;
use crate::shared::Shared;
use crate::site::Apart;
use gc_worker::Stepped;
use std::marker::Model;

/// A scanner with its seat, and how many steps it has made.
#[derive(Drop)]
pub struct Scanner {
    pub(crate) caller: Caller,
    pub(crate) steps: u64,
}

impl Model for Scanner {
    ghost use Rattle.ael_threads.specs.Readers.{SeatedScanner};

    ghost Value = { SeatedScanner };

    ghost view = { λ s. record { seated = s.caller; steps = s.steps } };
}

impl Scanner {
    /// Makes one atomic step, and waits for nobody. It is idle exactly where the scanner is gone. The act after which it is gone found all
    /// mutators gone (`saw`), at a gate that counts them all as left. What it tells, as that the epoch is traced, stands in the history that
    /// `close` gives (`heard` of `Closes`).
    pub fn act(&mut self, h: &Shared) -> Stepped
        requires { self.old.seated.table ≡ h.now.table.shared.table_id }
        ensures table { self.new.seated.table ≡ self.old.seated.table }
        ensures act { Acts self.old.seated result self.new.seated }
        ensures steps { self.new.steps ≡ steps_after self.old.steps result }
    {
        let stepped = self.caller.act::<Apart>(h);
        if stepped != Stepped::Idle {
            self.steps = self.steps.saturating_add(1);
        }
        stepped
    }

    /// How many acts were not idle; at its last value it stays.
    pub fn steps(&self) -> u64
        ensures { result ≡ self.now.steps }
    {
        self.steps
    }

    /// Whether it begins a round of its duty, or is gone. Then nobody waits for it, and its thread may stop.
    pub fn rests(&self) -> bool
        ensures { result ≡ is_at_rest self.now.seated.worker }
    {
        self.caller.worker.is_at_rest()
    }

    /// The header that it keeps while it copies a record, and the address that it has reserved and one more; 0 for none.
    pub fn kept(&self) -> (u64, u64)
        ensures header { result.0 ≡ header_kept self.now.seated.worker.stage }
        ensures place { result.1 ≡ place_kept self.now.seated.worker.stage }
    {
        self.caller.worker.kept()
    }
}
