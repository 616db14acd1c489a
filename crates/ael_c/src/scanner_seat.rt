//! A scanner with its heap.

ghost use Rattle.std.specs.Prelude.{◌≡◌};
ghost use Rattle.std.specs.Arc.{arc_value};
ghost use Rattle.gc_worker.specs.Steps.AtRest.{is_at_rest};
ghost use Rattle.ael_c.specs.Calls.{Scans};

use crate::acts::scans;
use crate::answer::Answer;
use ael_threads::{Scanner, Shared};
use std::alloc::Global;
use std::marker::Model;
use std::sync::Arc;

/// A scanner with its heap, which it keeps. Contracts see what they see of the scanner.
#[derive(Drop)]
pub struct ScannerSeat {
    heap: Arc<Shared, Global>,
    scanner: Scanner,
}

impl Model for ScannerSeat {
    ghost use Rattle.std.specs.Prelude.{◌≡◌};
    ghost use Rattle.std.specs.Arc.{arc_value};
    ghost use Rattle.ael_threads.specs.Readers.{SeatedScanner};

    ghost Value = { SeatedScanner };

    ghost view = { λ s. s.scanner };

    ghost invariant = { λ s. s.scanner.seated.table ≡ (arc_value s.heap).table.shared.table_id };
}

impl ScannerSeat {
    pub fn new(heap: Arc<Shared, Global>, scanner: Scanner) -> ScannerSeat
        requires of_heap { scanner.seated.table ≡ (arc_value heap).table.shared.table_id }
        ensures { result ≡ scanner }
    {
        ScannerSeat { heap, scanner }
    }

    /// Makes some acts of a round, up to its end.
    pub fn scan(&mut self) -> Answer
        ensures { Scans self.old result self.new }
    {
        scans(&mut self.scanner, &self.heap)
    }

    pub fn rests(&self) -> bool
        ensures { result ≡ is_at_rest self.now.seated.worker }
    {
        self.scanner.rests()
    }
}
