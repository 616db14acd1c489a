//! Acts of a scanner, and of a mutator that leaves, some at a time, which wait for nobody.

ghost use Rattle.std.specs.Prelude.{◌≡◌, true};
ghost use Rattle.gc_worker.specs.declared.stage.Stage.TheVariants.{Gone};
ghost use Rattle.ael_threads.specs.ActsInRow.{MakesSome, is_idle};
ghost use Rattle.ael_threads.specs.Calls.{StaysSilent};
ghost use Rattle.ael_threads.specs.Seats.{Acts, Seated};
ghost use Rattle.ael_c.specs.Calls.{Scans};

use crate::answer::Answer;
use ael_threads::{ACTS, Mutator, Scanner, Shared, Stepped};

/// Makes acts of a scanner's round, up to its end, and no more than a mutator's call makes at once.
pub(crate) fn scans(scanner: &mut Scanner, h: &Shared) -> Answer
    requires table { scanner.old.seated.table ≡ h.now.table.shared.table_id }
    ensures table { scanner.new.seated.table ≡ scanner.old.seated.table }
    ensures scans { Scans scanner.old result scanner.new }
{
    for _ in 0..ACTS {
        if let Stepped::Idle = scanner.act(h) {
            return Answer::Left;
        }
        if scanner.rests() {
            return Answer::Done;
        }
    }
    Answer::Again
}

/// Makes acts of a mutator with an end, by which it leaves, and tells whether it has left.
pub(crate) fn departs(mutator: &mut Mutator, h: &Shared) -> bool
    requires table { mutator.old.table ≡ h.now.table.shared.table_id }
    ensures table { mutator.new.table ≡ mutator.old.table }
    ensures left { result ≡ true → mutator.new.worker.stage ≡ Gone }
    ensures quiet { (a : Seated) → StaysSilent a mutator.old → StaysSilent a mutator.new }
    ensures acts { MakesSome Acts is_idle result mutator.old mutator.new }
{
    mutator.departs(h)
}
