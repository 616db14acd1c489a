//! Seats that are taken, one by one, and those that nobody takes.

ghost use Rattle.std.specs.Prelude.{◌≡◌, ◌+◌, ◌<◌, ◌++◌, ◌↔◌, ℕ, None, Some, IsSome, length, option_to_list, vec_capacity, vec_len};
ghost use Rattle.std.specs.List.{AllZip};
ghost use Rattle.atomic_table.specs.Seated.{TableId};
ghost use Rattle.gc_worker.specs.declared.stage.Stage.TheVariants.{Gone};
ghost use Rattle.ael_threads.specs.declared.view.Plan.{Plan};
ghost use Rattle.ael_threads.specs.Calls.{HasLeft};
ghost use Rattle.ael_threads.specs.Histories.{Each};
ghost use Rattle.ael_threads.specs.Opened.{new_scanner, new_scanners};
ghost use Rattle.ael_threads.specs.Seats.{Seated, new_callers, new_seated};

use crate::mutator::Mutator;
use crate::opening::Seats;
use crate::scanner::Scanner;
use crate::shared::Shared;
use std::sync::Wait;

impl Seats {
    /// Takes the last of the mutators that are here. Of a heap that was just opened it is the one with the highest number, which has made no
    /// act yet. There is none once all are taken.
    pub fn take_mutator(&mut self) -> Option<Mutator>
        ensures there { IsSome result ↔ (0 < vec_len self.old.mutators) }
        ensures last { self.old.mutators.items ≡ self.new.mutators.items ++ option_to_list result }
        ensures new { (t : TableId) (plan : Plan) (from n : ℕ) → self.old.mutators.items ≡ new_callers t plan from (n + 1)
            → (result ≡ Some (new_seated t plan (from + n))) × (self.new.mutators.items ≡ new_callers t plan from n) }
        ensures room { vec_capacity self.new.mutators ≡ vec_capacity self.old.mutators }
        ensures scanners { self.new.scanners ≡ self.old.scanners }
    {
        self.mutators.pop()
    }

    /// Takes the last of the scanners that are here.
    pub fn take_scanner(&mut self) -> Option<Scanner>
        ensures there { IsSome result ↔ (0 < vec_len self.old.scanners) }
        ensures last { self.old.scanners.items ≡ self.new.scanners.items ++ option_to_list result }
        ensures new { (t : TableId) (plan : Plan) (from n : ℕ) → self.old.scanners.items ≡ new_scanners t plan from (n + 1)
            → (result ≡ Some (new_scanner t plan (from + n))) × (self.new.scanners.items ≡ new_scanners t plan from n) }
        ensures room { vec_capacity self.new.scanners ≡ vec_capacity self.old.scanners }
        ensures mutators { self.new.mutators ≡ self.old.mutators }
    {
        self.scanners.pop()
    }

    /// All mutators that are here leave, so that scanners come to their end without them. Their seats stay here, for `close`.
    pub fn retire<R: Wait>(&mut self, rt: &R, h: &Shared)
        requires of_heap { Each (λ (m : Seated). m.table ≡ h.now.table.shared.table_id) self.old.mutators.items }
        requires no_task { Each (λ (m : Seated). m.worker.account.end ≡ None → m.worker.task ≡ None) self.old.mutators.items }
        ensures gone { Each (λ (m : Seated). (m.table ≡ h.now.table.shared.table_id) × (m.worker.stage ≡ Gone)) self.new.mutators.items }
        ensures left { AllZip HasLeft self.old.mutators.items self.new.mutators.items }
        ensures as_many { vec_len self.new.mutators ≡ vec_len self.old.mutators }
        ensures room { vec_capacity self.new.mutators ≡ vec_capacity self.old.mutators }
        ensures scanners { self.new.scanners ≡ self.old.scanners }
    {
        all_leave(rt, h, self.mutators.as_mut_slice());
    }
}

/// These leave, one after another.
fn all_leave<R: Wait>(rt: &R, h: &Shared, mutators: &mut [Mutator])
    requires of_heap { Each (λ (m : Seated). m.table ≡ h.now.table.shared.table_id) mutators.old }
    requires no_task { Each (λ (m : Seated). m.worker.account.end ≡ None → m.worker.task ≡ None) mutators.old }
    ensures gone { Each (λ (m : Seated). (m.table ≡ h.now.table.shared.table_id) × (m.worker.stage ≡ Gone)) mutators.new }
    ensures left { AllZip HasLeft mutators.old mutators.new }
    ensures as_many { length mutators.new ≡ length mutators.old }
{
    let Some((first, rest)) = mutators.split_first_mut() else {
        return;
    };
    first.leave(rt, h);
    all_leave(rt, h, rest);
}
