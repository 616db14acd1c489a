//! How a heap is closed.

ghost use Rattle.std.specs.Prelude.{◌≡◌, ◌<◌, ◌++◌, List, length, map, vec_len};
ghost use Rattle.ael_threads.specs.Histories.{Each};
ghost use Rattle.ael_threads.specs.Readers.{SeatedScanner, seated};
ghost use Rattle.ael_threads.specs.Seats.{Closes, Gathers, Seated};

use crate::caller::Caller;
use crate::mutator::Mutator;
use crate::opening::Seats;
use crate::scanner::Scanner;
use crate::shared::Shared;
use crate::words::Words;

impl Shared {
    /// The words, once all seats are back, at least one mutator's among them. With what the seats know they stand for the plain state
    /// after one history of all calls, of which what each seat has seen and heard of is a beginning, and if checkpoints can be begun they
    /// tell the last one of that history.
    pub fn close(self, seats: Seats) -> Words
        requires some { 0 < vec_len seats.mutators }
        requires mutators { Each (λ (m : Seated). m.table ≡ self.table.shared.table_id) seats.mutators.items }
        requires scanners { Each (λ (s : SeatedScanner). s.seated.table ≡ self.table.shared.table_id) seats.scanners.items }
        ensures closes { Closes self.table.shared.key (map seated seats.scanners.items ++ seats.mutators.items) result }
        ensures whole { length result ≡ self.table.shared.table_id.words }
    {
        let Seats { mutators, scanners } = seats;
        let one = self.gather_mutators(mutators);
        let one = self.gather_scanners(one, scanners);
        let Shared { table } = self;
        let Caller { worker: _, seat } = one;
        Words {
            closed: table.close_with(seat),
        }
    }

    /// One of these takes in all others.
    fn gather_mutators(&self, mut mutators: Vec<Mutator>) -> Caller
        requires some { 0 < vec_len mutators }
        requires table { Each (λ (m : Seated). m.table ≡ self.now.table.shared.table_id) mutators.items }
        ensures { Gathers self.now.table.shared.table_id mutators.items result }
    {
        let Some(first) = mutators.pop() else {
            unreachable!()
        };
        let Mutator { caller: mut one } = first;
        while let Some(other) = mutators.pop() {
            let Mutator { caller } = other;
            one.absorb(self, caller);
        }
        one
    }

    /// It takes in these scanners too.
    fn gather_scanners(&self, mut one: Caller, mut scanners: Vec<Scanner>) -> Caller
        requires table { Each (λ (s : SeatedScanner). s.seated.table ≡ self.now.table.shared.table_id) scanners.items }
        requires mine { one.table ≡ self.now.table.shared.table_id }
        ensures { (all : List Seated) → Gathers self.now.table.shared.table_id all one → Gathers self.now.table.shared.table_id (map seated scanners.items ++ all) result }
    {
        while let Some(other) = scanners.pop() {
            let Scanner { caller, steps: _ } = other;
            one.absorb(self, caller);
        }
        one
    }
}
