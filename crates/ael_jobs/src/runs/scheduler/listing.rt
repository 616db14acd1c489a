//! The workers that a program lists.

ghost use Rattle.std.specs.Prelude.{◌≡◌, ◌+◌, ◌<◌, ℕ, length, IsTrue};
ghost use Rattle.std.specs.List.{list_all};
ghost use Rattle.mutator_asm.specs.Program.{is_item};
ghost use Rattle.ael_jobs.specs.Runs.Schedule.{repeated, steps_listed};
ghost use Rattle.ael_jobs.specs.Runs.Schedulers.{listed_from};

use mutator_asm::Item;
use std::marker::Model;

/// The items of a schedule one after another, and then again from the first.
#[derive(Drop)]
pub struct Listing<'p> {
    items: &'p [Item],
    /// What is left of the item at hand.
    now: Item,
    /// The number of the item after it.
    next: usize,
}

impl<'p> Model for Listing<'p> {
    ghost use Rattle.std.specs.Prelude.{◌<◌, ◌++◌, drop, length, replicate, IsTrue};
    ghost use Rattle.std.specs.List.{list_all};
    ghost use Rattle.mutator_asm.specs.Program.{is_item};
    ghost use Rattle.ael_jobs.specs.Runs.Schedulers.{ListedRound};
    ghost use Rattle.ael_jobs.specs.Runs.Schedule.{steps_listed};

    ghost Value = { ListedRound };

    ghost view = { λ l. record { rest = replicate l.now.times l.now.worker ++ steps_listed (drop l.next l.items.now); steps = steps_listed l.items.now } };

    ghost invariant = { λ l. (0 < length l.items.now) × IsTrue (list_all is_item l.items.now) };
}

impl<'p> Listing<'p> {
    pub fn new(items: &'p [Item]) -> Listing<'p>
        requires some { 0 < length items.now }
        requires items { IsTrue (list_all is_item items.now) }
        ensures { (at : ℕ) → listed_from result at ≡ repeated (steps_listed items.now) at }
    {
        Listing {
            items,
            now: items[0],
            next: 1,
        }
    }

    /// The worker of the item at hand, or else of the one after it.
    #[inline(always)]
    pub fn next(&mut self) -> u8
        ensures names { result ≡ listed_from self.old 0 }
        ensures later { (at : ℕ) → listed_from self.new at ≡ listed_from self.old (at + 1) }
    {
        if self.now.times == 0 {
            let next = if self.next < self.items.len() {
                self.next
            } else {
                0
            };
            self.now = self.items[next];
            self.next = next + 1;
        }
        self.now.times -= 1;
        self.now.worker
    }
}
