//! Heaps that were just opened.

ghost use Rattle.std.specs.Prelude.{◌≡◌, [], None, IfOk};
ghost use Rattle.ael_threads.specs.Seats.{IsMine, new_callers};

use ael_runtime::{Config, Mutator, OpenError, Scanner, Seats, Shared};
use std::alloc::Global;

/// A heap of so many pages with a mutator and a scanner, which have made no step, and the seats, in which another mutator is left.
pub fn open(alloc: Global, pages: u32) -> Result<(Shared, Seats, Mutator, Scanner), OpenError>
    ensures of_heap { IfOk result (λ o. (o.2.table ≡ o.0.table.shared.table_id) × (o.3.seated.table ≡ o.0.table.shared.table_id)) }
    ensures new { IfOk result (λ o. (o.2.worker.task ≡ None) × IsMine o.2.knows) }
    ensures left { IfOk result (λ o. o.1.mutators.items ≡ new_callers o.0.table.shared.table_id o.0.table.shared.key 0 1) }
    ensures of_two { IfOk result (λ o. o.0.table.shared.key.mutators ≡ 2) }
    ensures no_scanner { IfOk result (λ o. o.1.scanners.items ≡ []) }
{
    let config = Config {
        pages,
        limit: pages,
        scanners: 1,
        snap: false,
    };
    let (heap, mut seats) = Shared::open(alloc, 2, &config)?;
    let (Some(mutator), Some(scanner)) = (seats.take_mutator(), seats.take_scanner()) else {
        unreachable!()
    };
    Ok((heap, seats, mutator, scanner))
}

/// A heap of so many pages with a mutator, which has made no step.
pub fn open_one(alloc: Global, pages: u32) -> Result<(Shared, Mutator), OpenError>
    ensures of_heap { IfOk result (λ o. o.1.table ≡ o.0.table.shared.table_id) }
    ensures new { IfOk result (λ o. (o.1.worker.task ≡ None) × IsMine o.1.knows) }
{
    let (heap, _seats, mutator, _scanner) = open(alloc, pages)?;
    Ok((heap, mutator))
}

/// A heap of four pages with two mutators, which have made no step.
pub fn open_two(alloc: Global) -> Result<(Shared, Mutator, Mutator), OpenError>
    ensures of_heap { IfOk result (λ o. (o.1.table ≡ o.0.table.shared.table_id) × (o.2.table ≡ o.0.table.shared.table_id)) }
    ensures new { IfOk result (λ o. ((o.1.worker.task ≡ None) × IsMine o.1.knows) × ((o.2.worker.task ≡ None) × IsMine o.2.knows)) }
{
    let (heap, mut seats, second, _scanner) = open(alloc, 4)?;
    let Some(first) = seats.take_mutator() else {
        unreachable!()
    };
    Ok((heap, first, second))
}
