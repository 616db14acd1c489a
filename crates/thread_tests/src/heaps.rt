//! Heaps of two workers, opened and closed.

ghost use Rattle.std.specs.Prelude.{◌≡◌, ◌≤◌, [], None, vec_capacity};
ghost use Rattle.ael_threads.specs.Seats.{new_callers};

use crate::calling::leave;
use ael_threads::{Mutator, Scanner, Seats, Shared};
use gc_worker::Config;
use std::alloc::Global;
use std::process::Abort;
use std::sync::Wait;

/// A heap of so many pages with two mutators, which have made no step, and the seats without theirs, for which there is room. With
/// `snap` checkpoints can be begun.
pub fn open_two(
    rt: &impl Abort,
    alloc: Global,
    pages: u32,
    snap: bool,
) -> (Shared, Seats, Mutator, Mutator)
    ensures first { (result.2.table ≡ result.0.table.shared.table_id) × (result.2.worker.task ≡ None) }
    ensures second { (result.3.table ≡ result.0.table.shared.table_id) × (result.3.worker.task ≡ None) }
    ensures seats { (result.1.mutators.items ≡ []) × (result.1.scanners.items ≡ []) }
    ensures room { 2 ≤ vec_capacity result.1.mutators }
{
    let config = Config {
        pages,
        limit: pages,
        scanners: 0,
        snap,
    };
    let (heap, mut seats) = Shared::open(alloc, 2, &config).expect(rt, "no heap");
    let second = seats.mutators.pop().expect(rt, "no mutator");
    let first = seats.mutators.pop().expect(rt, "no mutator");
    (heap, seats, first, second)
}

/// Both leave, and are taken back.
pub fn close_two<R: Wait>(rt: &R, h: Shared, mut seats: Seats, mut one: Mutator, mut other: Mutator)
    requires one { (one.table ≡ h.table.shared.table_id) × (one.worker.task ≡ None) }
    requires other { (other.table ≡ h.table.shared.table_id) × (other.worker.task ≡ None) }
    requires seats { (seats.mutators.items ≡ []) × (seats.scanners.items ≡ []) }
    requires room { 2 ≤ vec_capacity seats.mutators }
{
    leave(rt, &h, &mut one);
    leave(rt, &h, &mut other);
    seats.mutators.push_reserved(one);
    seats.mutators.push_reserved(other);
    let _words = h.close(seats);
}

/// A heap of four pages with a mutator and a scanner, which have made no step, and the seats without theirs, for which there is room.
pub fn open_scanned(rt: &impl Abort, alloc: Global) -> (Shared, Seats, Mutator, Scanner)
    ensures mutator { (result.2.table ≡ result.0.table.shared.table_id) × (result.2.worker.task ≡ None) }
    ensures scanner { result.3.seated.table ≡ result.0.table.shared.table_id }
    ensures seats { (result.1.mutators.items ≡ []) × (result.1.scanners.items ≡ []) }
    ensures room { (1 ≤ vec_capacity result.1.mutators) × (1 ≤ vec_capacity result.1.scanners) }
{
    let config = Config {
        pages: 4,
        limit: 4,
        scanners: 1,
        snap: true,
    };
    let (heap, mut seats) = Shared::open(alloc, 1, &config).expect(rt, "no heap");
    let mutator = seats.mutators.pop().expect(rt, "no mutator");
    let scanner = seats.scanners.pop().expect(rt, "no scanner");
    (heap, seats, mutator, scanner)
}

/// A heap of four pages that was opened without printing, with a mutator, which has made no step, and the seats without its own, for
/// which there is room.
pub fn open_without_printing(rt: &impl Abort, alloc: Global) -> (Shared, Seats, Mutator)
    ensures mutator { result.2.table ≡ result.0.table.shared.table_id }
    ensures seats { (result.1.mutators.items ≡ []) × (result.1.scanners.items ≡ []) }
    ensures room { 1 ≤ vec_capacity result.1.mutators }
{
    let config = Config {
        pages: 4,
        limit: 4,
        scanners: 0,
        snap: false,
    };
    let opened = Shared::open_without_printing(alloc, 1, &config);
    let (heap, mut seats) = opened.expect(rt, "no heap");
    let mutator = seats.mutators.pop().expect(rt, "no mutator");
    (heap, seats, mutator)
}

/// A heap of four pages with a mutator and a scanner, which have made no step, and the seats without theirs, for which there is room.
/// Another mutator is left there.
pub fn open_untaken(rt: &impl Abort, alloc: Global) -> (Shared, Seats, Mutator, Scanner)
    ensures mutator { (result.2.table ≡ result.0.table.shared.table_id) × (result.2.worker.task ≡ None) }
    ensures scanner { result.3.seated.table ≡ result.0.table.shared.table_id }
    ensures left { result.1.mutators.items ≡ new_callers result.0.table.shared.table_id result.0.table.shared.key 0 1 }
    ensures of_two { result.0.table.shared.key.mutators ≡ 2 }
    ensures no_scanner { result.1.scanners.items ≡ [] }
    ensures room { (2 ≤ vec_capacity result.1.mutators) × (1 ≤ vec_capacity result.1.scanners) }
{
    let config = Config {
        pages: 4,
        limit: 4,
        scanners: 1,
        snap: false,
    };
    let (heap, mut seats) = Shared::open(alloc, 2, &config).expect(rt, "no heap");
    let mutator = seats.take_mutator().expect(rt, "no mutator");
    let scanner = seats.take_scanner().expect(rt, "no scanner");
    (heap, seats, mutator, scanner)
}

/// The two, of which the mutator has left, are taken back.
pub fn close_scanned(h: Shared, mut seats: Seats, mutator: Mutator, scanner: Scanner)
    requires tables { (mutator.table ≡ h.table.shared.table_id) × (scanner.seated.table ≡ h.table.shared.table_id) }
    requires seats { (seats.mutators.items ≡ []) × (seats.scanners.items ≡ []) }
    requires room { (1 ≤ vec_capacity seats.mutators) × (1 ≤ vec_capacity seats.scanners) }
{
    seats.mutators.push_reserved(mutator);
    seats.scanners.push_reserved(scanner);
    let _words = h.close(seats);
}
