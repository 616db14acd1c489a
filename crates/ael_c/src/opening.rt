//! How a heap is opened for C.

ghost use Rattle.std.specs.Prelude.{◌≡◌, length, true, OnOk};
ghost use Rattle.std.specs.Arc.{arc_value};
ghost use Rattle.ael_c.specs.Handles.{AreDealt, DealsBy, Opens, are_null, behind, first_mutators, first_scanners, handles, mutator_seats, scanner_seats};

use crate::answer::Answer;
use crate::handle::Handle;
use crate::mutator_seat::MutatorSeat;
use crate::scanner_seat::ScannerSeat;
use crate::seat::Seat;
use ael_threads::{Config, OpenError, Seats, Shared};
use space_map::{MOST_MUTATORS, MOST_SCANNERS};
use std::alloc::{AllocError, Global};
use std::sync::Arc;

/// Opens a heap, and puts its seats behind these handles, which have to be null.
pub fn open(
    alloc: Global,
    pages: u32,
    limit: u32,
    mutators: &mut [Handle],
    scanners: &mut [Handle],
) -> Answer
    ensures { Opens pages limit (handles mutators.old scanners.old) result (handles mutators.new scanners.new) }
{
    let count = mutators.len();
    if count < 1 || count > MOST_MUTATORS as usize || scanners.len() > MOST_SCANNERS as usize {
        return Answer::BadSize;
    }
    if !all_null(alloc, mutators) || !all_null(alloc, scanners) {
        return Answer::InUse;
    }
    let config = Config {
        pages,
        limit,
        scanners: scanners.len() as u8,
        snap: false,
    };
    match Shared::open_without_printing(alloc, count as u8, &config) {
        Ok((heap, seats)) => deal(alloc, heap, seats, mutators, scanners),
        Err(OpenError::BadPages) => Answer::BadSize,
        Err(OpenError::NoMemory) => Answer::NoMemory,
    }
}

/// Whether all of these are null.
fn all_null(alloc: Global, handles: &mut [Handle]) -> bool
    ensures same { behind handles.new ≡ behind handles.old }
    ensures null { result ≡ are_null (behind handles.old) }
{
    let Some((first, rest)) = handles.split_first_mut() else {
        return true;
    };
    let rest_is_null = all_null(alloc, rest);
    first.is_null(alloc) && rest_is_null
}

/// Puts the seats of a new heap behind these handles. If memory is wanting, they are null again.
fn deal(
    alloc: Global,
    heap: Shared,
    seats: Seats,
    mutators: &mut [Handle],
    scanners: &mut [Handle],
) -> Answer
    requires null { (are_null (behind mutators.old) ≡ true) × (are_null (behind scanners.old) ≡ true) }
    requires mutators { seats.mutators.items ≡ first_mutators heap (length mutators.old) }
    requires scanners { seats.scanners.items ≡ first_scanners heap (length scanners.old) }
    ensures { DealsBy result heap (handles mutators.old scanners.old) (handles mutators.new scanners.new) }
{
    if deals(alloc, heap, seats, mutators, scanners).is_ok() {
        return Answer::Done;
    }
    clear(alloc, mutators);
    clear(alloc, scanners);
    Answer::NoMemory
}

/// Puts them there, up to where memory is wanting.
fn deals(
    alloc: Global,
    heap: Shared,
    mut seats: Seats,
    mutators: &mut [Handle],
    scanners: &mut [Handle],
) -> Result<(), AllocError>
    requires null { (are_null (behind mutators.old) ≡ true) × (are_null (behind scanners.old) ≡ true) }
    requires mutators { seats.mutators.items ≡ first_mutators heap (length mutators.old) }
    requires scanners { seats.scanners.items ≡ first_scanners heap (length scanners.old) }
    ensures counts { (length mutators.new ≡ length mutators.old) × (length scanners.new ≡ length scanners.old) }
    ensures dealt { OnOk result (AreDealt heap (handles mutators.old scanners.old) (handles mutators.new scanners.new)) }
{
    let heap = Arc::new(alloc, heap)?;
    deal_mutators(alloc, &heap, &mut seats, mutators)?;
    deal_scanners(alloc, &heap, &mut seats, scanners)
}

/// Puts a mutator behind each of these handles, the last first.
fn deal_mutators(
    alloc: Global,
    heap: &Arc<Shared, Global>,
    seats: &mut Seats,
    handles: &mut [Handle],
) -> Result<(), AllocError>
    requires null { are_null (behind handles.old) ≡ true }
    requires new { seats.old.mutators.items ≡ first_mutators (arc_value heap.now) (length handles.old) }
    ensures count { length handles.new ≡ length handles.old }
    ensures dealt { OnOk result (behind handles.new ≡ mutator_seats (first_mutators (arc_value heap.now) (length handles.old))) }
    ensures scanners { seats.new.scanners ≡ seats.old.scanners }
{
    let Some((last, rest)) = handles.split_last_mut() else {
        return Ok(());
    };
    let Some(mutator) = seats.take_mutator() else {
        unreachable!()
    };
    let seat = MutatorSeat::new(Arc::try_clone(heap)?, mutator);
    last.put(Box::new(alloc, Seat::Mutator(seat))?);
    deal_mutators(alloc, heap, seats, rest)
}

/// Puts a scanner behind each of these handles, the last first.
fn deal_scanners(
    alloc: Global,
    heap: &Arc<Shared, Global>,
    seats: &mut Seats,
    handles: &mut [Handle],
) -> Result<(), AllocError>
    requires null { are_null (behind handles.old) ≡ true }
    requires new { seats.old.scanners.items ≡ first_scanners (arc_value heap.now) (length handles.old) }
    ensures count { length handles.new ≡ length handles.old }
    ensures dealt { OnOk result (behind handles.new ≡ scanner_seats (first_scanners (arc_value heap.now) (length handles.old))) }
{
    let Some((last, rest)) = handles.split_last_mut() else {
        return Ok(());
    };
    let Some(scanner) = seats.take_scanner() else {
        unreachable!()
    };
    let seat = ScannerSeat::new(Arc::try_clone(heap)?, scanner);
    last.put(Box::new(alloc, Seat::Scanner(seat))?);
    deal_scanners(alloc, heap, seats, rest)
}

/// Frees what these lead to, and makes them null.
fn clear(alloc: Global, handles: &mut [Handle])
    ensures null { are_null (behind handles.new) ≡ true }
    ensures count { length handles.new ≡ length handles.old }
{
    if let Some((first, rest)) = handles.split_first_mut() {
        first.take(alloc);
        clear(alloc, rest);
    }
}
