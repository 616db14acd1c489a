//! A scanner that is stepped by rounds, and one that is stopped and begun again.

ghost use Rattle.std.specs.Prelude.{◌≡◌, None};

use crate::calling::{check_rounds, leave, make};
use crate::heaps::{close_scanned, open_scanned, open_untaken};
use crate::keeping::{check_list, flip_until, make_list};
use crate::signs::comes;
use ael_threads::{Mutator, Round, Scanner, Shared};
use mutator_asm::Instr;
use std::process::Abort;
use std::sync::Wait;
use std::sync::atomic::{AtomicBool, Ordering};
use std::thread::join_mut;

/// How often the spaces are exchanged in each of three parts.
const FLIPS: u32 = 20;

/// The rounds after `snap`. Those with work save the board and the two pages of the list, and mark the checkpoint as finished.
const AFTER_SNAP: [Round; 5] = [
    Round::Worked,
    Round::Worked,
    Round::Worked,
    Round::Worked,
    Round::Nothing,
];

/// What the two tell each other apart from the heap.
#[derive(Drop)]
struct Signs {
    stop: AtomicBool,
    stopped: AtomicBool,
    again: AtomicBool,
    worked: AtomicBool,
}

/// Flips while the scanner scans, and while it is stopped. Then it makes `snap` and stands still until the scanner has worked again, flips
/// while that scans again, and leaves with the list that it had before.
fn works<R: Wait + Abort>(rt: &R, h: &Shared, mutator: &mut Mutator, signs: &Signs)
    requires table { mutator.old.table ≡ h.now.table.shared.table_id }
    requires rests { mutator.old.worker.task ≡ None }
    ensures { mutator.new.table ≡ mutator.old.table }
{
    make_list(rt, h, mutator);
    flip_until(rt, h, mutator, FLIPS);
    signs.stop.store(true, Ordering::SeqCst);
    assert!(rt; comes(&signs.stopped));
    flip_until(rt, h, mutator, 2 * FLIPS);
    make(rt, h, mutator, Instr::Snap);
    signs.again.store(true, Ordering::SeqCst);
    assert!(rt; comes(&signs.worked));
    flip_until(rt, h, mutator, 3 * FLIPS);
    check_list(rt, h, mutator);
    leave(rt, h, mutator);
}

/// Scans until it is told to stop. Then it makes a round, in which there is a page to save, and scans again until the mutator has left.
fn scans<R: Wait + Abort>(rt: &R, h: &Shared, scanner: &mut Scanner, signs: &Signs)
    requires { scanner.old.seated.table ≡ h.now.table.shared.table_id }
    ensures { scanner.new.seated.table ≡ scanner.old.seated.table }
{
    scanner.scans(rt, h, || signs.stop.load(Ordering::SeqCst));
    signs.stop.store(false, Ordering::SeqCst);
    signs.stopped.store(true, Ordering::SeqCst);
    assert!(rt; comes(&signs.again));
    check_rounds(rt, h, scanner, &[Round::Worked]);
    signs.worked.store(true, Ordering::SeqCst);
    scanner.scans(rt, h, || signs.stop.load(Ordering::SeqCst));
    check_rounds(rt, h, scanner, &[Round::Gone]);
}

#[test]
fn a_scanner_stops_and_begins_again(rt: HostRuntime) {
    let (h, seats, mut mutator, mut scanner) = open_scanned(&rt, rt.alloc());
    let signs = Signs {
        stop: AtomicBool::new(false),
        stopped: AtomicBool::new(false),
        again: AtomicBool::new(false),
        worked: AtomicBool::new(false),
    };
    join_mut(
        &rt,
        &mut || works(&rt, &h, &mut mutator, &signs),
        &mut || scans(&rt, &h, &mut scanner, &signs),
    );
    close_scanned(h, seats, mutator, scanner);
}

#[test]
fn rounds_tell_whether_there_was_work(rt: HostRuntime) {
    let (h, seats, mut mutator, mut scanner) = open_scanned(&rt, rt.alloc());
    check_rounds(&rt, &h, &mut scanner, &[Round::Nothing]);
    make_list(&rt, &h, &mut mutator);
    make(&rt, &h, &mut mutator, Instr::Snap);
    // An act begins a round, of which `round` makes what is left.
    scanner.act(&h);
    assert!(rt; !scanner.rests());
    check_rounds(&rt, &h, &mut scanner, &AFTER_SNAP);
    leave(&rt, &h, &mut mutator);
    // The first of these finds that all mutators have left.
    check_rounds(&rt, &h, &mut scanner, &[Round::Nothing, Round::Gone]);
    close_scanned(h, seats, mutator, scanner);
}

#[test]
fn a_scanner_ends_though_a_seat_is_not_taken(rt: HostRuntime) {
    let (h, mut seats, mut mutator, mut scanner) = open_untaken(&rt, rt.alloc());
    make_list(&rt, &h, &mut mutator);
    leave(&rt, &h, &mut mutator);
    check_rounds(&rt, &h, &mut scanner, &[Round::Nothing]);
    seats.retire(&rt, &h);
    // Nobody stops it.
    scanner.scans(&rt, &h, || false);
    check_rounds(&rt, &h, &mut scanner, &[Round::Gone]);
    seats.mutators.push_reserved(mutator);
    seats.scanners.push_reserved(scanner);
    let _words = h.close(seats);
}
