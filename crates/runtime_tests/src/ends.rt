//! Mutators that come to an end while others go on, and a scanner that goes on until all have left.

use crate::asserting::assert_same;
use crate::heaps::{open, open_two};
use crate::roots::{FILL, FILLED};
use crate::steps::Call::{Copy, Make, PopFrame, PushFrame, SetNumber, Store, Take};
use crate::steps::Step::{Done, Fails, Len, Same};
use crate::steps::check;
use ael_runtime::Failure::Ended;
use ael_runtime::Root::{R0, R1};
use ael_runtime::{End, Failure, Local, Round};
use std::alloc::Global;
use std::process::Abort;
use std::sync::Wait;
use std::test::Fail;

/// No call is made any more, whatever it is of.
fn check_ended<R: Wait + Abort>(rt: &R, local: &mut Local<'_>, end: End) {
    assert_same(rt, &local.ended(), &Some(end));
    let ended = Ended(end);
    let steps = [
        Fails(SetNumber(R1, u64::MAX), ended),
        Same(R0, R1, Err(ended)),
        Fails(Make(R0, 1, 0), ended),
        Len(R0, Err(ended)),
        Fails(Store(R0, 0, R1), ended),
        Fails(PushFrame(1), ended),
        Fails(PopFrame, ended),
        Fails(Take(R0, 0), ended),
    ];
    check(rt, local, &steps);
}

#[test]
fn a_record_among_plain_numbers_is_an_end(rt: HostRuntime) -> Result<(), Fail> {
    let (heap, first, second) = open_two(rt.alloc())?;
    let mut local = Local::new(&heap, first);
    let mut other = Local::new(&heap, second);
    check(&rt, &mut local, FILL);
    check(&rt, &mut other, FILL);
    let into_raw = Ended(End::IntoRaw);
    let ends = [Done(Make(R1, 0, 1)), Fails(Store(R1, 0, R0), into_raw)];
    check(&rt, &mut local, &ends);
    check_ended(&rt, &mut local, End::IntoRaw);
    check(&rt, &mut other, FILLED);
    let ends_behind_a_field = [
        Done(Make(R1, 1, 1)),
        Done(Store(R1, 0, R0)),
        Fails(Store(R1, 1, R0), into_raw),
    ];
    check(&rt, &mut other, &ends_behind_a_field);
    assert_same(&rt, &local.leave(&rt).ended(), &Some(End::IntoRaw));
    Ok(())
}

/// What is said of a full heap.
fn check_text(rt: &impl Abort, alloc: Global, full: Failure) {
    let text = full.to_string(alloc).expect(rt, "no text");
    let wanted = "the mutator has an end: heap full asked 1 room 0 live 256";
    assert_same(rt, &text.as_str(), &wanted);
}

#[test]
fn a_heap_full_of_what_is_kept_is_an_end(rt: HostRuntime) -> Result<(), Fail> {
    let (heap, first, second) = open_two(rt.alloc())?;
    let mut local = Local::new(&heap, first);
    // A list of records of a page each.
    let link = [
        Done(Make(R1, 63, 0)),
        Done(Store(R1, 0, R0)),
        Done(Copy(R0, R1)),
    ];
    for _ in 0..4 {
        check(&rt, &mut local, &link);
    }
    let end = End::HeapFull {
        asked: 1,
        room: 0,
        live: 256,
    };
    check(&rt, &mut local, &[Fails(Make(R1, 63, 0), Ended(end))]);
    check_ended(&rt, &mut local, end);
    check_text(&rt, rt.alloc(), Ended(end));
    // Once it has left there is room for others.
    local.leave(&rt);
    let mut other = Local::new(&heap, second);
    check(&rt, &mut other, &[Done(Make(R0, 63, 0))]);
    Ok(())
}

#[test]
fn a_scanner_is_gone_once_all_have_left(rt: HostRuntime) -> Result<(), Fail> {
    let (heap, mut seats, mutator, mut scanner) = open(rt.alloc(), 4)?;
    let mut local = Local::new(&heap, mutator);
    check(&rt, &mut local, FILL);
    assert_same(&rt, &local.leave(&rt).ended(), &Some(End::Halt));
    assert_same(&rt, &scanner.round(&rt, &heap), &Round::Nothing);
    assert_same(&rt, &scanner.round(&rt, &heap), &Round::Nothing);
    seats.retire(&rt, &heap);
    // This one finds that all have left.
    assert_same(&rt, &scanner.round(&rt, &heap), &Round::Nothing);
    assert_same(&rt, &scanner.round(&rt, &heap), &Round::Gone);
    let _words = heap.close(seats);
    Ok(())
}
