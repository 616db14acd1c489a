//! Threads that meet on the board.

use crate::asserting::assert_same;
use crate::heaps::open_two;
use crate::roots::{FILL, FILLED};
use crate::safepoints::comes;
use crate::steps::Call::{Load, Make, ReadShared, Share, Take};
use crate::steps::Step::{Done, Fails, Number, Same};
use crate::steps::check;
use ael_runtime::Failure::OutOfRange;
use ael_runtime::Local;
use ael_runtime::Root::{R0, R1, R2};
use std::process::Abort;
use std::sync::Wait;
use std::sync::atomic::{AtomicBool, Ordering};
use std::test::Fail;
use std::thread::join_mut;

#[test]
fn what_is_shared_on_sixteen_words_is_read_and_taken(rt: HostRuntime) -> Result<(), Fail> {
    let (heap, first, second) = open_two(rt.alloc())?;
    let mut local = Local::new(&heap, first);
    let mut other = Local::new(&heap, second);
    let refused = [
        Fails(Share(16, R0), OutOfRange),
        Fails(ReadShared(R0, 16), OutOfRange),
        Fails(Take(R0, 16), OutOfRange),
    ];
    check(&rt, &mut local, FILL);
    check(&rt, &mut local, &refused);
    check(&rt, &mut local, FILLED);
    check(&rt, &mut local, &[Done(Share(15, R0))]);
    let taken = [
        Done(ReadShared(R1, 15)),
        Done(Take(R0, 15)),
        Same(R0, R1, Ok(true)),
        Done(Load(R2, R0, 1)),
        Number(R2, Some(7)),
    ];
    check(&rt, &mut other, &taken);
    check(&rt, &mut local, &[Done(Take(R1, 15)), Number(R1, Some(0))]);
    Ok(())
}

/// Shares a list on each word of the board.
fn share_all<R: Wait + Abort>(rt: &R, local: &mut Local<'_>) {
    for word in 0..16 {
        check(rt, local, &[Done(Make(R0, 2, 0)), Done(Share(word, R0))]);
    }
}

/// Takes from each word of the board, once the other has come. It tells by bits from which it got a list.
fn takes<R: Wait + Abort>(
    rt: &R,
    local: &mut Local<'_>,
    has_come: &AtomicBool,
    other_has_come: &AtomicBool,
) -> u64 {
    has_come.store(true, Ordering::SeqCst);
    assert_same(rt, &comes(other_has_come), &true);
    let mut got = 0u64;
    for word in 0..16 {
        assert_same(rt, &local.take(rt, R0, word), &Ok(()));
        got |= u64::from(local.is_record(R0)) << word;
    }
    got
}

#[test]
fn of_two_that_take_one_gets_it(rt: HostRuntime) -> Result<(), Fail> {
    let (heap, first, second) = open_two(rt.alloc())?;
    let mut local = Local::new(&heap, first);
    let mut other = Local::new(&heap, second);
    share_all(&rt, &mut local);
    let come = [AtomicBool::new(false), AtomicBool::new(false)];
    let (got, other_got) = join_mut(
        &rt,
        &mut || takes(&rt, &mut local, &come[0], &come[1]),
        &mut || takes(&rt, &mut other, &come[1], &come[0]),
    );
    assert_same(&rt, &(got ^ other_got), &0xFFFF);
    Ok(())
}
