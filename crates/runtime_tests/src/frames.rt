//! Frames, and functions that keep values in them.

use crate::asserting::assert_same;
use crate::heaps::open_two;
use crate::roots::{FILL, FILLED, WASTED, waste};
use crate::steps::Call::{Load, Make, PopFrame, PushFrame, Restore, Save, SetNumber, Store};
use crate::steps::Step::{Done, Fails, Number};
use crate::steps::{check, check_alone};
use ael_runtime::Failure::{NotRecord, OutOfRange};
use ael_runtime::Local;
use ael_runtime::Root::{R0, R1};
use std::process::Abort;
use std::sync::Wait;
use std::test::Fail;

/// How deep calls are nested. They keep more records than there are registers.
const DEPTH: u64 = 12;

#[test]
fn frames_end_with_their_slots(rt: HostRuntime) -> Result<(), Fail> {
    let steps = [
        Done(PushFrame(2)),
        Fails(Save(2, R1), OutOfRange),
        Fails(Restore(R0, 2), OutOfRange),
        Fails(Restore(R0, u16::MAX), OutOfRange),
        Done(PopFrame),
        Fails(Save(0, R1), NotRecord),
        Fails(Restore(R0, 0), NotRecord),
        Fails(PopFrame, NotRecord),
    ];
    check_alone(&rt, rt.alloc(), 4, &[FILL, &steps, FILLED])
}

/// Keeps a record with its depth in a frame while it calls itself. The innermost call makes the heap flip.
fn nest<R: Wait + Abort>(rt: &R, local: &mut Local<'_>, depth: u64) {
    if depth == 0 {
        waste(rt, local);
        return;
    }
    let keeps = [
        Done(PushFrame(2)),
        Done(Make(R0, 0, 1)),
        Done(SetNumber(R1, depth)),
        Done(Store(R0, 0, R1)),
        Done(Save(1, R0)),
    ];
    check(rt, local, &keeps);
    nest(rt, local, depth - 1);
    let kept = [
        Done(Restore(R0, 0)),
        Number(R0, Some(0)),
        Done(Restore(R0, 1)),
        Done(Load(R1, R0, 0)),
        Number(R1, Some(depth)),
        Done(PopFrame),
    ];
    check(rt, local, &kept);
}

#[test]
fn nested_calls_keep_their_records_through_flips(rt: HostRuntime) -> Result<(), Fail> {
    let (heap, mutator, _other) = open_two(rt.alloc())?;
    let mut local = Local::new(&heap, mutator);
    nest(&rt, &mut local, DEPTH);
    check(&rt, &mut local, &[Fails(PopFrame, NotRecord)]);
    let mutator = local.leave(&rt);
    assert!(&rt; mutator.epoch() > 0);
    assert_same(&rt, &mutator.serial(), &(2 * DEPTH + WASTED));
    Ok(())
}
