//! Records of each kind.

use crate::roots::{FILL, FILLED};
use crate::steps::Call::{Load, Make, PopFrame, PushFrame, Save, SetNumber, Store};
use crate::steps::Step::{self, Done, Fails, Len, Number, Same};
use crate::steps::check_alone;
use ael_runtime::Failure::{NotRecord, OutOfRange, TooLarge};
use ael_runtime::Root::{R0, R1, R2, R3};
use std::test::Fail;

/// A new record of so many fields and plain numbers, three in all, has three words, each of which is 0.
fn new_record(fields: u16, numbers: u16) -> [Step; 11] {
    [
        Done(Make(R0, fields, numbers)),
        Len(R0, Ok(3)),
        Done(SetNumber(R1, 1)),
        Done(Load(R1, R0, 0)),
        Number(R1, Some(0)),
        Done(SetNumber(R1, 1)),
        Done(Load(R1, R0, 1)),
        Number(R1, Some(0)),
        Done(SetNumber(R1, 1)),
        Done(Load(R1, R0, 2)),
        Number(R1, Some(0)),
    ]
}

#[test]
fn new_records_are_0(rt: HostRuntime) -> Result<(), Fail> {
    let empty = [Done(Make(R0, 0, 0)), Len(R0, Ok(0))];
    let tables: [&[Step]; 4] = [
        &new_record(3, 0),
        &new_record(0, 3),
        &new_record(2, 1),
        &empty,
    ];
    check_alone(&rt, rt.alloc(), 4, &tables)
}

#[test]
fn words_hold_what_was_stored(rt: HostRuntime) -> Result<(), Fail> {
    // Each record leads to the other, and behind the field of the first is a number.
    let steps = [
        Done(Make(R0, 1, 1)),
        Done(Make(R1, 2, 0)),
        Done(SetNumber(R2, 7)),
        Done(Store(R0, 0, R1)),
        Done(Store(R0, 1, R2)),
        Done(Store(R1, 1, R0)),
        Done(Load(R3, R0, 0)),
        Same(R3, R1, Ok(true)),
        Done(Load(R3, R3, 1)),
        Same(R3, R0, Ok(true)),
        Done(Load(R3, R3, 1)),
        Number(R3, Some(7)),
    ];
    check_alone(&rt, rt.alloc(), 4, &[&steps])
}

#[test]
fn records_end_with_their_words(rt: HostRuntime) -> Result<(), Fail> {
    let steps = [
        Len(R1, Err(NotRecord)),
        Fails(Load(R0, R1, 0), NotRecord),
        Fails(Store(R1, 0, R0), NotRecord),
        Fails(Load(R1, R0, 2), OutOfRange),
        Fails(Load(R1, R0, u16::MAX), OutOfRange),
        Fails(Store(R0, 2, R2), OutOfRange),
    ];
    check_alone(&rt, rt.alloc(), 4, &[FILL, &steps, FILLED])
}

#[test]
fn records_have_at_most_4095_words(rt: HostRuntime) -> Result<(), Fail> {
    let too_large = [
        Fails(Make(R0, 4096, 0), TooLarge),
        Fails(Make(R0, 0, 4096), TooLarge),
        Fails(Make(R0, 1, 4094), TooLarge),
        Fails(PushFrame(4095), TooLarge),
    ];
    let largest_frame = [Done(PushFrame(4094)), Done(Save(4093, R0))];
    let largest = [
        Done(PopFrame),
        Done(Make(R0, 4095, 0)),
        Done(Make(R0, 0, 4095)),
        Done(Make(R0, 1, 4093)),
        Len(R0, Ok(4094)),
    ];
    let tables = [FILL, &too_large, FILLED, &largest_frame, FILLED, &largest];
    check_alone(&rt, rt.alloc(), 128, &tables)
}
