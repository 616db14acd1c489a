//! What roots hold before calls that fail or flips, and after them.

use crate::steps::Call::{Copy, Load, Make, SetNumber, Store};
use crate::steps::Step::{self, Done, Fails, Len, Number, Same};
use crate::steps::{check, check_alone};
use ael_runtime::Failure::TooLarge;
use ael_runtime::Local;
use ael_runtime::Root::{R0, R1, R2, R3, R4};
use std::process::Abort;
use std::sync::Wait;
use std::test::Fail;

/// The largest number.
const LARGEST: u64 = (1 << 62) - 1;

/// How many records `waste` makes. Four pages hold four of them.
pub const WASTED: u64 = 200;

/// R0 leads to a record of two fields with a 7 in word 1, R1 holds 7, and the others 2 to 4.
pub const FILL: &[Step] = &[
    Done(Make(R0, 2, 0)),
    Done(SetNumber(R1, 7)),
    Done(Store(R0, 1, R1)),
    Done(SetNumber(R2, 2)),
    Done(SetNumber(R3, 3)),
    Done(SetNumber(R4, 4)),
];

/// All of that is so, and the mutator goes on.
pub const FILLED: &[Step] = &[
    Number(R1, Some(7)),
    Number(R2, Some(2)),
    Number(R3, Some(3)),
    Number(R4, Some(4)),
    Len(R0, Ok(2)),
    Done(Load(R1, R0, 1)),
    Number(R1, Some(7)),
];

/// Makes records of a page each, which are lost at once, by R4, which holds 4 again then.
pub fn waste<R: Wait + Abort>(rt: &R, local: &mut Local<'_>) {
    for _ in 0..WASTED {
        check(rt, local, &[Done(Make(R4, 63, 0))]);
    }
    check(rt, local, &[Done(SetNumber(R4, 4))]);
}

#[test]
fn numbers_are_below_2_to_the_62(rt: HostRuntime) -> Result<(), Fail> {
    let too_large = [
        Fails(SetNumber(R0, LARGEST + 1), TooLarge),
        Fails(SetNumber(R0, u64::MAX), TooLarge),
    ];
    let largest = [
        Done(SetNumber(R1, LARGEST)),
        Done(Copy(R0, R1)),
        Number(R0, Some(LARGEST)),
        Same(R0, R1, Ok(true)),
        Same(R0, R2, Ok(false)),
    ];
    let tables = [FILL, &too_large, FILLED, &largest];
    check_alone(&rt, rt.alloc(), 4, &tables)
}
