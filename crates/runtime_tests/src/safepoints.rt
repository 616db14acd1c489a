//! Threads that make no calls for long, while another one makes the heap flip.

use crate::asserting::assert_same;
use crate::heaps::open_two;
use crate::roots::{FILL, FILLED, waste};
use crate::steps::check;
use ael_runtime::Local;
use std::process::Abort;
use std::sync::Wait;
use std::sync::atomic::{AtomicBool, Ordering};
use std::test::Fail;
use std::thread::{join_mut, yield_now};

/// How often one looks for a sign of the other, before it gives up.
const LOOKS: u32 = 1_000_000_000;

/// Waits until the sign is given, and tells whether it was.
pub fn comes(sign: &AtomicBool) -> bool {
    for looks in 0..LOOKS {
        if sign.load(Ordering::SeqCst) {
            return true;
        }
        if looks % 64 == 0 {
            yield_now();
        }
    }
    false
}

/// Computes until the other has flipped, with a safepoint now and then.
fn computes<R: Wait>(rt: &R, local: &mut Local<'_>, has_flipped: &AtomicBool) -> u64 {
    let mut sum = 0u64;
    for k in 0..u64::MAX {
        sum = sum.wrapping_mul(31).wrapping_add(k);
        if k % 64 == 0 {
            local.safepoint(rt);
        }
        if has_flipped.load(Ordering::SeqCst) {
            break;
        }
    }
    sum
}

/// Flips, and tells it.
fn flips<R: Wait + Abort>(rt: &R, local: &mut Local<'_>, has_flipped: &AtomicBool) {
    waste(rt, local);
    has_flipped.store(true, Ordering::SeqCst);
}

#[test]
fn others_flip_while_one_computes_or_is_away(rt: HostRuntime) -> Result<(), Fail> {
    let (heap, first, second) = open_two(rt.alloc())?;
    let mut one = Local::new(&heap, first);
    let mut other = Local::new(&heap, second);
    check(&rt, &mut one, FILL);
    let has_flipped = AtomicBool::new(false);
    join_mut(
        &rt,
        &mut || computes(&rt, &mut one, &has_flipped),
        &mut || flips(&rt, &mut other, &has_flipped),
    );
    check(&rt, &mut one, FILLED);
    has_flipped.store(false, Ordering::SeqCst);
    let (has_come, ()) = join_mut(
        &rt,
        &mut || one.away(&rt, || comes(&has_flipped)),
        &mut || flips(&rt, &mut other, &has_flipped),
    );
    assert!(&rt; has_come);
    check(&rt, &mut one, FILLED);
    let (one, other) = (one.leave(&rt), other.leave(&rt));
    assert!(&rt; one.epoch() > 0);
    assert_same(&rt, &one.epoch(), &other.epoch());
    Ok(())
}
