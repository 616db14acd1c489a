//! A mutator that makes no calls for long, while another one exchanges the spaces.

ghost use Rattle.std.specs.Prelude.{◌≡◌, None};

use crate::asserting::assert_same;
use crate::calling::reg;
use crate::heaps::{close_two, open_two};
use crate::keeping::{check_list, flip_until, make_list};
use crate::signs::comes;
use ael_threads::{Mutator, Reg, Shared};
use std::marker::Sync;
use std::process::Abort;
use std::sync::Wait;
use std::sync::atomic::{AtomicBool, Ordering};
use std::thread::{Threads, join_mut};

/// How often the spaces are exchanged. It is odd, so that the list then lies in the other space.
const FLIPS: u32 = 5;

/// Computes until the other has flipped. It polls whenever it is waited for.
fn computes<R: Wait>(rt: &R, h: &Shared, mutator: &mut Mutator, has_flipped: &AtomicBool) -> u64
    requires table { mutator.old.table ≡ h.now.table.shared.table_id }
    requires rests { mutator.old.worker.task ≡ None }
    ensures table { mutator.new.table ≡ mutator.old.table }
    ensures rests { mutator.new.worker.task ≡ None }
{
    let mut sum = 0u64;
    for k in 0..u64::MAX {
        if mutator.passes(h) {
            sum = sum.wrapping_mul(31).wrapping_add(k);
        } else {
            mutator.poll(rt, h);
        }
        if has_flipped.load(Ordering::SeqCst) {
            break;
        }
    }
    sum
}

/// Is away until the other has flipped, and tells whether it has.
fn waits<R: Threads + Wait + Sync>(
    rt: &R,
    h: &Shared,
    mutator: &mut Mutator,
    has_flipped: &AtomicBool,
) -> bool
    requires table { mutator.old.table ≡ h.now.table.shared.table_id }
    requires rests { mutator.old.worker.task ≡ None }
    ensures table { mutator.new.table ≡ mutator.old.table }
    ensures rests { mutator.new.worker.task ≡ None }
{
    mutator.away(rt, h, || comes(has_flipped))
}

/// Flips, and tells it.
fn flips<R: Wait + Abort>(rt: &R, h: &Shared, mutator: &mut Mutator, has_flipped: &AtomicBool)
    requires table { mutator.old.table ≡ h.now.table.shared.table_id }
    requires rests { mutator.old.worker.task ≡ None }
    ensures table { mutator.new.table ≡ mutator.old.table }
    ensures rests { mutator.new.worker.task ≡ None }
{
    flip_until(rt, h, mutator, FLIPS);
    has_flipped.store(true, Ordering::SeqCst);
}

/// It rests, its list has been moved and is as it was, and nobody waits for it.
fn check_rested<R: Wait + Abort>(rt: &R, h: &Shared, mutator: &mut Mutator, before: Reg)
    requires table { mutator.old.table ≡ h.now.table.shared.table_id }
    requires rests { mutator.old.worker.task ≡ None }
    ensures table { mutator.new.table ≡ mutator.old.table }
    ensures rests { mutator.new.worker.task ≡ None }
{
    assert!(rt; mutator.rests() && mutator.passes(h));
    assert_same(rt, &mutator.epoch(), &FLIPS);
    assert!(rt; reg(mutator, 0) != before);
    check_list(rt, h, mutator);
}

#[test]
fn others_flip_while_one_is_away(rt: HostRuntime) {
    let (h, seats, mut one, mut other) = open_two(&rt, rt.alloc(), 4, false);
    make_list(&rt, &h, &mut one);
    let before = reg(&one, 0);
    let has_flipped = AtomicBool::new(false);
    let (has_come, ()) = join_mut(
        &rt,
        &mut || waits(&rt, &h, &mut one, &has_flipped),
        &mut || flips(&rt, &h, &mut other, &has_flipped),
    );
    assert!(rt; has_come);
    check_rested(&rt, &h, &mut one, before);
    close_two(&rt, h, seats, one, other);
}

#[test]
fn others_flip_while_one_polls(rt: HostRuntime) {
    let (h, seats, mut one, mut other) = open_two(&rt, rt.alloc(), 4, false);
    make_list(&rt, &h, &mut one);
    let before = reg(&one, 0);
    let has_flipped = AtomicBool::new(false);
    let (_sum, ()) = join_mut(
        &rt,
        &mut || computes(&rt, &h, &mut one, &has_flipped),
        &mut || flips(&rt, &h, &mut other, &has_flipped),
    );
    check_rested(&rt, &h, &mut one, before);
    close_two(&rt, h, seats, one, other);
}
