//! A caller that makes `snap`, and then waits for another one by other means than the heap.

ghost use Rattle.std.specs.Prelude.{◌≡◌, None};
ghost use Rattle.gc_worker.specs.declared.stage.Stage.TheVariants.{Gone};

use crate::asserting::assert_same;
use crate::calling::{leave, make, make_all};
use crate::heaps::open_two;
use crate::signs::comes;
use ael_threads::{Mutator, Shared};
use checkpoint_text::checkpoint;
use mutator_asm::{Instr, Operand};
use std::process::Abort;
use std::sync::Wait;
use std::sync::atomic::{AtomicBool, Ordering};
use std::thread::join_mut;

/// How many instructions one executes at most until the other has made `snap`. If it hasn't by then, the store fails.
const LOOKS: u32 = 1_000_000_000;

const ZERO: Operand = Operand::Number(0);

const ONE: Operand = Operand::Number(1);

/// The record as it was at `snap`.
const TEXT: &str = "checkpoint 1\nboard 0.1 0 0 0 0 0 0 0 0 0 0 0 0 0 0 0\n0.1 fields 1: 5\n";

/// What the two tell each other apart from the heap.
#[derive(Drop)]
struct Signs {
    snapped: AtomicBool,
    stored: AtomicBool,
}

/// Puts a record with a 5 on the board, makes `snap`, waits for the other, and leaves.
fn snaps<R: Wait + Abort>(rt: &R, h: &Shared, mutator: &mut Mutator, signs: &Signs)
    requires table { mutator.old.table ≡ h.now.table.shared.table_id }
    requires rests { mutator.old.worker.task ≡ None }
    ensures table { mutator.new.table ≡ mutator.old.table }
{
    let share_and_snap = [
        Instr::New(0, ONE),
        Instr::Li(1, 5),
        Instr::St(0, ZERO, 1),
        Instr::Put(ZERO, 0),
        Instr::Snap,
    ];
    make_all(rt, h, mutator, &share_and_snap);
    signs.snapped.store(true, Ordering::SeqCst);
    assert!(rt; comes(&signs.stored));
    leave(rt, h, mutator);
}

/// Executes instructions until the other has made `snap`, stores a 6 in its record, and leaves.
fn stores<R: Wait + Abort>(rt: &R, h: &Shared, mutator: &mut Mutator, signs: &Signs)
    requires table { mutator.old.table ≡ h.now.table.shared.table_id }
    requires rests { mutator.old.worker.task ≡ None }
    ensures table { mutator.new.table ≡ mutator.old.table }
    ensures left { mutator.new.worker.stage ≡ Gone }
{
    for _ in 0..LOOKS {
        make(rt, h, mutator, Instr::Li(1, 6));
        if signs.snapped.load(Ordering::SeqCst) {
            break;
        }
    }
    let store = [Instr::Get(0, ZERO), Instr::St(0, ZERO, 1)];
    make_all(rt, h, mutator, &store);
    signs.stored.store(true, Ordering::SeqCst);
    leave(rt, h, mutator);
}

#[test]
fn who_has_made_snap_may_wait_for_another(rt: HostRuntime) {
    let (h, mut seats, mut first, mut second) = open_two(&rt, rt.alloc(), 4, true);
    let signs = Signs {
        snapped: AtomicBool::new(false),
        stored: AtomicBool::new(false),
    };
    join_mut(
        &rt,
        &mut || snaps(&rt, &h, &mut first, &signs),
        &mut || stores(&rt, &h, &mut second, &signs),
    );
    first.absorb(&h, second);
    seats.mutators.push_reserved(first);
    let words = h.close(seats).to_vec(rt.alloc()).expect(&rt, "no words");
    let text = checkpoint(rt.alloc(), &words).expect(&rt, "no text");
    assert_same(&rt, &text.as_slice(), &TEXT.as_bytes());
}
