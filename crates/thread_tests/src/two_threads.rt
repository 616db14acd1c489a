//! Callers on threads of their own.

ghost use Rattle.std.specs.Prelude.{◌≡◌, ◌≤◌, None};
ghost use Rattle.gc_worker.specs.declared.stage.Stage.TheVariants.{Gone};

use crate::asserting::assert_same;
use crate::calling::{leave, make, make_all, reg};
use crate::heaps::open_two;
use ael_threads::{Mutator, Reg, Shared};
use mutator_asm::{Instr, Operand};
use plain_state::End;
use std::process::Abort;
use std::sync::Wait;
use std::thread::join_mut;

/// How many records of four words each of them makes, which take 13 pages. Of both that is more than a space of 16 pages, so that
/// the spaces are exchanged; once, since there is room then for what is left, whoever is first.
const RECORDS: u64 = 200;

const PAGES: u32 = 16;

/// Makes records, reads back what it has stored in each, prints the last one's number, and leaves.
fn work<R: Wait + Abort>(rt: &R, h: &Shared, mutator: &mut Mutator, first: u64)
    requires table { mutator.old.table ≡ h.now.table.shared.table_id }
    requires rests { mutator.old.worker.task ≡ None }
    requires small { first ≤ 10000 }
    ensures table { mutator.new.table ≡ mutator.old.table }
    ensures left { mutator.new.worker.stage ≡ Gone }
{
    for k in first..first + RECORDS {
        let record = [
            Instr::New(0, Operand::Number(3)),
            Instr::Li(1, k),
            Instr::St(0, Operand::Number(2), 1),
            Instr::Ld(2, 0, Operand::Number(2)),
        ];
        make_all(rt, h, mutator, &record);
        assert_same(rt, &reg(mutator, 2), &Reg::Number(k));
    }
    make(rt, h, mutator, Instr::Out(2));
    leave(rt, h, mutator);
}

/// It has printed its own last number, made its records, and halted.
fn check_own(rt: &impl Abort, mutator: &Mutator, printed: &[u64]) {
    assert_same(
        rt,
        &(mutator.outputs(), mutator.serial(), mutator.ended()),
        &(printed, RECORDS, Some(End::Halt)),
    );
}

#[test]
fn callers_on_two_threads_keep_their_own(rt: HostRuntime) {
    let (h, mut seats, mut first, mut second) = open_two(&rt, rt.alloc(), PAGES, false);
    join_mut(
        &rt,
        &mut || work(&rt, &h, &mut first, 1000),
        &mut || work(&rt, &h, &mut second, 5000),
    );
    check_own(&rt, &first, &[1199]);
    check_own(&rt, &second, &[5199]);
    // The spaces were exchanged once.
    assert_same(&rt, &first.epoch().max(second.epoch()), &1);
    first.absorb(&h, second);
    seats.mutators.push_reserved(first);
    let _words = h.close(seats);
}
