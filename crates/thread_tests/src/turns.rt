//! Callers that make their acts in turns, on one thread.

ghost use Rattle.std.specs.Prelude.{◌≡◌, None, IsTrue, true};
ghost use Rattle.mutator_asm.specs.Program.{is_valid};
ghost use Rattle.ael_threads.specs.Histories.{Each};

use crate::asserting::assert_same;
use crate::calling::{begin, reg};
use crate::heaps::{close_two, open_two};
use ael_threads::{Mutator, Reg, Shared};
use gc_worker::Stepped;
use mutator_asm::{Instr, Operand};
use std::process::Abort;

/// More acts than an instruction here needs.
const MOST: u32 = 10_000;

const ZERO: Operand = Operand::Number(0);

const ONE: Operand = Operand::Number(1);

/// One act of a mutator that is not done. It tells whether it is done.
fn turn(h: &Shared, mutator: &mut Mutator, is_done: bool) -> bool
    requires table { mutator.old.table ≡ h.now.table.shared.table_id }
    requires rests { is_done ≡ true → mutator.old.worker.task ≡ None }
    ensures table { mutator.new.table ≡ mutator.old.table }
    ensures rests { result ≡ true → mutator.new.worker.task ≡ None }
{
    is_done || matches!(mutator.act(h), Stepped::Effect(_))
}

/// Each of two mutators executes an instruction, by acts in turns.
fn make_both(
    rt: &impl Abort,
    h: &Shared,
    one: &mut Mutator,
    other: &mut Mutator,
    first: Instr,
    second: Instr,
)
    requires one { (one.old.table ≡ h.now.table.shared.table_id) × (one.old.worker.task ≡ None) }
    requires other { (other.old.table ≡ h.now.table.shared.table_id) × (other.old.worker.task ≡ None) }
    requires valid { IsTrue (is_valid first) × IsTrue (is_valid second) }
    ensures one { (one.new.table ≡ one.old.table) × (one.new.worker.task ≡ None) }
    ensures other { (other.new.table ≡ other.old.table) × (other.new.worker.task ≡ None) }
{
    begin(rt, one, first);
    begin(rt, other, second);
    let mut is_one_done = false;
    let mut is_other_done = false;
    for _ in 0..MOST {
        is_one_done = turn(h, one, is_one_done);
        is_other_done = turn(h, other, is_other_done);
        if is_one_done && is_other_done {
            return;
        }
    }
    panic!(rt; "an instruction isn't executed");
}

/// Each has read the other's number, and points to the other's record.
fn check_shared(rt: &impl Abort, one: &Mutator, other: &Mutator) {
    assert_same(
        rt,
        &(reg(one, 3), reg(other, 3)),
        &(Reg::Number(8), Reg::Number(7)),
    );
    let (own, others) = (reg(one, 0), reg(other, 0));
    assert_same(rt, &(reg(one, 2), reg(other, 2)), &(others, own));
    assert!(rt; own != others);
    assert!(rt; matches!(own, Reg::Pointer(_)));
}

/// Each makes a record with a number of its own, puts it on the board, and reads the other's.
const SHARE: [(Instr, Instr); 6] = [
    (Instr::New(0, ONE), Instr::New(0, ONE)),
    (Instr::Li(1, 7), Instr::Li(1, 8)),
    (Instr::St(0, ZERO, 1), Instr::St(0, ZERO, 1)),
    (Instr::Put(ZERO, 0), Instr::Put(ONE, 0)),
    (Instr::Get(2, ONE), Instr::Get(2, ZERO)),
    (Instr::Ld(3, 2, ZERO), Instr::Ld(3, 2, ZERO)),
];

/// Each of two mutators executes its instructions, by acts in turns.
fn make_all_both(
    rt: &impl Abort,
    h: &Shared,
    one: &mut Mutator,
    other: &mut Mutator,
    instrs: &[(Instr, Instr)],
)
    requires one { (one.old.table ≡ h.now.table.shared.table_id) × (one.old.worker.task ≡ None) }
    requires other { (other.old.table ≡ h.now.table.shared.table_id) × (other.old.worker.task ≡ None) }
    requires valid { Each (λ p. IsTrue (is_valid p.0) × IsTrue (is_valid p.1)) instrs.now }
    ensures one { (one.new.table ≡ one.old.table) × (one.new.worker.task ≡ None) }
    ensures other { (other.new.table ≡ other.old.table) × (other.new.worker.task ≡ None) }
{
    for pair in instrs {
        make_both(rt, h, one, other, pair.0, pair.1);
    }
}

#[test]
fn two_callers_see_what_the_other_shares(rt: HostRuntime) {
    let (h, seats, mut one, mut other) = open_two(&rt, rt.alloc(), 4, false);
    make_all_both(&rt, &h, &mut one, &mut other, &SHARE);
    check_shared(&rt, &one, &other);
    close_two(&rt, h, seats, one, other);
}
