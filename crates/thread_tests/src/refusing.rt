//! Calls that are refused, and change nothing.

ghost use Rattle.std.specs.Prelude.{◌≡◌};

use crate::asserting::assert_same;
use crate::calling::reg;
use crate::heaps::{close_two, open_two, open_without_printing};
use ael_threads::{Did, Mutator, Refused, Reg, Shared};
use mutator_asm::{Instr, Operand};
use plain_state::End;
use std::process::Abort;
use std::sync::Wait;

/// More acts than an instruction here needs.
const MOST: u32 = 1_000;

const ZERO: Operand = Operand::Number(0);

const ONE: Operand = Operand::Number(1);

/// An instruction of a text, and four that no text can hold.
const INSTRS: [Instr; 5] = [
    Instr::New(1, ONE),
    Instr::Mov(8, 0),
    Instr::Li(0, 1 << 62),
    Instr::New(0, Operand::Reg(8)),
    Instr::Jmp(65_537),
];

/// A number is stored in a record, and the record replaced by it.
const STORES_AND_LOADS: [Instr; 2] = [Instr::St(0, ZERO, 1), Instr::Ld(0, 0, ZERO)];

/// Instructions that print nothing.
const PRINTS_NOTHING: [Instr; 6] = [
    Instr::Li(1, 7),
    Instr::New(0, ONE),
    Instr::St(0, ZERO, 1),
    Instr::Ld(2, 0, ZERO),
    Instr::Put(ZERO, 0),
    Instr::Snap,
];

/// What is seen of a mutator that uses two registers: these, its counter and serial, whether it has a call under way, and its end.
type Seen = ([Reg; 2], (u64, u64), bool, Option<End>);

fn look(mutator: &Mutator) -> Seen {
    (
        [reg(mutator, 0), reg(mutator, 1)],
        (mutator.pc(), mutator.serial()),
        mutator.is_calling(),
        mutator.ended(),
    )
}

/// Each of these is refused for this reason, and nothing changes.
fn check_refused<R: Wait + Abort>(
    rt: &R,
    h: &Shared,
    mutator: &mut Mutator,
    instrs: &[Instr],
    why: Refused,
)
    requires { mutator.old.table ≡ h.now.table.shared.table_id }
    ensures { mutator.new.table ≡ mutator.old.table }
{
    let refused = (Some(why), Err(why), Err(why), look(mutator));
    for instr in instrs {
        let tried = (
            mutator.refusal(instr),
            mutator.try_begin(instr),
            mutator.try_exec(rt, h, instr),
            look(mutator),
        );
        assert_same(rt, &tried, &refused);
    }
}

/// Each of these is tried, and comes to this.
fn check_did<R: Wait + Abort>(rt: &R, h: &Shared, mutator: &mut Mutator, instrs: &[Instr], did: Did)
    requires { mutator.old.table ≡ h.now.table.shared.table_id }
    ensures { mutator.new.table ≡ mutator.old.table }
{
    for instr in instrs {
        assert_same(rt, &mutator.try_exec(rt, h, instr), &Ok(did));
    }
}

/// Makes the acts of the instruction that it has begun.
fn act_all(h: &Shared, mutator: &mut Mutator)
    requires { mutator.old.table ≡ h.now.table.shared.table_id }
    ensures { mutator.new.table ≡ mutator.old.table }
{
    for _ in 0..MOST {
        mutator.act(h);
    }
}

/// Tries calls between two instructions, while one is under way, and after an end.
fn try_calls<R: Wait + Abort>(rt: &R, h: &Shared, mutator: &mut Mutator)
    requires { mutator.old.table ≡ h.now.table.shared.table_id }
    ensures { mutator.new.table ≡ mutator.old.table }
{
    check_did(rt, h, mutator, &[Instr::New(0, ONE)], Did::Done);
    check_refused(rt, h, mutator, &INSTRS[1..], Refused::Operand);
    assert_same(rt, &mutator.try_begin(&Instr::Li(1, 7)), &Ok(()));
    check_refused(rt, h, mutator, &INSTRS, Refused::Calling);
    act_all(h, mutator);
    assert_same(rt, &reg(mutator, 1), &Reg::Number(7));
    check_did(rt, h, mutator, &STORES_AND_LOADS, Did::Done);
    assert_same(rt, &reg(mutator, 0), &Reg::Number(7));
    let ended = End::NotPointer;
    check_did(rt, h, mutator, &[Instr::Len(1, 0)], Did::Trap(ended));
    check_refused(rt, h, mutator, &INSTRS, Refused::Ended(ended));
    assert_same(rt, &look(mutator).1, &(4, 1));
}

#[test]
fn refused_calls_change_nothing(rt: HostRuntime) {
    let (h, seats, mut one, other) = open_two(&rt, rt.alloc(), 4, false);
    try_calls(&rt, &h, &mut one);
    // Who has an end has no call under way, as `close_two` asks.
    assert!(rt; one.ended().is_some());
    close_two(&rt, h, seats, one, other);
}

#[test]
fn a_heap_opened_without_printing_refuses_out_alone(rt: HostRuntime) {
    let (h, mut seats, mut mutator) = open_without_printing(&rt, rt.alloc());
    assert!(rt; !mutator.may_print());
    check_refused(&rt, &h, &mut mutator, &[Instr::Out(0)], Refused::Printing);
    check_refused(&rt, &h, &mut mutator, &[Instr::Out(8)], Refused::Operand);
    check_did(&rt, &h, &mut mutator, &PRINTS_NOTHING, Did::Done);
    assert_same(&rt, &reg(&mutator, 2), &Reg::Number(7));
    seats.mutators.push_reserved(mutator);
    let _words = h.close(seats);
}
