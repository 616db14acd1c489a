//! A list is built and summed by bare calls, and by the runtime. `bench/runtime` counts what each takes.

ghost use Rattle.std.specs.Prelude.{◌≡◌, false, None, IsTrue};
ghost use Rattle.mutator_asm.specs.Program.{is_valid};
ghost use Rattle.gc_worker.specs.Steps.Stepped.{is_output};

use crate::asserting::assert_same;
use crate::heaps::open_one;
use ael_runtime::Root::{R0, R1, R2};
use ael_runtime::{Failure, Local, Mutator, Shared};
use ael_threads::Instr::{Ld, Li, Mov, New, St};
use ael_threads::Operand::Number;
use ael_threads::{Did, Instr, MOST_RECORDS, Reg};
use std::process::Abort;
use std::sync::Wait;
use std::test::Fail;

/// How many lists are built, of how many numbers each, in a heap of how many pages.
const LISTS: u64 = 40;

const EACH: u64 = 50;

const PAGES: u32 = 64;

/// The sum of all numbers.
const SUM: u64 = LISTS * EACH * (EACH + 1) / 2;

/// One call, which is executed.
fn call<R: Wait + Abort>(rt: &R, heap: &Shared, mutator: &mut Mutator, instr: Instr)
    requires table { mutator.old.table ≡ heap.now.table.shared.table_id }
    requires rests { mutator.old.worker.task ≡ None }
    requires valid { IsTrue (is_valid instr) }
    requires silent { is_output instr ≡ false }
    ensures table { mutator.new.table ≡ mutator.old.table }
    ensures rests { mutator.new.worker.task ≡ None }
{
    assert!(rt; mutator.ended().is_none());
    assert!(rt; mutator.serial() < MOST_RECORDS);
    let did = mutator.exec(rt, heap, &instr);
    assert!(rt; did == Did::Done);
}

/// The sum of a list, whose links are built and then read one by one.
fn sum_by_calls<R: Wait + Abort>(rt: &R, heap: &Shared, mutator: &mut Mutator) -> u64
    requires table { mutator.old.table ≡ heap.now.table.shared.table_id }
    requires rests { mutator.old.worker.task ≡ None }
    ensures table { mutator.new.table ≡ mutator.old.table }
    ensures rests { mutator.new.worker.task ≡ None }
{
    call(rt, heap, mutator, Li(0, 0));
    for k in 1..=EACH {
        call(rt, heap, mutator, New(1, Number(2)));
        call(rt, heap, mutator, Li(2, k));
        call(rt, heap, mutator, St(1, Number(0), 2));
        call(rt, heap, mutator, St(1, Number(1), 0));
        call(rt, heap, mutator, Mov(0, 1));
    }
    let mut sum = 0;
    for _ in 0..EACH {
        call(rt, heap, mutator, Ld(2, 0, Number(0)));
        if let Reg::Number(number) = mutator.reg(2) {
            sum = number.wrapping_add(sum);
        }
        call(rt, heap, mutator, Ld(0, 0, Number(1)));
    }
    sum
}

/// The same by the runtime.
fn sum_by_runtime<R: Wait>(rt: &R, local: &mut Local<'_>) -> Result<u64, Failure> {
    local.set_number(rt, R0, 0)?;
    for k in 1..=EACH {
        local.make(rt, R1, 2, 0)?;
        local.set_number(rt, R2, k)?;
        local.store(rt, R1, 0, R2)?;
        local.store(rt, R1, 1, R0)?;
        local.copy(rt, R0, R1)?;
    }
    let mut sum = 0;
    for _ in 0..EACH {
        local.load(rt, R2, R0, 0)?;
        if let Some(number) = local.number(R2) {
            sum = number.wrapping_add(sum);
        }
        local.load(rt, R0, R0, 1)?;
    }
    Ok(sum)
}

#[test]
fn nothing_is_made(rt: HostRuntime) -> Result<(), Fail> {
    let (_heap, mutator) = open_one(rt.alloc(), PAGES)?;
    assert_same(&rt, &mutator.serial(), &0);
    Ok(())
}

#[test]
fn lists_are_summed_by_calls(rt: HostRuntime) -> Result<(), Fail> {
    let (heap, mut mutator) = open_one(rt.alloc(), PAGES)?;
    let mut sum: u64 = 0;
    for _ in 0..LISTS {
        sum = sum.wrapping_add(sum_by_calls(&rt, &heap, &mut mutator));
    }
    assert_same(&rt, &sum, &SUM);
    assert_same(&rt, &mutator.serial(), &(LISTS * EACH));
    Ok(())
}

#[test]
fn lists_are_summed_by_the_runtime(rt: HostRuntime) -> Result<(), Fail> {
    let (heap, mutator) = open_one(rt.alloc(), PAGES)?;
    let mut local = Local::new(&heap, mutator);
    let mut sum: u64 = 0;
    for _ in 0..LISTS {
        sum = sum.wrapping_add(sum_by_runtime(&rt, &mut local)?);
    }
    assert_same(&rt, &sum, &SUM);
    Ok(())
}
