//! Calls of a mutator and what they answer, as rows of tables.

use crate::asserting::assert_same;
use crate::heaps::open_one;
use ael_runtime::{Failure, Local, Root};
use std::alloc::Global;
use std::process::Abort;
use std::sync::Wait;
use std::test::Fail;

/// A call that is made or fails, with the operands of the method of `Local` that has its name.
#[derive(Clone, Copy)]
pub enum Call {
    SetNumber(Root, u64),
    Copy(Root, Root),
    Make(Root, u16, u16),
    Load(Root, Root, u16),
    Store(Root, u16, Root),
    PushFrame(u16),
    PopFrame,
    Save(u16, Root),
    Restore(Root, u16),
    Share(u8, Root),
    ReadShared(Root, u8),
    Take(Root, u8),
}

/// A call, and what it answers.
#[derive(Clone, Copy)]
pub enum Step {
    Done(Call),
    Fails(Call, Failure),
    Number(Root, Option<u64>),
    Len(Root, Result<u64, Failure>),
    Same(Root, Root, Result<bool, Failure>),
}

/// Makes a call.
fn make<R: Wait>(rt: &R, local: &mut Local<'_>, call: Call) -> Result<(), Failure> {
    match call {
        Call::SetNumber(to, number) => local.set_number(rt, to, number),
        Call::Copy(to, from) => local.copy(rt, to, from),
        Call::Make(to, fields, numbers) => local.make(rt, to, fields, numbers),
        Call::Load(to, of, at) => local.load(rt, to, of, at),
        Call::Store(of, at, what) => local.store(rt, of, at, what),
        Call::PushFrame(slots) => local.push_frame(rt, slots),
        Call::PopFrame => local.pop_frame(rt),
        Call::Save(slot, from) => local.save(rt, slot, from),
        Call::Restore(to, slot) => local.restore(rt, to, slot),
        Call::Share(word, from) => local.share(rt, word, from),
        Call::ReadShared(to, word) => local.read_shared(rt, to, word),
        Call::Take(to, word) => local.take(rt, to, word),
    }
}

/// Makes a call, and compares what it answers. A failure tells at which row.
fn check_step<R: Wait + Abort>(rt: &R, local: &mut Local<'_>, row: usize, step: Step) {
    match step {
        Step::Done(call) => assert_same(rt, &(row, make(rt, local, call)), &(row, Ok(()))),
        Step::Fails(call, why) => assert_same(rt, &(row, make(rt, local, call)), &(row, Err(why))),
        Step::Number(of, number) => assert_same(rt, &(row, local.number(of)), &(row, number)),
        Step::Len(of, len) => assert_same(rt, &(row, local.len(rt, of)), &(row, len)),
        Step::Same(one, other, same) => {
            assert_same(rt, &(row, local.same(rt, one, other)), &(row, same))
        }
    }
}

/// Makes these calls, in order, and compares what they answer.
pub fn check<R: Wait + Abort>(rt: &R, local: &mut Local<'_>, steps: &[Step]) {
    for (row, step) in steps.iter().enumerate() {
        check_step(rt, local, row, *step);
    }
}

/// The same for each of these tables, by a mutator alone in a heap of so many pages.
pub fn check_alone<R: Wait + Abort>(
    rt: &R,
    alloc: Global,
    pages: u32,
    tables: &[&[Step]],
) -> Result<(), Fail> {
    let (heap, mutator) = open_one(alloc, pages)?;
    let mut local = Local::new(&heap, mutator);
    for steps in tables {
        check(rt, &mut local, steps);
    }
    Ok(())
}
