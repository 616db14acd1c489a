//! The heap on threads, for programs in C.
//!
//! A handle is a pointer that C keeps and never looks behind. Each export tells by its answer what a caller got wrong, and waits for
//! nobody.
#![tactic(auto)]

mod acts;
mod answer;
mod handle;
mod instruction;
mod loose;
mod mutator_seat;
mod opening;
mod scanner_seat;
mod seat;

ghost use Rattle.std.specs.Prelude.{◌≡◌, false};
ghost use Rattle.ael_c.specs.Answers.{code_of};
ghost use Rattle.ael_c.specs.Calls.{MakesCall, Polls, Leaves, ReadsRegister, Scans, Tells};
ghost use Rattle.ael_c.specs.Handles.{ByHandle, Frees, OnMutator, OnScanner, Opens, handles, is_mutator};
ghost use Rattle.ael_c.specs.Instructions.{instruction_of};

use answer::Answer;
pub use handle::Handle;
use instruction::instruction;
use std::alloc::Global;

/// Opens a heap, and puts a seat behind each of these handles: one for each mutator, and one for each scanner. The heap goes with the last
/// seat that is freed.
#[unsafe(no_mangle)]
pub extern "C" fn ael_open_seats(
    alloc: Global,
    pages: u32,
    limit: u32,
    mutators: &mut [Handle],
    scanners: &mut [Handle],
) -> i32
    ensures { (answer : Answer) × (result ≡ code_of answer) × Opens pages limit (handles mutators.old scanners.old) answer (handles mutators.new scanners.new) }
{
    opening::open(alloc, pages, limit, mutators, scanners).code()
}

/// Makes a call: of the instruction with this number and these operands.
#[unsafe(no_mangle)]
pub extern "C" fn ael_call(
    alloc: Global,
    mutator: &mut Handle,
    op: u32,
    a: u64,
    b: u64,
    c: u64,
    d: u64,
    e: u64,
) -> i32
    ensures { ByHandle (OnMutator (MakesCall (instruction_of op a b c d e))) mutator.old.value result mutator.new.value }
{
    let Some(mut seat) = mutator.take(alloc) else {
        return Answer::BadHandle.code();
    };
    let answer = seat.call(instruction(op, a, b, c, d, e));
    mutator.put(seat);
    answer.code()
}

/// Goes on with the call that is under way. If none is, it is a safepoint; a mutator with an end leaves.
#[unsafe(no_mangle)]
pub extern "C" fn ael_poll(alloc: Global, mutator: &mut Handle) -> i32
    ensures { ByHandle (OnMutator Polls) mutator.old.value result mutator.new.value }
{
    let Some(mut seat) = mutator.take(alloc) else {
        return Answer::BadHandle.code();
    };
    let answer = seat.poll();
    mutator.put(seat);
    answer.code()
}

/// Makes some acts by which the mutator leaves the heap, or for a call that is under way, and tells what that came to.
#[unsafe(no_mangle)]
pub extern "C" fn ael_leave(alloc: Global, mutator: &mut Handle) -> i32
    ensures { ByHandle (OnMutator Leaves) mutator.old.value result mutator.new.value }
{
    let Some(mut seat) = mutator.take(alloc) else {
        return Answer::BadHandle.code();
    };
    let answer = seat.leave();
    mutator.put(seat);
    answer.code()
}

/// Tells what register `i` holds: a number, or a record's address, which is good until the mutator's next call.
#[unsafe(no_mangle)]
pub extern "C" fn ael_reg(alloc: Global, mutator: &mut Handle, i: u32, value: &mut u64) -> i32
    ensures told { ByHandle (OnMutator (ReadsRegister i value.old value.new)) mutator.old.value result mutator.new.value }
    ensures kept { is_mutator mutator.old.value ≡ false → value.new ≡ value.old }
{
    let Some(seat) = mutator.take(alloc) else {
        return Answer::BadHandle.code();
    };
    let answer = seat.reg(i, value);
    mutator.put(seat);
    answer.code()
}

/// Tells of a mutator: the serial of its latest record, its epoch, and its end.
#[unsafe(no_mangle)]
pub extern "C" fn ael_tell(
    alloc: Global,
    mutator: &mut Handle,
    serial: &mut u64,
    epoch: &mut u32,
) -> i32
    ensures told { ByHandle (OnMutator (Tells serial.new epoch.new)) mutator.old.value result mutator.new.value }
    ensures kept { is_mutator mutator.old.value ≡ false → (serial.new ≡ serial.old) × (epoch.new ≡ epoch.old) }
{
    let Some(seat) = mutator.take(alloc) else {
        return Answer::BadHandle.code();
    };
    let answer = seat.tell(serial, epoch);
    mutator.put(seat);
    answer.code()
}

/// Makes some acts of a scanner's round.
#[unsafe(no_mangle)]
pub extern "C" fn ael_scan(alloc: Global, scanner: &mut Handle) -> i32
    ensures { ByHandle (OnScanner Scans) scanner.old.value result scanner.new.value }
{
    let Some(mut seat) = scanner.take(alloc) else {
        return Answer::BadHandle.code();
    };
    let answer = seat.scan();
    scanner.put(seat);
    answer.code()
}

/// Frees a seat: a mutator's once it has left, a scanner's if it rests.
#[unsafe(no_mangle)]
pub extern "C" fn ael_free(alloc: Global, handle: &mut Handle) -> i32
    ensures { Frees handle.old.value result handle.new.value }
{
    let Some(seat) = handle.take(alloc) else {
        return Answer::BadHandle.code();
    };
    if !seat.may_go() {
        handle.put(seat);
        return Answer::InUse.code();
    }
    drop(seat);
    Answer::Done.code()
}
