//! The command `run`: a program run on threads.

ghost use Rattle.std.specs.Prelude.{IfOk};
ghost use Rattle.ael_jobs.specs.Runs.ClosedHeap.{HasClosed};
ghost use Rattle.ael_jobs.specs.Arguments.Options.{AreInRange};
ghost use Rattle.ael_jobs.specs.Runs.Run.{IsRun, Threaded};

use crate::answer::Answer;
use crate::arguments::options::RunOptions;
use crate::runs::closed_heap::ClosedHeap;
use crate::runs::flags::push_heap;
use crate::runs::mutators::{push_mutators, verdict};
use ael_threads::{NoPace, RunError};
use gc_core::what_stands_is_told;
use mutator_asm::Program;
use plain_heap::NoMemory;
use std::alloc::Global;
use std::marker::Sync;
use std::sync::Wait;
use std::thread::Threads;

/// The heap of a run, once every mutator has its end and all workers have left.
fn closed<R: Threads + Wait + Sync>(
    rt: &R,
    alloc: Global,
    program: &Program,
    options: RunOptions,
) -> Result<ClosedHeap, NoMemory>
    requires { AreInRange options }
    ensures { IfOk result (HasClosed options program.now.code program.now.schedule) }
{
    // The theorem that the proof takes.
    what_stands_is_told();

    match ael_threads::run(
        rt,
        alloc,
        program,
        options.turns,
        &options.config(),
        &NoPace,
    ) {
        Ok(outputs) => Ok(ClosedHeap::new(outputs)),
        Err(RunError::NoMemory) => Err(NoMemory),
        Err(RunError::BadPages) => unreachable!("a space may have so many pages"),
    }
}

/// Runs a program on threads, and prints what its mutators printed.
pub fn run<R: Threads + Wait + Sync>(
    rt: &R,
    alloc: Global,
    program: &Program,
    options: RunOptions,
) -> Result<Answer, NoMemory>
    requires { AreInRange options }
    ensures { IfOk result (λ answer. IsRun (Threaded options) program.now.code program.now.schedule answer.output.items answer.status) }
{
    let heap = closed(rt, alloc, program, options)?;
    let mut output = String::new(alloc);
    push_mutators(&mut output, &heap)?;
    push_heap(&mut output, options, &heap)?;
    Answer::new(alloc, output.into_bytes(), verdict(&heap))
}
