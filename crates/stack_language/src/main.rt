//! A small stack language, and a text in it that two threads run on one heap.
//!
//! Standard input has the text. One thread runs its word `left`, the other its word `right`. Their stacks, the frames of the words that they
//! call and the lists that they send each other are on the heap, which is so small that all of it is moved again and again.
#![tactic(auto)]

mod interpreter;
mod mistake;
mod op;
mod program;

ghost use Rattle.std.specs.Prelude.{◌≡◌};

use crate::interpreter::{Interpreter, Job};
use crate::program::Program;
use ael_runtime::{Config, Local, Mutator, Shared};
use anyhow::{bail, ensure};
use std::io;
use std::sync::Wait;
use std::sync::atomic::{AtomicBool, Ordering};
use std::thread::{Threads, join};

/// A heap whose spaces have eight pages.
const CONFIG: Config = Config {
    pages: 8,
    limit: 8,
    scanners: 0,
    snap: false,
};

/// So many pairs, each of three words, are a hundred times what a space has room for.
const MANY: u64 = 100 * 64 * CONFIG.pages as u64 / 3;

/// Runs a word of the text, and leaves the heap. What it printed, or nothing if it makes a mistake, which it tells.
fn run_word<R: Wait + Eprint>(
    rt: &R,
    job: &Job,
    local: Local<'_>,
    word: &str,
) -> (Mutator, Option<Vec<u64>>)
    ensures { result.0.table ≡ local.entry.table }
{
    let mut interpreter = Interpreter {
        rt,
        job,
        local,
        next: 0,
        line: job.program.lines,
        printed: Vec::new(*job.program.ops.allocator()),
    };
    let ran = interpreter.run(word);
    job.stopped.store(true, Ordering::SeqCst);
    if let Err(mistake) = ran {
        let _ = eprintln!(rt; "{word}: line {}: {mistake}", interpreter.line);
    }
    let Interpreter { local, printed, .. } = interpreter;
    (local.leave(rt), ran.ok().map(|()| printed))
}

/// Tells what a thread printed, and how many records it made.
fn tell<R: Print>(rt: &R, word: &str, mutator: &Mutator, printed: Vec<u64>) -> io::Result<()> {
    for number in printed {
        println!(rt; "{word} {number}")?;
    }
    println!(rt; "{word} made {} records", mutator.serial())
}

/// Opens a heap, and runs the words `left` and `right` on it, each on a thread.
fn run<R: Threads + Wait + Sync + Print + Eprint + AllocGlobal>(
    rt: &R,
    program: Program,
) -> Result<(), anyhow::Error> {
    let (heap, mut seats) = Shared::open_without_printing(rt.alloc(), 2, &CONFIG)?;
    let (Some(right), Some(left)) = (seats.take_mutator(), seats.take_mutator()) else {
        unreachable!()
    };
    let stopped = AtomicBool::new(false);
    let job = Job { program, stopped };
    let ((left, left_printed), (right, right_printed)) = join(
        rt,
        || run_word(rt, &job, Local::new(&heap, left), "left"),
        || run_word(rt, &job, Local::new(&heap, right), "right"),
    );
    let (Some(left_printed), Some(right_printed)) = (left_printed, right_printed) else {
        bail!("a thread has made a mistake")
    };
    tell(rt, "left", &left, left_printed)?;
    tell(rt, "right", &right, right_printed)?;
    let made = left.serial().saturating_add(right.serial());
    ensure!(made > MANY, "{made} records are too few for this heap");
    seats.mutators.push_reserved(left);
    seats.mutators.push_reserved(right);
    let _words = heap.close(seats);
    Ok(())
}

fn main(rt: HostRuntime) -> Result<(), anyhow::Error> {
    let text = io::read_to_string(rt.alloc(), rt.reader())?;
    let mut program = Program::new(rt.alloc());
    if let Err(mistake) = program.read(text.as_str()) {
        bail!("line {}: {mistake}", program.lines);
    }
    run(&rt, program)
}
