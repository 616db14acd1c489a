//! The program's answers, over sources and sinks in memory.

mod dumps;
mod failing;
mod rows;
mod words;

use self::rows::{check_row, number_before};
use ael_commands::{MemSink, MemSource, ael, sure_status};
use mutator_asm::Program;
use plain_heap::Mark;
use plain_machine::{PlainState, plain_run, plain_step, print};
use program_text::assemble;
use std::alloc::Global;
use std::marker::Sync;
use std::sync::Wait;
use std::test::Fail;
use std::thread::Threads;

/// What a call wrote, and its status.
#[derive(Drop)]
struct Outcome {
    out: MemSink,
    err: MemSink,
    status: u8,
}

/// The read that fails, or 0, and how many bytes the sinks have room for.
#[derive(Clone, Copy)]
struct Limits {
    read: u64,
    out: usize,
    err: usize,
}

const AMPLE: Limits = Limits {
    read: 0,
    out: 1_000_000,
    err: 1000,
};

/// Fails where a part of what a call gave isn't what was wanted.
fn same(name: &str, part: &str, found: &[u8], wanted: &[u8]) -> Result<(), Fail> {
    if found == wanted {
        return Ok(());
    }
    let (found, wanted) = (str::from_utf8(found), str::from_utf8(wanted));
    Err(Fail::new(format_args!("{part} of {name}: {found:?}, not {wanted:?}")))
}

/// Fails where a status isn't what was wanted.
fn same_status(name: &str, found: u8, wanted: u8) -> Result<(), Fail> {
    if found == wanted {
        return Ok(());
    }
    Err(Fail::new(format_args!("status of {name}: {found}, not {wanted}")))
}

/// What a call is to write, and its status.
#[derive(Clone, Copy)]
struct Wanted<'a> {
    out: &'a [u8],
    err: &'a [u8],
    status: u8,
}

impl Outcome {
    /// Fails where the call didn't write this or hasn't this status.
    fn check(&self, name: &str, wanted: Wanted) -> Result<(), Fail> {
        same(name, "out", self.out.bytes(), wanted.out)?;
        same(name, "err", self.err.bytes(), wanted.err)?;
        same_status(name, self.status, wanted.status)
    }
}

/// A word of a line.
fn word_of(alloc: Global, word: &str) -> Result<String, Fail> {
    let word = word.replace(alloc, "''", "")?;
    Ok(word.replace(alloc, '_', " ")?)
}

/// The words that spaces separate. An empty word is '', and a space in a word is _.
fn words_of(alloc: Global, line: &str) -> Result<Vec<String>, Fail> {
    let mut words = Vec::new(alloc);
    for word in line.split_whitespace() {
        words.push(word_of(alloc, word)?)?;
    }
    Ok(words)
}

/// A source that gives this text, of which a read fails.
fn source(alloc: Global, text: &str, fails: u64) -> Result<MemSource, Fail> {
    let input = Vec::from_slice(alloc, text.as_bytes())?;
    Ok(MemSource::new(input, Vec::from_slice(alloc, &[fails])?))
}

/// A sink with room for so many bytes.
fn sink(alloc: Global, room: usize) -> Result<MemSink, Fail> {
    Ok(MemSink::new(alloc, room, Vec::new(alloc))?)
}

/// Calls `ael` with these words, over this source and sinks with room for so many bytes.
fn call_over<R: Threads + Wait + Sync>(
    rt: &R,
    alloc: Global,
    words: &[String],
    src: &mut MemSource,
    limits: Limits,
) -> Result<Outcome, Fail> {
    let mut out = sink(alloc, limits.out)?;
    let mut err = sink(alloc, limits.err)?;
    let status = ael(rt, alloc, words, src, &mut out, &mut err);
    Ok(Outcome { out, err, status })
}

/// Calls `ael` with these words, a source that gives this text, and ends with these limits.
fn call<R: Threads + Wait + Sync>(
    rt: &R,
    alloc: Global,
    line: &str,
    text: &str,
    limits: Limits,
) -> Result<Outcome, Fail> {
    let words = words_of(alloc, line)?;
    let mut src = source(alloc, text, limits.read)?;
    call_over(rt, alloc, &words, &mut src, limits)
}

const FIRST: &str = ".mutator\nli r1 7\nnew r0 2\nst r0 1 r1\nld r2 r0 1\nout r2\nhalt\n";

/// The read that fails, or 0, and the rooms of out and of err stand before each row. The first rows
/// have all statuses from 0 to 6, so a call that always answers the same one is wrong in another row.
const ENDS: &str = "\
0|1000|1000|all is well|sim|.mutator/li r1 7/new r0 2/st r0 1 r1/ld r2 r0 1/out r2/halt/|0: 7/0: halt/||0
0|1000|1000|a text that is refused|sim|.mutator/foo/||ael: line 2: error 1: unknown instruction/|1
0|1000|1000|words that are no command|simulate|.mutator/li r1 7/new r0 2/st r0 1 r1/ld r2 r0 1/out r2/halt/||usage: ael asm, sim, run, concord or bench/|2
0|1000|1000|a mutator that doesn't halt|sim|.mutator/|0: jump out/||3
0|1000|1000|steps that run out|sim --steps 1|.mutator/jr r0/|0: stopped/|ael: steps out/|4
2|1000|1000|the read of the end fails|sim|.mutator/li r1 7/new r0 2/st r0 1 r1/ld r2 r0 1/out r2/halt/||ael: read fault/|5
2|1000|1000|the read of the end of a listing fails|asm|.mutator/halt/||ael: read fault/|5
1|1000|1000|the first read fails|sim|||ael: read fault/|5
1|1000|1000|a benchmark reads nothing|bench 3 1||0: 8/0: halt/1: 8/1: halt/2: 8/2: halt/3: 8/3: halt/cycles 0 live 0/||0
0|1|1000|no room for the output|sim|.mutator/halt/|0|ael: write fault/|6
0|1000|0|no room for the usage|||||6
0|1000|5|some room for the usage||||usage|6
2|1000|4|a read fails, and err too|sim|.mutator/halt/||ael:|6
0|1000|10|some room for a text's fault|sim|.mutator/foo/||ael: line |6
0|3|7|both sinks fail|sim|.mutator/li r1 7/new r0 2/st r0 1 r1/ld r2 r0 1/out r2/halt/|0: |ael: wr|6
0|3|17|out fails, and err has just enough room|sim|.mutator/li r1 7/new r0 2/st r0 1 r1/ld r2 r0 1/out r2/halt/|0: |ael: write fault/|6";

/// The limits that stand before a row, and the row.
fn limits_before(line: &str) -> Result<(Limits, &str), Fail> {
    let (read, rest) = number_before(line)?;
    let (out, rest) = number_before(rest)?;
    let (err, row) = number_before(rest)?;
    let limits = Limits {
        read,
        out: out as usize,
        err: err as usize,
    };
    Ok((limits, row))
}

#[test]
fn ends_that_fail_are_told(rt: HostRuntime) -> Result<(), Fail> {
    for line in ENDS.split('\n') {
        let (limits, row) = limits_before(line)?;
        check_row(&rt, rt.alloc(), row, limits)?;
    }
    Ok(())
}

#[test]
fn sure_ends_never_fail(rt: HostRuntime) -> Result<(), Fail> {
    let words = words_of(rt.alloc(), "sim")?;
    let first = Vec::from_slice(rt.alloc(), FIRST.as_bytes())?;
    let status = sure_status(&rt, rt.alloc(), &words, first);
    same_status("sure ends", status, 0)
}

/// What the plain machine prints after so many steps of mutator 0.
fn stepped(alloc: Global, program: &Program, steps: u32) -> Result<Vec<u8>, Fail> {
    let mut state = PlainState::open(alloc, program)?;
    for _ in 0..steps {
        plain_step(alloc, &mut state, program, 1_000_000, 0)?;
    }
    Ok(print(alloc, &state)?)
}

/// What the first text prints.
const FIRST_PRINTED: &[u8] = b"0: 7\n0: halt\n";

/// Fails where the steps of the first text print anything else.
fn check_steps(alloc: Global, program: &Program) -> Result<(), Fail> {
    let stepped = stepped(alloc, program, 6)?;
    same("steps", "out", &stepped, FIRST_PRINTED)
}

/// Fails where a run of the first text prints anything else.
fn check_run(alloc: Global, program: &Program) -> Result<(), Fail> {
    let run = plain_run(alloc, program, 1_000_000, &[Mark::Step(0); 6])?;
    let printed = print(alloc, &run)?;
    same("a run", "out", &printed, FIRST_PRINTED)
}

#[test]
fn the_plain_machine_prints_the_same(rt: HostRuntime) -> Result<(), Fail> {
    let program = assemble(rt.alloc(), FIRST.as_bytes())?;
    check_steps(rt.alloc(), &program)?;
    check_run(rt.alloc(), &program)
}
