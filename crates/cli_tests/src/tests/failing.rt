//! Reads and writes that fail at each place of a call.

use super::dumps::dump_lines;
use super::rows::{Row, lines, number_before};
use super::{AMPLE, Limits, Wanted};
use std::alloc::Global;
use std::marker::Sync;
use std::sync::Wait;
use std::test::Fail;
use std::thread::Threads;

/// How often the call reads stands before each row. The lines of a dump stand in the place of @, and two buffers
/// of spaces in that of #.
const ROWS: &str = "\
4|the order of a long text|sim --order|#.mutator/li r1 7/new r0 2/st r0 1 r1/ld r2 r0 1/out r2/halt/|0: 7/0: halt/order 0 0 0 0 0 0/||0
2|a listing|asm|.schedule 0/.mutator/l: jmp l/|.schedule 0/.mutator/L0: jmp L0/||0
2|a dump|sim --pages 4 --scanners 0 --cycles --dump|.mutator/li r1 7/new r0 2/st r0 1 r1/ld r2 r0 1/out r2/halt/|0: 7/0: halt/cycles 0 live 0/@||0
2|a run on threads|run --cycles|.mutator/li r1 7/new r0 2/st r0 1 r1/ld r2 r0 1/out r2/halt/|0: 7/0: halt/cycles 0 live 0/||0
2|a checkpoint|sim --pages 4 --cycles --snap|.mutator/new r0 1/put 0 r0/snap/halt/|0: halt/cycles 0 live 0/checkpoint 1/board 0.1 0 0 0 0 0 0 0 0 0 0 0 0 0 0 0/0.1 fields 1: 0/||0
2|a concordance|concord|b a/A|a: 1, 2/b: 1/||0
2|a word too long|concord|aaaaaaaaaaaaaaaaaaaaaaaaaaaaaaaaaaaaaaaaaaaaaaaaaaaaaaaaaaaaaaaaa||ael: line 1: word too long/|1
2|a heap too small|concord --pages 4|aa ab ac ad ae af ag ah ba bb bc bd be bf bg bh ca cb cc cd ce||ael: heap full asked 1 room 10/|3
1|a text without bytes|concord||||0
2|an end that isn't halt|sim --cycles|.mutator/|0: jump out/cycles 0 live 0/||3
2|steps that run out|sim --cycles --steps 1|.mutator/|0: stopped/cycles 0 live 0/|ael: steps out/|4
2|a refused text|sim --cycles --dump|.mutator/foo/||ael: line 2: error 1: unknown instruction/|1
1|an empty input|sim --cycles --dump|||ael: line 1: error 5: no mutator/|1
4|an output|audit|.mutator/li r1 7/new r0 2/st r0 1 r1/ld r2 r0 1/out r2/halt/.output/0: 7/0: halt/order 0 0 0 0 0 0/@|audit: yes/||0
4|an output of another program|audit|.mutator/li r1 7/new r0 2/st r0 1 r1/ld r2 r0 1/out r2/halt/.output/0: 8/0: halt/order 0 0 0 0 0 0/@|audit: no: line 1/||9
4|a line behind an output|audit|.mutator/li r1 7/new r0 2/st r0 1 r1/ld r2 r0 1/out r2/halt/.output/0: 7/0: halt/order 0 0 0 0 0 0/@0/||ael: line 640: error 10: bad output/|1
2|a text without an output|audit|.mutator/li r1 7/new r0 2/st r0 1 r1/ld r2 r0 1/out r2/halt/||ael: line 1: error 10: bad output/|1
0|the benchmark|bench 3 1||0: 8/0: halt/1: 8/1: halt/2: 8/2: halt/3: 8/3: halt/cycles 0 live 0/||0
0|no seed|bench 3|||usage: ael asm, sim, run, concord or bench/|2";

/// Each of so many reads fails in turn.
fn check_reads<R: Threads + Wait + Sync>(
    rt: &R,
    alloc: Global,
    row: &Row,
    reads: u64,
) -> Result<(), Fail> {
    let wanted = Wanted {
        out: b"",
        err: b"ael: read fault\n",
        status: 5,
    };
    for read in 1..=reads {
        row.gives(rt, alloc, Limits { read, ..AMPLE }, wanted)?;
    }
    Ok(())
}

/// Out has room for each front of what it gets.
fn check_outs<R: Threads + Wait + Sync>(rt: &R, alloc: Global, row: &Row) -> Result<(), Fail> {
    let all = row.out.as_bytes();
    for out in 0..all.len() {
        let wanted = Wanted {
            out: &all[..out],
            err: b"ael: write fault\n",
            status: 6,
        };
        row.gives(rt, alloc, Limits { out, ..AMPLE }, wanted)?;
    }
    Ok(())
}

/// Err has room for each front of what it gets.
fn check_errs<R: Threads + Wait + Sync>(rt: &R, alloc: Global, row: &Row) -> Result<(), Fail> {
    let line = row.err.as_bytes();
    for err in 0..line.len() {
        let wanted = Wanted {
            out: row.out.as_bytes(),
            err: &line[..err],
            status: 6,
        };
        row.gives(rt, alloc, Limits { err, ..AMPLE }, wanted)?;
    }
    Ok(())
}

/// Each read fails in turn, then out and err have room for each front of what they get, and then just
/// for all of it.
fn check_ends<R: Threads + Wait + Sync>(
    rt: &R,
    alloc: Global,
    row: &Row,
    reads: u64,
) -> Result<(), Fail> {
    check_reads(rt, alloc, row, reads)?;
    check_outs(rt, alloc, row)?;
    check_errs(rt, alloc, row)?;
    let limits = Limits {
        read: reads.saturating_add(1),
        out: row.out.len(),
        err: row.err.len(),
    };
    row.check(rt, alloc, limits)
}

/// The row, with the lines of a dump and with spaces in it.
fn filled(alloc: Global, row: &str, dump: &str, spaces: &str) -> Result<String, Fail> {
    let row = row.replace(alloc, '@', dump)?;
    lines(alloc, &row.replace(alloc, '#', spaces)?)
}

/// Checks the ends of the row that is in a line.
fn check_line<R: Threads + Wait + Sync>(
    rt: &R,
    alloc: Global,
    line: &str,
    dump: &str,
    spaces: &str,
) -> Result<(), Fail> {
    let (reads, row) = number_before(line)?;
    let row = filled(alloc, row, dump, spaces)?;
    check_ends(rt, alloc, &Row::read(alloc, &row)?, reads)
}

#[test]
fn each_read_and_each_byte_may_fail(rt: HostRuntime) -> Result<(), Fail> {
    let dump = dump_lines(rt.alloc())?;
    let spaces = " ".repeat(rt.alloc(), 8192)?;
    for line in ROWS.split('\n') {
        check_line(&rt, rt.alloc(), line, &dump, &spaces)?;
    }
    Ok(())
}
