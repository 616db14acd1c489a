use super::{program, repeated};
use crate::asserting::assert_same;
use heap_audit::{ReadingError, first_other_line, read_lines, read_order, read_part};
use mutator_asm::Program;
use plain_heap::{End, Mark};
use std::alloc::Global;
use std::process::Abort;

/// Lines of three mutators, and what stands behind them.
const THREE_MUTATORS: &str =
    "0: 7\n0: 0\n0: halt\n1: stopped\n2: heap full asked 1 room 0 live 9\norder\n";

/// The numbers that each of them printed, and its end.
const THREE_SEEN: [(&[u64], Option<End>); 3] = [
    (&[7, 0], Some(End::Halt)),
    (&[], None),
    (
        &[],
        Some(End::HeapFull {
            asked: 1,
            room: 0,
            live: 9,
        }),
    ),
];

#[test]
fn lines_are_read(rt: HostRuntime) {
    let read = read_lines(rt.alloc(), 3, THREE_MUTATORS.as_bytes());
    let (mutators, count, rest) = read.expect(&rt, "no lines");
    let shape = (mutators.len(), count, rest);
    assert_same(&rt, &shape, &(3, 5, b"order\n".as_slice()));
    for (found, wanted) in mutators.iter().zip(&THREE_SEEN) {
        assert_same(&rt, &(found.printed.as_slice(), found.end), wanted);
    }
}

/// Lines that aren't those of one mutator, each with the number of the first wrong one.
const OTHER_MUTATORS: [(&str, usize); 8] = [
    ("1: halt\n", 1),
    ("0: 07\n0: halt\n", 1),
    ("0: 4611686018427387904\n0: halt\n", 1),
    ("0: 7\n", 2),
    ("0: halt", 1),
    ("0: 7\n0: halted\n", 2),
    ("0:halt\n", 1),
    ("0: stop\n", 1),
];

#[test]
fn other_mutators_lines_are_refused(rt: HostRuntime) {
    for (text, line) in OTHER_MUTATORS {
        let error = read_lines(rt.alloc(), 1, text.as_bytes()).err();
        let wrong = ReadingError::Bad { line };
        assert_same(&rt, &(text, error), &(text, Some(wrong)));
    }
}

/// The lines of orders, their marks, and what stands behind them.
const ORDERS: [(&str, &[Mark], &str); 2] = [
    ("order\n", &[], ""),
    (
        "order 0 F64 T 255 X3,1,0,4294967295 15\nmore",
        &[
            Mark::Step(0),
            Mark::Flip(64),
            Mark::Traced,
            Mark::Step(255),
            Mark::Full {
                m: 3,
                asked: 1,
                room: 0,
                live: 4_294_967_295,
            },
            Mark::Step(15),
        ],
        "more",
    ),
];

#[test]
fn orders_are_read(rt: HostRuntime) {
    for (text, wanted, behind) in ORDERS {
        let read = read_order(rt.alloc(), 0, text.as_bytes());
        let (marks, rest) = read.expect(&rt, "no order");
        assert_same(
            &rt,
            &(text, marks.as_slice(), rest),
            &(text, wanted, behind.as_bytes()),
        );
    }
}

/// Lines that aren't those of an order.
const OTHER_ORDERS: [&str; 7] = [
    "order 00\n",
    "order 256\n",
    "order F4294967296\n",
    "order T1\n",
    "order 1",
    "order  1\n",
    "order X1,2,3\n",
];

#[test]
fn other_orders_are_refused(rt: HostRuntime) {
    for text in OTHER_ORDERS {
        let error = read_order(rt.alloc(), 2, text.as_bytes()).err();
        let wrong = ReadingError::Bad { line: 3 };
        assert_same(&rt, &(text, error), &(text, Some(wrong)));
    }
}

/// A program whose mutator stores 7 in a record, loads it, prints it and halts.
const PROGRAM: &str = ".mutator\nli r1 7\nnew r0 2\nst r0 1 r1\nld r2 r0 1\nout r2\nhalt\n";

/// What is printed of it, and the order of its steps.
const LINES: &str = "0: 7\n0: halt\n";

const ORDER: &str = "order 0 0 0 0 0 0\n";

/// Lines, the line of an order, the most instructions that a mutator executes, and the first line that isn't the plain
/// machine's.
const OTHER_LINES: [(&str, &str, u32, Option<usize>); 9] = [
    (LINES, ORDER, 6, None),
    ("0: 8\n0: halt\n", ORDER, 6, Some(1)),
    ("0: 7\n0: stopped\n", ORDER, 6, Some(2)),
    ("0: halt\n", ORDER, 6, Some(1)),
    ("0: 7\n0: 7\n0: halt\n", ORDER, 6, Some(2)),
    (LINES, "order 0 0 0 0 0\n", 6, Some(2)),
    ("0: 7\n0: stopped\n", "order 0 0 0 0 0\n", 6, None),
    (LINES, "order 0 0 0 F5 7 0 X1,1,0,0 0 0 0\n", 6, None),
    (LINES, ORDER, 3, Some(1)),
];

/// The first of these lines of one mutator that isn't the plain machine's.
fn other_line(
    rt: &impl Abort,
    alloc: Global,
    p: &Program,
    lines: &str,
    order: &str,
    turns: u32,
) -> Option<usize> {
    let read = read_lines(alloc, 1, lines.as_bytes());
    let (mutators, _, _) = read.expect(rt, "no lines");
    let (marks, _) = read_order(alloc, 0, order.as_bytes()).expect(rt, "no order");
    first_other_line(alloc, p, turns, &marks, &mutators).expect(rt, "no run")
}

#[test]
fn the_first_other_line_is_told(rt: HostRuntime) {
    let p = program(&rt, rt.alloc(), PROGRAM);
    for (lines, order, turns, line) in &OTHER_LINES {
        let found = other_line(&rt, rt.alloc(), &p, lines, order, *turns);
        assert_same(&rt, &(*lines, found), &(*lines, *line));
    }
}

/// What registers and kept records are printed, of which nothing is there, and a word of the table.
const NOTHING_THERE: &str = "\
0000000000000000 0000000000000000 0000000000000000 0000000000000000 0000000000000000 0000000000000000 0000000000000000 0000000000000000
0000000000000000 0000000000000000
";

const ZERO: &str = "0000000000000000\n";

/// A part with these lines, this first line of a dump, and a table whose words are 0 but for the lines behind so many words.
fn part(
    rt: &impl Abort,
    alloc: Global,
    lines: &str,
    head: &str,
    words: usize,
    last: &str,
) -> String {
    let first = format!(in alloc; "{lines}{ORDER}{head}{NOTHING_THERE}");
    let first = first.expect(rt, "no lines");
    repeated(rt, alloc, &first, ZERO, words, last)
}

/// Lines, the first line of a dump, how many words are 0, what stands behind them, and the first wrong line.
const WRONG_LINES: [(&str, &str, usize, &str, Option<usize>); 9] = [
    (LINES, "dump 4 1 1\n", 633, "", None),
    (LINES, "dump 4 1 1\n", 226, "000000000000000A\n", Some(233)),
    (LINES, "dump 4 1 1\n", 632, "", Some(639)),
    (LINES, "dump 4 1 1\n", 632, "0000000000000000", Some(639)),
    (LINES, "dump 4 1 1\n", 634, "", Some(640)),
    (LINES, "dump 4 2 2\n", 633, "", Some(4)),
    (LINES, "dump 4 1\n", 633, "", Some(4)),
    ("0: 07\n0: halt\n", "dump 4 1 1\n", 633, "", Some(1)),
    ("0: 7\n", "dump 4 1 1\n", 633, "", Some(2)),
];

/// The first wrong line of a part of one mutator, none if it is read.
fn wrong_line(rt: &impl Abort, alloc: Global, text: &str) -> Option<usize> {
    match read_part(alloc, 1, text.as_bytes()) {
        Ok(_) => None,
        Err(ReadingError::Bad { line }) => Some(line),
        Err(_) => panic!(rt; "no memory"),
    }
}

#[test]
fn the_first_wrong_line_of_a_part_is_told(rt: HostRuntime) {
    for (lines, head, words, last, line) in &WRONG_LINES {
        let text = part(&rt, rt.alloc(), lines, head, *words, last);
        let found = wrong_line(&rt, rt.alloc(), &text);
        assert_same(&rt, &(*words, found), &(*words, *line));
    }
}
