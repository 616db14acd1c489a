//! Programs of one mutator, and what they come to by any schedule.

use crate::asserting::assert_same;
use crate::stepping::{by_turns_to_the_end, printed};
use gc_core::Core;
use plain_heap::End;
use std::process::Abort;

/// The lines of a mutator that halts, with slashes for line ends, in a heap of so many pages: the numbers that it prints, how
/// often the spaces are exchanged, and the words copied in the last epoch.
#[derive(Clone, Copy)]
pub struct Row {
    pub name: &'static str,
    pub pages: u32,
    pub lines: &'static str,
    pub printed: &'static [u64],
    pub cycles: u32,
    pub live: u64,
}

pub const LONE_RECORD: Row = Row {
    name: "a record without values",
    pages: 4,
    lines: "/.mutator/new r1 0/raw r4 127/li r4 0/raw r4 127/len r2 r1/out r2/halt/",
    printed: &[0],
    cycles: 1,
    live: 1,
};

pub const GARBAGE: Row = Row {
    name: "a list of 20 records, and 10,000 that are garbage at once",
    pages: 4,
    lines: "/.mutator/li r0 0/li r3 20/li r4 1\
        /build: new r1 2/st r1 0 r0/mov r0 r1/sub r3 r3 r4/jz r3 waste/jmp build\
        /waste: li r3 10000/more: new r2 2/sub r3 r3 r4/jz r3 done/jmp more/done: halt/",
    printed: &[],
    cycles: 158,
    live: 63,
};

pub const RING: Row = Row {
    name: "two records that lead to each other, on the board",
    pages: 4,
    lines: "/.mutator/new r0 1/new r1 1/st r0 0 r1/st r1 0 r0/put 3 r0/li r0 0/li r1 0\
        /raw r4 127/li r4 0/raw r4 127/li r4 0/raw r4 127/halt/",
    printed: &[],
    cycles: 2,
    live: 4,
};

pub const FAN: Row = Row {
    name: "a record that leads to 190 others, whose numbers are added",
    pages: 16,
    lines: "/.mutator/new r0 190/li r3 190/li r4 1\
        /build: sub r3 r3 r4/new r1 1/st r1 0 r3/st r0 r3 r1/jz r3 waste/jmp build\
        /waste: li r1 0/raw r2 255/li r2 0/raw r2 255/li r3 190\
        /sum: sub r3 r3 r4/ld r1 r0 r3/ld r1 r1 0/add r5 r5 r1/jz r3 done/jmp sum\
        /done: out r5/halt/",
    printed: &[17955],
    cycles: 1,
    live: 571,
};

/// All workers go on by turns to the end, which is the row's.
pub fn check_end(rt: &impl Abort, core: &mut Core<'_>, row: &Row) {
    by_turns_to_the_end(rt, core);
    let printed = printed(rt, core, 0);
    assert_same(
        rt,
        &(row.name, printed, core.cycles(), core.live_words()),
        &(
            row.name,
            (row.printed, Some(End::Halt)),
            row.cycles,
            Some(row.live),
        ),
    );
}
