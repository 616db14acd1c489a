//! Spaces that grow: how many pages are in use after each flip, and when the heap is full.

use crate::acts::Act::{self, Cycles, InUse, Printed, ToTheEnd, Until};
use crate::acts::play;
use crate::asserting::assert_same;
use crate::stepping::{Goal, SMALLEST, program};
use gc_core::{Config, Core, OpenError};
use plain_heap::End;

/// A record of 64 pages.
const RECORD: &str = "/.mutator/new r0 4095/halt/";

/// A list of records of two fields, which grows until the heap is full.
const LIST: &str = "/.mutator/li r0 0/more: new r1 2/st r1 0 r0/mov r0 r1/jmp more/";

/// The first flip copies nothing, and the mutator has seen none before it, so it leaves as many pages in use.
const DOUBLES: &[Act] = &[
    InUse(0, 4),
    Until(0, Goal::Cycle(1)),
    InUse(1, 4),
    Until(0, Goal::Cycle(2)),
    InUse(2, 8),
    Until(0, Goal::Cycle(3)),
    InUse(3, 16),
    Until(0, Goal::Cycle(4)),
    InUse(4, 32),
    Until(0, Goal::Cycle(5)),
    InUse(5, 64),
    ToTheEnd,
    Cycles(5),
    Printed(0, &[], Some(End::Halt)),
];

#[test]
fn a_space_doubles_at_each_further_flip(rt: HostRuntime) {
    let config = Config {
        limit: 128,
        ..SMALLEST
    };
    play(&rt, rt.alloc(), RECORD, &config, &[DOUBLES]);
}

const FILLED: &[Act] = &[
    ToTheEnd,
    InUse(3, 8),
    Printed(
        0,
        &[],
        Some(End::HeapFull {
            asked: 1,
            room: 8,
            live: 504,
        }),
    ),
];

#[test]
fn a_heap_is_full_only_at_its_limit(rt: HostRuntime) {
    let config = Config {
        limit: 8,
        ..SMALLEST
    };
    play(&rt, rt.alloc(), LIST, &config, &[FILLED]);
}

#[test]
fn other_sizes_are_refused(rt: HostRuntime) {
    let program = program(&rt, rt.alloc(), RECORD);
    for (pages, limit) in [(3, 8), (8, 7), (4, 2049), (2049, 2049)] {
        let config = Config {
            pages,
            limit,
            ..SMALLEST
        };
        let opened = Core::open(rt.alloc(), &program, 1, &config);
        let refused = matches!(opened, Err(OpenError::BadPages));
        assert_same(&rt, &(pages, limit, refused), &(pages, limit, true));
    }
}
