//! How many steps an instruction takes of a mutator that has the core to itself.

use crate::asserting::assert_same;
use crate::rows::GARBAGE;
use crate::stepping::{SMALLEST, open, program, step};
use gc_core::{Config, Core, Stepped};
use std::process::Abort;

/// More steps than any of these runs has.
const MOST: u32 = 2_000_000;

/// A list of records of one field, which grows until the heap is full.
const LIST: &str = "/.mutator/li r0 0/more: new r1 1/st r1 0 r0/mov r0 r1/jmp more/";

/// A bound that each instruction of the runs here keeps, in spaces of so many pages, which don't grow.
fn most_steps(pages: u8) -> u32 {
    let pages = u32::from(pages);
    10_000 * pages + 20 * pages * pages
}

/// Steps the mutator through an instruction, or to its end, and counts its steps.
fn instruction(rt: &impl Abort, core: &mut Core<'_>) -> u32 {
    for steps in 1..=MOST {
        if matches!(step(rt, core, 0), Stepped::Effect(_)) || core.all_ended() {
            return steps;
        }
    }
    panic!(rt; "an instruction doesn't end");
}

/// The steps of the longest instruction of the core's mutator.
fn longest(rt: &impl Abort, core: &mut Core<'_>) -> u32 {
    let mut longest = 0;
    for _ in 0..MOST {
        if core.all_ended() {
            return longest;
        }
        longest = instruction(rt, core).max(longest);
    }
    panic!(rt; "it doesn't end");
}

/// Counted by a plain implementation of the same steps too.
#[test]
fn the_longest_instruction_is_short_enough(rt: HostRuntime) {
    for (lines, pages, counted) in [(GARBAGE.lines, 4, 502), (LIST, 4, 1934), (LIST, 16, 7742)] {
        let config = Config {
            pages: u32::from(pages),
            limit: u32::from(pages),
            ..SMALLEST
        };
        let program = program(&rt, rt.alloc(), lines);
        let mut core = open(&rt, rt.alloc(), &program, &config);
        assert_same(&rt, &longest(&rt, &mut core), &counted);
        assert_same(
            &rt,
            &(counted, counted <= most_steps(pages)),
            &(counted, true),
        );
    }
}
