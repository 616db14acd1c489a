use crate::asserting::assert_same;
use crate::rows::{FAN, GARBAGE, Row, check_end};
use crate::stepping::{
    Goal, SMALLEST, kept, open, page_word, program, step, turns, until, until_all_came,
};
use gc_core::{Config, Core};
use space_map::{PAGE_WORDS, PageWord};
use std::alloc::Global;
use std::process::Abort;

/// A row with so many scanners, the length of the first record that a scanner copies, and at which step after the record is
/// busy its copy is published.
#[derive(Clone, Copy)]
struct Stops {
    row: Row,
    scanners: u8,
    len: u32,
    published: u32,
}

/// In the second row the first record that is copied off a page comes to lie on two pages, of which the first is full then.
/// The next page has records to be copied off too, which fill the second.
const ROWS: [Stops; 2] = [
    Stops {
        row: GARBAGE,
        scanners: 1,
        len: 2,
        published: 9,
    },
    Stops {
        row: FAN,
        scanners: 2,
        len: 1,
        published: 8,
    },
];

/// The scanner that stops.
const SLEEPER: u8 = 1;

/// How many turns the others make meanwhile.
const TURNS: u32 = 5_000;

/// Nobody but the sleeper itself has claimed the page of this word in epoch 1.
fn check_page(rt: &impl Abort, core: &Core<'_>, at: u32) {
    let page = at / PAGE_WORDS;
    let claimed = match page_word(core, page) {
        Some(PageWord::Open(epoch)) => epoch == 1,
        Some(PageWord::Scanning(epoch, worker)) => epoch == 1 && worker != SLEEPER,
        _ => false,
    };
    assert_same(rt, &(page, claimed), &(page, false));
}

/// The sleeper stops so many steps after it has made its first record busy, and the others go on. At last all go on.
fn check_stop(rt: &impl Abort, core: &mut Core<'_>, stops: &Stops, steps: u32) {
    until(rt, core, 0, Goal::Cycle(1));
    until_all_came(rt, core, 1, 1);
    until(rt, core, SLEEPER, Goal::Busy);
    for _ in 0..steps {
        step(rt, core, SLEEPER);
    }
    let place = u32::try_from(kept(rt, core, SLEEPER).1).unwrap_or(0);
    assert_same(rt, &(place != 0), &(3 <= steps && steps < stops.published));
    for _ in 0..TURNS {
        turns(rt, core, Some(SLEEPER), 1);
        if place != 0 {
            check_page(rt, core, place - 1);
            check_page(rt, core, (place - 1).saturating_add(stops.len));
        }
    }
    check_end(rt, core, &stops.row);
}

/// The sleeper stops after each of its steps up to the copy's publishing, in a heap of its own each time.
fn check_stops(rt: &impl Abort, alloc: Global, stops: &Stops) {
    let config = Config {
        pages: stops.row.pages,
        limit: stops.row.pages,
        scanners: stops.scanners,
        ..SMALLEST
    };
    let program = program(rt, alloc, stops.row.lines);
    for steps in 0..=stops.published {
        let mut core = open(rt, alloc, &program, &config);
        check_stop(rt, &mut core, stops, steps);
    }
}

#[test]
fn a_page_with_an_unfinished_copy_is_not_claimed(rt: HostRuntime) {
    for stops in &ROWS {
        check_stops(&rt, rt.alloc(), stops);
    }
}
