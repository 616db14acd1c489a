use crate::acts::Act::{self, Come, Cycles, Executes, Printed, ToTheEnd, Until};
use crate::acts::perform;
use crate::asserting::assert_same;
use crate::stepping::{Goal, SMALLEST, open, page_word, program};
use gc_core::{Config, Core};
use plain_heap::End;
use space_map::PageWord;
use std::process::Abort;

/// The first mutator fills half of the space with one record, and reads its first and its last value once the second, which
/// fills the other half, has flipped.
const LINES: &str = "/.mutator/new r0 4095/li r1 5/st r0 0 r1/li r1 6/st r0 4094 r1/put 0 r1\
    /w: get r2 1/jz r2 w/ld r2 r0 0/out r2/ld r2 r0 4094/out r2/halt\
    /.mutator/w: get r0 0/jz r0 w/raw r1 4095/li r1 0/put 1 r0/raw r1 63/halt/";

/// The first mutator halts once the second has flipped.
const READS: [Act; 5] = [
    Executes(0, 6),
    Until(1, Goal::Request),
    Come(2, 1),
    Until(0, Goal::Idle),
    Printed(0, &[5, 6], Some(End::Halt)),
];

/// Then all go on.
const ENDED: [Act; 3] = [ToTheEnd, Printed(1, &[], Some(End::Halt)), Cycles(1)];

/// Of the first mutator's record, which was copied to the first 64 pages of the second space, 128 to 191, the first page and the
/// last one are open, and the board, which is page 256. No other page is.
fn check_pages(rt: &impl Abort, core: &Core<'_>) {
    for page in 0..=256 {
        let is_open = page_word(core, page) == Some(PageWord::Open(1));
        let is_wanted = page == 128 || page == 191 || page == 256;
        assert_same(rt, &(page, is_open), &(page, is_wanted));
    }
}

#[test]
fn only_the_pages_that_are_read_are_opened(rt: HostRuntime) {
    let config = Config {
        pages: 128,
        limit: 128,
        ..SMALLEST
    };
    let program = program(&rt, rt.alloc(), LINES);
    let mut core = open(&rt, rt.alloc(), &program, &config);
    perform(&rt, rt.alloc(), &mut core, &READS);
    check_pages(&rt, &core);
    perform(&rt, rt.alloc(), &mut core, &ENDED);
}
