use crate::acts::Act::{self, Come, Cycles, Executes, Pass, Printed, ToTheEnd, Until};
use crate::acts::{Passage, play};
use crate::stepping::{GATE, Goal, SIZE_0, SIZE_1, SMALLEST, TRACED, WEAK};
use atom_store::Step::{Exchange, Load, Store};
use gc_core::Stepped::{Flipped, Moved};
use plain_heap::End;

/// Each mutator fills half of the space, and then makes a record for which there is no room.
const LINES: &str = "/.mutator/raw r0 127/li r0 0/raw r0 63/halt\
    /.mutator/raw r0 127/li r0 0/raw r0 63/halt/";

/// The areas of both spaces.
const AREA_0: usize = 4;

const AREA_1: usize = 5;

const ALL_PAGES: u64 = 4;

/// The gate's word before the flip: both run, one of them has asked for it and stopped, and the other has parked.
const BOTH_RUN: u64 = 0x0000_0202_0000_0000;

const ONE_ASKS: u64 = 0x0100_0102_0000_0000;

const BOTH_STAND: u64 = 0x0100_0002_0000_0000;

/// After it: both have their registers to forward, one has, and none; one runs on, and both do.
const BOTH_BEHIND: u64 = 0x0002_0002_0000_0001;

const ONE_BEHIND: u64 = 0x0001_0002_0000_0001;

const NONE_BEHIND: u64 = 0x0000_0002_0000_0001;

const ONE_RUNS_ON: u64 = 0x0000_0102_0000_0001;

const BOTH_RUN_ON: u64 = 0x0000_0202_0000_0001;

/// FRONT is 0, LOW is 256, and 256 words are owed.
const ALL_OWED: u64 = 0x0000_1000_0400_0000;

/// Both ask for a flip, and mutator 0 is first.
const PASSAGES: [Passage; 37] = [
    // The looks that begin the records. No words are free, and nothing is left to copy.
    (0, Load(GATE), Moved, BOTH_RUN),
    (0, Load(TRACED), Moved, BOTH_RUN),
    (0, Load(SIZE_0), Moved, BOTH_RUN),
    (0, Load(AREA_0), Moved, BOTH_RUN),
    (1, Load(GATE), Moved, BOTH_RUN),
    (1, Load(TRACED), Moved, BOTH_RUN),
    (1, Load(SIZE_0), Moved, BOTH_RUN),
    (1, Load(AREA_0), Moved, BOTH_RUN),
    // Both find that nobody has asked. The exchange of mutator 1 is lost.
    (0, Load(GATE), Moved, BOTH_RUN),
    (1, Load(GATE), Moved, BOTH_RUN),
    (0, Exchange(GATE, BOTH_RUN, ONE_ASKS), Moved, ONE_ASKS),
    (1, Exchange(GATE, BOTH_RUN, ONE_ASKS), Moved, ONE_ASKS),
    // It is refused, since mutator 0 has asked, which in turn can't flip as long as mutator 1 runs.
    (1, Load(GATE), Moved, ONE_ASKS),
    (0, Load(GATE), Moved, ONE_ASKS),
    // Mutator 1 parks, and can't run on yet.
    (1, Load(GATE), Moved, ONE_ASKS),
    (1, Exchange(GATE, ONE_ASKS, BOTH_STAND), Moved, BOTH_STAND),
    (1, Load(GATE), Moved, BOTH_STAND),
    // Mutator 0 flips.
    (0, Load(GATE), Moved, BOTH_STAND),
    (0, Load(SIZE_0), Moved, BOTH_STAND),
    (0, Load(AREA_0), Moved, BOTH_STAND),
    (0, Store(SIZE_1, ALL_PAGES), Moved, BOTH_STAND),
    (0, Store(AREA_1, ALL_OWED), Moved, BOTH_STAND),
    (0, Store(WEAK, 0), Moved, BOTH_STAND),
    (
        0,
        Exchange(GATE, BOTH_STAND, BOTH_BEHIND),
        Flipped(1),
        BOTH_BEHIND,
    ),
    // Each sees the new epoch. There are no pointers in their registers.
    (1, Load(GATE), Moved, BOTH_BEHIND),
    (0, Load(GATE), Moved, BOTH_BEHIND),
    (1, Load(GATE), Moved, BOTH_BEHIND),
    (
        1,
        Exchange(GATE, BOTH_BEHIND, ONE_BEHIND),
        Moved,
        ONE_BEHIND,
    ),
    // Mutator 1 can't run on before mutator 0 is no more behind.
    (1, Load(GATE), Moved, ONE_BEHIND),
    (0, Load(GATE), Moved, ONE_BEHIND),
    (
        0,
        Exchange(GATE, ONE_BEHIND, NONE_BEHIND),
        Moved,
        NONE_BEHIND,
    ),
    // Both run on, and are about to allocate their records.
    (0, Load(GATE), Moved, NONE_BEHIND),
    (
        0,
        Exchange(GATE, NONE_BEHIND, ONE_RUNS_ON),
        Moved,
        ONE_RUNS_ON,
    ),
    (1, Load(GATE), Moved, ONE_RUNS_ON),
    (
        1,
        Exchange(GATE, ONE_RUNS_ON, BOTH_RUN_ON),
        Moved,
        BOTH_RUN_ON,
    ),
    (0, Load(TRACED), Moved, BOTH_RUN_ON),
    (1, Load(TRACED), Moved, BOTH_RUN_ON),
];

/// Both fill half of the space, and ask for a flip by turns. Then each makes its record, though the other makes no step meanwhile,
/// and halts. The spaces were exchanged once.
const BOTH_GET_ON: &[Act] = &[
    Executes(0, 2),
    Executes(1, 2),
    Pass(&PASSAGES),
    Executes(0, 1),
    Executes(1, 1),
    Until(0, Goal::Idle),
    Printed(0, &[], Some(End::Halt)),
    Until(1, Goal::Idle),
    Printed(1, &[], Some(End::Halt)),
    Cycles(1),
];

/// A mutator whose request is refused, since another was first, parks for that one's flip. Else the two would wait for each
/// other for ever.
#[test]
fn of_two_that_ask_for_a_flip_both_get_on(rt: HostRuntime) {
    play(&rt, rt.alloc(), LINES, &SMALLEST, &[BOTH_GET_ON]);
}

/// The first mutator fills three pages, and asks for a flip since two more don't fit. The second one's record takes four pages, all
/// of a space.
const LATER: &str = "/.mutator/new r0 0/put 0 r0/raw r1 127/li r1 0/raw r1 127/halt\
    /.mutator/li r1 1/raw r0 200/halt/";

/// The second mutator parks for that flip before the look that begins its record. There is no room for it in the new epoch either, but no flip
/// came since the look, so it asks for one of its own. Only after that is the heap full, with the record on the board copied.
const FULL_AFTER_ITS_OWN: &[Act] = &[
    Executes(0, 4),
    Executes(1, 1),
    Until(0, Goal::Request),
    Come(2, 1),
    Until(0, Goal::Idle),
    Printed(0, &[], Some(End::Halt)),
    ToTheEnd,
    Printed(
        1,
        &[],
        Some(End::HeapFull {
            asked: 4,
            room: 255,
            live: 1,
        }),
    ),
    Cycles(2),
];

/// A flip that came after a mutator's last effect, but before the look that begins its next instruction, is none that it has seen.
#[test]
fn a_flip_before_the_look_does_not_count(rt: HostRuntime) {
    play(&rt, rt.alloc(), LATER, &SMALLEST, &[FULL_AFTER_ITS_OWN]);
}
