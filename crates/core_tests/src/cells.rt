//! Weak cells that are copied, linked, walked over and emptied, while some of the workers sleep.

use crate::acts::Act::{
    self, Cycles, Exchanges, Executes, Holds, Live, Loses, Makes, Printed, Tells, ToTheEnd, Turns,
    Until,
};
use crate::acts::{Event, play};
use crate::stepping::{GATE, Goal, SMALLEST, TRACED, WEAK};
use atom_store::Step::{self, Exchange, Load, Store};
use gc_core::Config;
use gc_core::Stepped::{Effect, Moved, Traced};
use plain_heap::End;
use std::alloc::Global;
use std::process::Abort;

/// Mutator 0 keeps the record to which its cell refers, and mutator 1, whose cell is on the board too, doesn't. Mutator 2 fills
/// the space, and then makes a record for which there is no room.
const LINES: &str = "/.mutator/new r0 1/li r1 7/st r0 0 r1/weak r1 r0\
    /li r2 1/out r2/ld r2 r1 0/ld r2 r2 0/out r2/halt\
    /.mutator/raw r0 0/weak r1 r0/put 0 r1/li r0 0/li r2 1/out r2/ld r2 r1 0/out r2/halt\
    /.mutator/raw r0 127/li r0 0/raw r0 127/halt/";

/// The scanner that sleeps. Another one may come behind it.
const SCANNER: u8 = 3;

const WEAKTURN: usize = 7;

/// The headers of the records to which the cells refer.
const KEPT: usize = 225;

const LOST: usize = 161;

/// The pointer to the first one's copy, which is heap word 256.
const COPY: u64 = 1025;

/// What leads to the copies of both cells, which are heap words 258 and 261, and where their targets and links are.
const CELL_0: u64 = 259;

const CELL_1: u64 = 262;

const TARGET_0: usize = 292;

const LINK_0: usize = 293;

const TARGET_1: usize = 295;

const LINK_1: usize = 296;

/// The steps that link the second cell behind the first.
const LINKING: [Event; 3] = [
    (Load(WEAK), Moved),
    (Store(LINK_1, CELL_0), Moved),
    (Exchange(WEAK, CELL_0, CELL_1), Moved),
];

/// The turn to walk is taken, and the epoch is marked as traced.
const TURN: Step = Exchange(WEAKTURN, 1, 2);

const MARK: Step = Exchange(TRACED, 1, 2);

/// The steps from the one to the other.
const WALK: [Event; 10] = [
    (Load(WEAK), Moved),
    (Load(TARGET_1), Moved),
    (Load(LOST), Moved),
    (Store(TARGET_1, 0), Moved),
    (Load(LINK_1), Moved),
    (Load(TARGET_0), Moved),
    (Load(KEPT), Moved),
    (Store(TARGET_0, COPY), Moved),
    (Load(LINK_0), Moved),
    (MARK, Traced),
];

/// Mutator 2 has asked for a flip and made it, and nothing is copied yet.
const FLIPPED: &[Act] = &[
    Executes(0, 4),
    Executes(1, 4),
    Executes(2, 2),
    Exchanges(2, GATE),
    Exchanges(0, GATE),
    Exchanges(1, GATE),
    Until(2, Goal::Cycle(1)),
];

/// One mutator after another forwards its registers. So both cells are copied, and the second is linked last.
const FORWARDED: &[Act] = &[Exchanges(0, GATE), Exchanges(1, GATE), Exchanges(2, GATE)];

/// The scanner takes the turn.
const TAKES_TURN: &[Act] = &[
    Until(SCANNER, Goal::Want(TURN)),
    Makes(SCANNER, &[(TURN, Moved)]),
];

/// All but the scanner go on. Both mutators with cells execute instructions up to their loads of them, but nobody gets further,
/// since the epoch isn't traced.
const OTHERS_GO_ON: &[Act] = &[
    Turns(Some(SCANNER), 1_000),
    Printed(0, &[1], None),
    Printed(1, &[1], None),
    Printed(2, &[], None),
    Cycles(1),
    Live(None),
];

/// All go on to their ends: the epoch is traced, the first cell has its target, and the second is empty.
const ENDED: &[Act] = &[
    ToTheEnd,
    Printed(0, &[1, 7], Some(End::Halt)),
    Printed(1, &[1, 0], Some(End::Halt)),
    Printed(2, &[], Some(End::Halt)),
    Cycles(1),
    Live(Some(8)),
    Holds(TARGET_0, COPY),
    Holds(TARGET_1, 0),
];

/// With so many scanners these lists of acts come to pass.
fn check(rt: &impl Abort, alloc: Global, scanners: u8, lists: &[&[Act]]) {
    let config = Config {
        scanners,
        ..SMALLEST
    };
    play(rt, alloc, LINES, &config, lists);
}

/// The scanner, which copies the second cell, sleeps before a step that links it. Mutator 1 finds that copy meanwhile.
#[test]
fn who_links_a_cell_may_sleep(rt: HostRuntime) {
    for (wanted, _) in LINKING {
        let links = [Exchanges(0, GATE), Until(SCANNER, Goal::Want(wanted))];
        let lists = [FLIPPED, &links, OTHERS_GO_ON, ENDED];
        check(&rt, rt.alloc(), 2, &lists);
    }
}

/// Mutators 0 and 1 have copied their cells, and are both about to link them as the only ones.
const BOTH_LINK: &[Act] = &[
    Until(0, Goal::Want(Exchange(WEAK, 0, CELL_0))),
    Until(1, Goal::Want(Exchange(WEAK, 0, CELL_1))),
    Makes(0, &[(Exchange(WEAK, 0, CELL_0), Moved)]),
    Loses(1, WEAK),
    Makes(1, &LINKING),
    Holds(WEAK, CELL_1),
    Holds(LINK_1, CELL_0),
    Holds(LINK_0, 0),
];

#[test]
fn of_two_that_link_cells_both_get_on(rt: HostRuntime) {
    check(&rt, rt.alloc(), 0, &[FLIPPED, BOTH_LINK, ENDED]);
}

/// The scanner walks, while all others sleep. No step lies between these.
const WALKS: &[Act] = &[Makes(SCANNER, &WALK)];

#[test]
fn a_walk_makes_just_its_steps(rt: HostRuntime) {
    let lists = [FLIPPED, FORWARDED, TAKES_TURN, WALKS, ENDED];
    check(&rt, rt.alloc(), 1, &lists);
}

/// The scanner has the turn, and sleeps before each step of its walk.
#[test]
fn who_walks_over_cells_may_sleep(rt: HostRuntime) {
    for (wanted, _) in WALK {
        let walks = [Until(SCANNER, Goal::Want(wanted))];
        let lists = [FLIPPED, FORWARDED, TAKES_TURN, &walks, OTHERS_GO_ON, ENDED];
        check(&rt, rt.alloc(), 2, &lists);
    }
}

/// Mutator 2, which wants room, comes to the turn at once with the scanner, and is too late.
const IS_TOO_LATE: &[Act] = &[
    Until(SCANNER, Goal::Want(TURN)),
    Until(2, Goal::Want(TURN)),
    Makes(SCANNER, &[(TURN, Moved)]),
    Loses(2, WEAKTURN),
    Until(SCANNER, Goal::Want(MARK)),
];

/// It goes on once the scanner has marked the epoch as traced.
const GOES_ON: &[Act] = &[Makes(SCANNER, &[(MARK, Traced)]), Until(2, Goal::Idle)];

#[test]
fn mutators_wait_for_a_scanner_that_walks(rt: HostRuntime) {
    let lists = [
        FLIPPED,
        FORWARDED,
        IS_TOO_LATE,
        OTHERS_GO_ON,
        GOES_ON,
        ENDED,
    ];
    check(&rt, rt.alloc(), 1, &lists);
}

/// A mutator that is about to load a cell walks itself, if nobody else makes a step.
#[test]
fn a_load_of_a_cell_waits_for_the_walk(rt: HostRuntime) {
    for m in 0..2 {
        let loads = [Executes(m, 2), Tells(m, Traced), Tells(m, Effect(m))];
        check(&rt, rt.alloc(), 0, &[FLIPPED, FORWARDED, &loads, ENDED]);
    }
}
