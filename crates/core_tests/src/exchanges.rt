use crate::acts::Act::{self, Executes, Holds, Makes, Printed, Until};
use crate::acts::play;
use crate::stepping::{GATE, Goal, SMALLEST};
use atom_store::Step::{Exchange, Load};
use gc_core::Stepped::{Effect, Moved};
use plain_heap::End;

/// Mutator 0 exchanges the number 0 in a field for 5. Mutator 1 exchanges it for 9, and then stores 0 again.
const LINES: &str = "/.mutator/new r0 1/put 0 r0/li r2 5/cas r3 r0 0 r1 r2/out r3/halt\
    /.mutator/get r0 0/li r2 9/cas r3 r0 0 r1 r2/st r0 0 r1/halt/";

/// The word of page 3, and those of the record's header and its field, which are heap words 192 and 193.
const PAGE: usize = 19;

const HEADER: usize = 225;

const FIELD: usize = 226;

/// The numbers, as words.
const FIVE: u64 = 20;

const NINE: u64 = 36;

/// Mutator 0 reads that the number is 0. Mutator 1 puts 9 there between the load and the exchange, which is lost.
const LOST: &[Act] = &[
    Executes(0, 3),
    Executes(1, 2),
    Makes(
        0,
        &[
            (Load(GATE), Moved),
            (Load(PAGE), Moved),
            (Load(HEADER), Moved),
            (Load(FIELD), Moved),
        ],
    ),
    Executes(1, 1),
    Makes(0, &[(Exchange(FIELD, 0, FIVE), Moved)]),
    Holds(FIELD, NINE),
];

/// Mutator 0 reads another number, and tells so.
const FAILS: &[Act] = &[
    Makes(0, &[(Load(FIELD), Effect(0))]),
    Until(0, Goal::Idle),
    Printed(0, &[0], Some(End::Halt)),
    Holds(FIELD, NINE),
];

/// Mutator 0 reads the same number again, which mutator 1 has stored, and exchanges that.
const WINS: &[Act] = &[
    Executes(1, 1),
    Makes(
        0,
        &[(Load(FIELD), Moved), (Exchange(FIELD, 0, FIVE), Effect(0))],
    ),
    Until(0, Goal::Idle),
    Printed(0, &[1], Some(End::Halt)),
    Holds(FIELD, FIVE),
];

/// An exchange of a field that is lost to another mutator's compares again what stands there then.
#[test]
fn lost_exchange_finds_another_number(rt: HostRuntime) {
    play(&rt, rt.alloc(), LINES, &SMALLEST, &[LOST, FAILS]);
}

/// It is made again if that is what it expects.
#[test]
fn lost_exchange_finds_its_number_again(rt: HostRuntime) {
    play(&rt, rt.alloc(), LINES, &SMALLEST, &[LOST, WINS]);
}
