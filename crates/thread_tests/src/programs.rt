//! Whole programs, each mutator on a thread of its own.

use crate::asserting::assert_same;
use ael_threads::{NoPace, Outputs, RunError, run};
use gc_worker::Config;
use mutator_asm::Program;
use plain_state::End;
use program_text::assemble;
use std::alloc::Global;
use std::process::Abort;

/// The program whose lines are separated by slashes.
pub fn program(rt: &impl Abort, alloc: Global, lines: &str) -> Program {
    let text = lines.replace(alloc, '/', "\n").expect(rt, "no text");
    assert!(rt; text.len() < 1 << 31);
    assemble(alloc, text.as_bytes())
        .ok()
        .expect(rt, "no program")
}

/// The pages at first and in all that no space may have.
const SIZES: [(u32, u32); 8] = [
    (0, 4),
    (3, 4),
    (4, 3),
    (256, 255),
    (4, 2049),
    (2049, 2048),
    (2049, 2049),
    (u32::MAX, u32::MAX),
];

#[test]
fn spaces_of_other_sizes_are_refused(rt: HostRuntime) {
    let program = program(&rt, rt.alloc(), "/.mutator/halt/");
    for (pages, limit) in SIZES {
        let config = Config {
            pages,
            limit,
            scanners: 0,
            snap: false,
        };
        let told = run(&rt, rt.alloc(), &program, 10, &config, &NoPace);
        let refused = (pages, limit, Some(RunError::BadPages));
        assert_same(&rt, &(pages, limit, told.err()), &refused);
    }
}

/// One mutator, in spaces of four pages: what it prints, and how often the spaces are exchanged.
struct Alone {
    lines: &'static str,
    scanners: u8,
    printed: &'static [u64],
    cycles: u32,
}

const ALONE: [Alone; 2] = [
    Alone {
        lines: "/.mutator/li r1 7/new r0 2/st r0 1 r1/ld r2 r0 1/out r2/halt/",
        scanners: 8,
        printed: &[7],
        cycles: 0,
    },
    Alone {
        lines: "/.mutator/li r0 0/li r3 20/li r4 1\
            /build: new r1 2/st r1 0 r0/mov r0 r1/sub r3 r3 r4/jz r3 waste/jmp build\
            /waste: li r3 10000/more: new r2 2/sub r3 r3 r4/jz r3 done/jmp more/done: halt/",
        scanners: 2,
        printed: &[],
        cycles: 158,
    },
];

/// The one mutator has printed its numbers and halted, and the spaces were exchanged so often.
fn check_alone(rt: &impl Abort, alone: &Alone, told: &Outputs) {
    let [one] = told.mutators.as_slice() else {
        panic!(rt; "one mutator")
    };
    assert_same(
        rt,
        &(one.numbers.as_slice(), one.end),
        &(alone.printed, End::Halt),
    );
    assert_same(rt, &told.cycles, &alone.cycles);
}

#[test]
fn one_mutator_with_scanners_does_as_alone(rt: HostRuntime) {
    for alone in &ALONE {
        let program = program(&rt, rt.alloc(), alone.lines);
        let config = Config {
            pages: 4,
            limit: 4,
            scanners: alone.scanners,
            snap: false,
        };
        let told = run(&rt, rt.alloc(), &program, 1_000_000, &config, &NoPace).expect(
            &rt, "no run",
        );
        check_alone(&rt, alone, &told);
    }
}
