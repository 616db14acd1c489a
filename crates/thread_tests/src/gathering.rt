//! Runs whose workers are held until all have come.

ghost use Rattle.std.specs.Prelude.{◌≤◌};

use crate::asserting::assert_same;
use crate::programs::program;
use crate::signs::comes;
use ael_threads::{Outputs, Pace, Scanner, run};
use gc_worker::Config;
use plain_state::End;
use std::alloc::Global;
use std::array;
use std::marker::Sync;
use std::process::Abort;
use std::sync::Wait;
use std::sync::atomic::{AtomicBool, AtomicU64, Ordering};
use std::thread::Threads;

/// The most mutators that there may be.
const MUTATORS: usize = 16;

/// Mutators that execute the same section, so many instructions, and scanners. Each mutator is held before this instruction, and each
/// scanner before the act after so many steps.
struct Crew {
    section: &'static str,
    instructions: u64,
    mutators: u8,
    scanners: u8,
    instruction: u64,
    steps: u64,
}

/// Two mutators are held before their second instructions: alone, and with a scanner that has made a step.
const SMALL: [Crew; 2] = [
    Crew {
        section: "/.mutator/li r0 5/out r0/halt",
        instructions: 3,
        mutators: 2,
        scanners: 0,
        instruction: 2,
        steps: 1,
    },
    Crew {
        section: "/.mutator/li r0 5/out r0/halt",
        instructions: 3,
        mutators: 2,
        scanners: 1,
        instruction: 2,
        steps: 1,
    },
];

/// As many workers as there may be are held before they begin.
const LARGE: Crew = Crew {
    section: "/.mutator/li r0 5/mov r1 r0/out r1/halt",
    instructions: 4,
    mutators: 16,
    scanners: 8,
    instruction: 1,
    steps: 0,
};

/// Holds the workers of a crew until all have come. It keeps at which instruction each mutator has passed last, and whether one has
/// passed out of order.
#[derive(Drop)]
struct Gathering {
    instruction: u64,
    steps: u64,
    missing: AtomicU64,
    is_over: AtomicBool,
    gave_up: AtomicBool,
    last: [AtomicU64; MUTATORS],
    out_of_order: AtomicBool,
}

impl Gathering {
    fn new(crew: &Crew) -> Gathering {
        let workers = u64::from(crew.mutators) + u64::from(crew.scanners);
        Gathering {
            instruction: crew.instruction,
            steps: crew.steps,
            missing: AtomicU64::new(workers),
            is_over: AtomicBool::new(false),
            gave_up: AtomicBool::new(false),
            last: array::from_fn(|_| AtomicU64::new(0)),
            out_of_order: AtomicBool::new(false),
        }
    }

    /// One more has come. It waits for the others, or gives up; then nobody is waited for any more.
    fn come(&self) {
        if self.missing.fetch_sub(1, Ordering::SeqCst) == 1 {
            self.is_over.store(true, Ordering::SeqCst);
        }
        if !comes(&self.is_over) {
            self.gave_up.store(true, Ordering::SeqCst);
            self.is_over.store(true, Ordering::SeqCst);
        }
    }

    /// Each worker has come once, and none has given up. Each mutator has passed at each of its instructions once, in order.
    fn check(&self, rt: &impl Abort, crew: &Crew) {
        assert_same(rt, &self.gave_up.load(Ordering::SeqCst), &false);
        assert_same(rt, &self.missing.load(Ordering::SeqCst), &0);
        assert_same(rt, &self.out_of_order.load(Ordering::SeqCst), &false);
        for last in self.last.iter().take(usize::from(crew.mutators)) {
            assert_same(rt, &last.load(Ordering::SeqCst), &crew.instructions);
        }
    }
}

impl Pace for Gathering {
    fn pass(&self, worker: u8, n: u64) {
        let before = self.last[usize::from(worker)].swap(n, Ordering::SeqCst);
        if before != n - 1 {
            self.out_of_order.store(true, Ordering::SeqCst);
        }
        if n == self.instruction {
            self.come();
        }
    }

    fn scan(&self, scanner: &Scanner) {
        if scanner.steps() == self.steps {
            self.come();
        }
    }
}

/// So many mutators have printed 5 and halted.
fn check_printed(rt: &impl Abort, told: &Outputs, mutators: usize) {
    assert_same(rt, &told.mutators.len(), &mutators);
    for one in &told.mutators {
        assert_same(
            rt,
            &(one.numbers.as_slice(), one.end),
            &(&[5][..], End::Halt),
        );
    }
}

/// All workers of a crew run at once, and each mutator prints 5 and halts.
fn check_crew<R: Threads + Wait + Abort + Sync>(rt: &R, alloc: Global, crew: &Crew)
    requires { crew.now.scanners ≤ 8 }
{
    let mutators = usize::from(crew.mutators);
    let sections = crew.section.repeat(alloc, mutators).expect(rt, "no text");
    let program = program(rt, alloc, &sections);
    let config = Config {
        pages: 4,
        limit: 4,
        scanners: crew.scanners,
        snap: false,
    };
    let pace = Gathering::new(crew);
    let told = run(rt, alloc, &program, 10, &config, &pace).expect(rt, "no run");
    pace.check(rt, crew);
    check_printed(rt, &told, mutators);
}

#[test]
fn all_workers_run_at_once(rt: HostRuntime) {
    for crew in &SMALL {
        check_crew(&rt, rt.alloc(), crew);
    }
}

#[test]
fn as_many_workers_as_there_may_be_run_at_once(rt: HostRuntime) {
    check_crew(&rt, rt.alloc(), &LARGE);
}
