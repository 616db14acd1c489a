use crate::acts::Act::Turns;
use crate::acts::perform;
use crate::rows::{LONE_RECORD, RING, check_end};
use crate::stepping::{SMALLEST, open, program};
use gc_core::Config;

/// How many turns the others make while one worker sleeps.
const TURNS: u32 = 5_000;

/// All workers make so many steps by turns. Then one sleeps while the others go on, and at last all go on to the row's end.
#[test]
fn a_worker_may_sleep_after_any_step(rt: HostRuntime) {
    for row in [LONE_RECORD, RING] {
        let config = Config {
            pages: row.pages,
            limit: row.pages,
            scanners: 2,
            ..SMALLEST
        };
        let program = program(&rt, rt.alloc(), row.lines);
        for sleeper in 0..3 {
            for steps in 1..=400 {
                let mut core = open(&rt, rt.alloc(), &program, &config);
                let acts = [Turns(None, steps), Turns(Some(sleeper), TURNS)];
                perform(&rt, rt.alloc(), &mut core, &acts);
                check_end(&rt, &mut core, &row);
            }
        }
    }
}
