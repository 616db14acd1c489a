//! A call whose ends never fail.

ghost use Rattle.std.specs.Prelude.{◌≡◌, ◌≤◌, ◌⊎◌, Some, length, map, string_bytes};
ghost use Rattle.ael_jobs.specs.declared.arguments.job.Job.{Job};
ghost use Rattle.ael_jobs.specs.declared.streams.reading.TheConstants.{LONGEST_INPUT};
ghost use Rattle.ael_jobs.specs.Arguments.Jobs.{job_task};
ghost use Rattle.ael_jobs.specs.Arguments.Words.{job_of};
ghost use Rattle.ael_commands.specs.Sure.{GoesAs};

use crate::top_call::ael;
use ael_jobs::{SureSink, SureSource};
use std::alloc::Global;
use std::marker::Sync;
use std::sync::Wait;
use std::thread::Threads;

/// The exit status of a call whose ends never fail: how that goes which the job makes of a right
/// input, or 7.
pub fn sure_status<R: Threads + Wait + Sync>(
    rt: &R,
    alloc: Global,
    words: &[String],
    input: Vec<u8>,
) -> u8
    ensures { (job : Job) → job_of (map string_bytes words.now) ≡ Some job → length input.items ≤ LONGEST_INPUT → (job_task job).IsRight input.items
        → GoesAs (job_task job) input.items result ⊎ (result ≡ 7) }
{
    let mut src = SureSource::new(input);
    ael(rt, alloc, words, &mut src, &mut SureSink, &mut SureSink)
}
