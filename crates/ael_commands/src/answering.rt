//! What is answered to the words, by the job that they ask for.

ghost use Rattle.std.specs.Prelude.{◌≡◌, ◌≢◌, [], Err, IfOk, IfErr, Option, Some, true};
ghost use Rattle.std.specs.Result.{ForOk};
ghost use Rattle.ael_jobs.specs.declared.arguments.job.Job.{Job};
ghost use Rattle.ael_jobs.specs.declared.status.Status.TheVariants.{ReadFault};
ghost use Rattle.ael_jobs.specs.Calls.Answer.{IsAnswer, IsAsked, IsCaused, IsDrawnFor};
ghost use Rattle.ael_jobs.specs.Streams.Ends.{drawn_by_call};
ghost use Rattle.ael_jobs.specs.Arguments.Jobs.{job_task};
ghost use Rattle.ael_jobs.specs.Arguments.Words.{NumbersAreInRange};

use crate::concord::concord;
use ael_jobs::{
    Answer, Job, Source, Status, answer_still, or_no_memory, read_all, read_program, run,
};
use simple_commands::WordsError;
use std::alloc::Global;
use std::marker::Sync;
use std::sync::Wait;
use std::thread::Threads;

/// The answer to what was asked for.
pub fn answer<R: Threads + Wait + Sync, S: Source>(
    rt: &R,
    alloc: Global,
    asked: Result<Job, WordsError>,
    src: &mut S,
) -> Answer
    requires { ForOk asked NumbersAreInRange }
    ensures answer { (words : Option Job) → IsAsked words asked → IsAnswer words (drawn_by_call S.Source src.old src.new) result.output.items result.status }
    ensures drawn { (words : Option Job) → IsAsked words asked → IsDrawnFor words (drawn_by_call S.Source src.old src.new) }
    ensures counted { result.status ≢ ReadFault → S.faults src.new ≡ S.faults src.old }
{
    match asked {
        Ok(job) if job.waits() => match wait_for(rt, alloc, job, src) {
            Ok(answer) => answer,
            Err(status) => Answer::failed(alloc, status),
        },
        asked => answer_still(alloc, asked, src),
    }
}

/// The answer to a job that waits for other threads.
fn wait_for<R: Threads + Wait + Sync, S: Source>(
    rt: &R,
    alloc: Global,
    job: Job,
    src: &mut S,
) -> Result<Answer, Status>
    requires range { NumbersAreInRange job }
    requires waits { (job_task job).waits ≡ true }
    ensures ok { IfOk result (λ answer. IsCaused job (drawn_by_call S.Source src.old src.new) answer.output.items answer.status) }
    ensures err { IfErr result (IsCaused job (drawn_by_call S.Source src.old src.new) []) }
    ensures drawn { IsDrawnFor (Some job) (drawn_by_call S.Source src.old src.new) }
    ensures counted { result ≢ Err ReadFault → S.faults src.new ≡ S.faults src.old }
{
    match job {
        Job::Run(options) => or_no_memory(run(rt, alloc, &read_program(alloc, src)?, options)),
        Job::Concord(options) => concord(rt, alloc, &read_all(alloc, src)?, options),
        Job::Asm | Job::Bench(_) | Job::Sim(_) | Job::Audit(_) => {
            unreachable!("it waits for nobody")
        }
    }
}
