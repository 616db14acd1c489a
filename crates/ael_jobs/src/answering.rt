//! What is answered to the words if that waits for nobody, and the parts of every answer.

ghost use Rattle.std.specs.Prelude.{◌≡◌, ◌≢◌, ℕ, List, [], Ok, Err, IfOk, IfErr, Option, Some, true};
ghost use Rattle.std.specs.Result.{ForOk, MatchResult};
ghost use Rattle.mutator_asm.specs.Text.{IsText};
ghost use Rattle.ael_jobs.specs.declared.arguments.job.Job.{Job};
ghost use Rattle.ael_jobs.specs.declared.status.Status.TheVariants.{NoMemory, ReadFault};
ghost use Rattle.ael_jobs.specs.Calls.Answer.{IsAnswer, IsAsked, IsCaused, IsDrawnFor};
ghost use Rattle.ael_jobs.specs.Streams.Ends.{drawn_by_call};
ghost use Rattle.ael_jobs.specs.Arguments.Jobs.{IsStill, ReadsProgram, is_waiting, job_task};
ghost use Rattle.ael_jobs.specs.Tasks.ProgramTask.{IsTextIn, IsUnfit};
ghost use Rattle.ael_jobs.specs.Tasks.Task.{Everything, IsDrawn};
ghost use Rattle.ael_jobs.specs.Arguments.Words.{NumbersAreInRange};

use crate::answer::Answer;
use crate::arguments::job::Job;
use crate::asm::asm;
use crate::auditing::audit;
use crate::bench::bench;
use crate::runs::sim::sim;
use crate::status::Status;
use crate::streams::reading::read_all;
use crate::streams::source::Source;
use mutator_asm::Program;
use program_text::assemble;
use simple_commands::WordsError;
use std::alloc::Global;

/// The answer to what was asked for, where that waits for nobody.
pub fn answer_still<S: Source>(alloc: Global, asked: Result<Job, WordsError>, src: &mut S) -> Answer
    requires range { ForOk asked NumbersAreInRange }
    requires still { ForOk asked IsStill }
    ensures answer { (words : Option Job) → IsAsked words asked → IsAnswer words (drawn_by_call S.Source src.old src.new) result.output.items result.status }
    ensures drawn { (words : Option Job) → IsAsked words asked → IsDrawnFor words (drawn_by_call S.Source src.old src.new) }
    ensures counted { result.status ≢ ReadFault → S.faults src.new ≡ S.faults src.old }
    ensures wanting { (words : Option Job) → IsAsked words asked → is_waiting words ≡ true → (result.output.items ≡ []) × (result.status ≡ NoMemory) × (src.new ≡ src.old) }
{
    let done = match asked {
        Ok(job) => work(alloc, job, src),
        Err(WordsError::Refused) => Err(Status::Usage),
        Err(WordsError::NoMemory) => Err(Status::NoMemory),
    };
    match done {
        Ok(answer) => answer,
        Err(status) => Answer::failed(alloc, status),
    }
}

/// The answer to a job that waits for nobody.
fn work<S: Source>(alloc: Global, job: Job, src: &mut S) -> Result<Answer, Status>
    requires range { NumbersAreInRange job }
    requires still { IsStill job }
    ensures ok { IfOk result (λ answer. IsCaused job (drawn_by_call S.Source src.old src.new) answer.output.items answer.status) }
    ensures err { IfErr result (IsCaused job (drawn_by_call S.Source src.old src.new) []) }
    ensures drawn { IsDrawnFor (Some job) (drawn_by_call S.Source src.old src.new) }
    ensures counted { result ≢ Err ReadFault → S.faults src.new ≡ S.faults src.old }
{
    match job {
        Job::Bench(operands) => or_no_memory(bench(alloc, operands)),
        Job::Audit(options) => audit(alloc, &read_all(alloc, src)?, options),
        job => or_no_memory(make(alloc, &read_program(alloc, src)?, job)),
    }
}

/// What a job that waits for nobody makes of its program.
fn make(alloc: Global, program: &Program, job: Job) -> Result<Answer, plain_heap::NoMemory>
    requires range { NumbersAreInRange job }
    requires still { IsStill job }
    requires reads { ReadsProgram job }
    ensures { IfOk result (λ answer. (bytes : List ℕ) → IsText bytes program.now.code program.now.schedule
        → (job_task job).Makes bytes answer.output.items answer.status) }
{
    match job {
        Job::Asm => asm(alloc, program),
        Job::Sim(options) => sim(alloc, program, options),
        Job::Bench(_) => unreachable!("it reads no program"),
        Job::Audit(_) => unreachable!("its program isn't all of its input"),
        Job::Run(_) | Job::Concord(_) => unreachable!("it waits for threads"),
    }
}

/// What was made, or how it is told that there was no memory for it.
pub fn or_no_memory(made: Result<Answer, plain_heap::NoMemory>) -> Result<Answer, Status>
    ensures { MatchResult made (λ answer. result ≡ Ok answer) (λ _. result ≡ Err NoMemory) }
{
    Ok(made?)
}

/// The program whose text is the input.
pub fn read_program<S: Source>(alloc: Global, src: &mut S) -> Result<Program, Status>
    ensures ok { IfOk result (λ program. IsTextIn (drawn_by_call S.Source src.old src.new) program.code program.schedule) }
    ensures err { IfErr result (IsUnfit (drawn_by_call S.Source src.old src.new)) }
    ensures drawn { IsDrawn Everything (drawn_by_call S.Source src.old src.new) }
    ensures counted { result ≢ Err ReadFault → S.faults src.new ≡ S.faults src.old }
{
    let text = read_all(alloc, src)?;
    Ok(assemble(alloc, &text)?)
}
