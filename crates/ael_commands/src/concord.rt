//! The command `concord`: the concordance of a text, made by mutators on threads.

ghost use Rattle.std.specs.Prelude.{◌≡◌, ◌≤◌, IfErr, IfOk, length};
ghost use Rattle.ael_jobs.specs.declared.streams.reading.TheConstants.{LONGEST_INPUT};
ghost use Rattle.ael_jobs.specs.Arguments.Options.{AreConcordOptions};
ghost use Rattle.ael_jobs.specs.Tasks.Concord.{IsMadeOfText, HasNoConcordance};
ghost use Rattle.ael_commands.specs.Status.{concord_status};

use ael_jobs::{Answer, ConcordOptions, Status};
use concordance::ConcordError;
use std::alloc::Global;
use std::marker::Sync;
use std::sync::Wait;
use std::thread::Threads;

/// How it goes that there is no concordance.
fn status(error: ConcordError) -> Status
    ensures { result ≡ concord_status error }
{
    match error {
        ConcordError::WordTooLong { line } => Status::LongWord { line },
        ConcordError::HeapFull { asked, room } => Status::HeapFull { asked, room },
        ConcordError::NoMemory => Status::NoMemory,
    }
}

/// Makes the concordance of a text.
pub fn concord<R: Threads + Wait + Sync>(
    rt: &R,
    alloc: Global,
    text: &[u8],
    options: ConcordOptions,
) -> Result<Answer, Status>
    requires range { AreConcordOptions options }
    requires short { length text.now ≤ LONGEST_INPUT }
    ensures ok { IfOk result (λ answer. IsMadeOfText options.pages text.now answer.output.items answer.status) }
    ensures err { IfErr result (HasNoConcordance options.pages text.now) }
{
    let workers = options.workers as u8;
    match concordance::concord(rt, alloc, text, workers, &options.config()) {
        Ok(told) => Ok(Answer::new(alloc, told, Status::Done)?),
        Err(error) => Err(status(error)),
    }
}
