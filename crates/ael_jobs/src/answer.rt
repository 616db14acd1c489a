//! What a command answers: the output, how it went, and the line that tells it.

ghost use Rattle.std.specs.Prelude.{◌≡◌, ◌⊎◌, [], IfOk, OnErr, true};
ghost use Rattle.std.specs.Cow.{cow_str_bytes};
ghost use Rattle.ael_jobs.specs.Calls.Status.{is_made, status_line};

use crate::status::{NO_MEMORY, Status};
use plain_heap::NoMemory;
use std::alloc::Global;
use std::borrow::CowStr;

/// What a command answers. All of it is there before its first byte is written.
#[derive(Debug, Drop)]
pub struct Answer {
    pub output: Vec<u8>,
    pub status: Status,
    /// What standard error gets.
    pub line: CowStr<'static, Global>,
    ghost line_is: { cow_str_bytes line ≡ status_line status },
}

impl Answer {
    /// The answer with this output, and with the line of the status.
    pub fn new(alloc: Global, output: Vec<u8>, status: Status) -> Result<Answer, NoMemory>
        ensures whole { IfOk result (λ answer. (answer.output.items ≡ output.items) × (answer.status ≡ status)) }
        ensures spends { OnErr result (is_made status ≡ true) }
    {
        let line = status.line(alloc)?;
        Ok(Answer {
            output,
            status,
            line,
        })
    }

    /// An answer without output. Where there is no memory to make the status's line, it tells that.
    pub fn failed(alloc: Global, status: Status) -> Answer
        ensures output { result.output.items ≡ [] }
        ensures status { (result.status ≡ status) ⊎ ((result.status ≡ Status.NoMemory) × (is_made status ≡ true)) }
    {
        match Answer::new(alloc, Vec::new(alloc), status) {
            Ok(answer) => answer,
            Err(NoMemory) => Answer {
                output: Vec::new(alloc),
                status: Status::NoMemory,
                line: CowStr::Borrowed(NO_MEMORY),
            },
        }
    }
}
