//! The command `asm`: the listing of a program.

ghost use Rattle.std.specs.Prelude.{IfOk};
ghost use Rattle.ael_jobs.specs.Tasks.Asm.{IsListed};

use crate::answer::Answer;
use crate::status::Status;
use mutator_asm::{NoMemory, Program};
use program_text::list;
use std::alloc::Global;

/// Lists a program.
pub fn asm(alloc: Global, program: &Program) -> Result<Answer, NoMemory>
    ensures { IfOk result (λ answer. IsListed program.now.code program.now.schedule answer.output.items answer.status) }
{
    Answer::new(alloc, list(alloc, program)?, Status::Done)
}
