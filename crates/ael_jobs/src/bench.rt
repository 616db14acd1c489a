//! The command `bench`: the benchmark, run by the words of its seed.

ghost use Rattle.std.specs.Prelude.{IfOk};
ghost use Rattle.benchmark.specs.Text.{bench_text};
ghost use Rattle.ael_jobs.specs.Tasks.Bench.{bench_options};
ghost use Rattle.ael_jobs.specs.Arguments.Options.{IsDepth};
ghost use Rattle.ael_jobs.specs.Tasks.ProgramTask.{IsMadeOf};
ghost use Rattle.ael_jobs.specs.Runs.Run.{IsRun, Scheduled};
ghost use Rattle.mutator_asm.specs.Text.{IsText};

use crate::answer::Answer;
use crate::arguments::operands::BenchOperands;
use crate::runs::sim::sim;
use benchmark::{bench_text, benchmarks_are_texts};
use mutator_asm::{Program, never_both};
use plain_heap::NoMemory;
use program_text::{AsmError, assemble};
use std::alloc::Global;

/// The program of the benchmark.
fn program(alloc: Global, operands: BenchOperands) -> Result<Program, NoMemory>
    requires { IsDepth operands.depth }
    ensures { IfOk result (λ program. IsText (bench_text operands.depth operands.seed) program.code program.schedule) }
{
    // The theorems that the proof takes.
    benchmarks_are_texts();
    never_both();

    let text = bench_text(alloc, operands.depth, operands.seed)?;
    match assemble(alloc, &text) {
        Ok(program) => Ok(program),
        Err(AsmError::NoMemory) => Err(NoMemory),
        Err(AsmError::Text { .. }) => unreachable!("the text means a program"),
    }
}

/// Runs the benchmark, and prints what its mutators printed, and its cycles.
pub fn bench(alloc: Global, operands: BenchOperands) -> Result<Answer, NoMemory>
    requires { IsDepth operands.depth }
    ensures { IfOk result (λ answer. IsMadeOf (IsRun (Scheduled (bench_options operands))) (bench_text operands.depth operands.seed) answer.output.items answer.status) }
{
    let program = program(alloc, operands)?;
    sim(alloc, &program, operands.options())
}
