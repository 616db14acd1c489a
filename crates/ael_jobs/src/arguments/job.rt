//! What the words of the command line ask for.

use crate::arguments::operands::BenchOperands;
use crate::arguments::options::{AuditOptions, ConcordOptions, RunOptions, SimOptions};

/// What a call of the program is to do.
#[derive(Clone, Copy, Debug, PartialEq, Eq)]
pub enum Job {
    /// To list a program.
    Asm,
    /// To run the benchmark by a seed.
    Bench(BenchOperands),
    /// To run a program by a schedule, and print what its mutators printed.
    Sim(SimOptions),
    /// To run a program on threads, and print what its mutators printed.
    Run(RunOptions),
    /// To print the concordance of a text.
    Concord(ConcordOptions),
    /// To hold the output of a run against its program.
    Audit(AuditOptions),
}

impl Job {
    ghost use Rattle.std.specs.Prelude.{◌≡◌};
    ghost use Rattle.ael_jobs.specs.Arguments.Jobs.{job_task};

    /// Whether it waits for other threads.
    pub fn waits(self) -> bool
        ensures { result ≡ (job_task self).waits }
    {
        match self {
            Job::Asm | Job::Bench(_) | Job::Sim(_) | Job::Audit(_) => false,
            Job::Run(_) | Job::Concord(_) => true,
        }
    }
}
