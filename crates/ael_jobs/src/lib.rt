//! The jobs of `ael`: what its words ask for, the ends that it reads and writes, runs of programs, audits, what is answered, and all that
//! holds of a call. Only the concordance is missing, which `ael_commands` adds.
#![tactic(auto)]

mod answer;
mod answering;
mod arguments;
mod asm;
mod auditing;
mod bench;
mod division;
mod laws;
mod runs;
mod status;
mod still_call;
mod streams;

pub use answer::Answer;
pub use answering::{answer_still, or_no_memory, read_program};
pub use arguments::job::Job;
pub use arguments::operands::BenchOperands;
pub use arguments::options::{AuditOptions, ConcordOptions, RunOptions, SimOptions};
pub use arguments::words::read_words;
pub use laws::{missing_parts_are_wrong_in_line_one, outputs_are_true};
pub use runs::run::run;
pub use status::Status;
pub use still_call::{ael_still, finish};
pub use streams::memory::{MemSink, MemSource};
pub use streams::reading::{ReadError, read_all};
pub use streams::sink::{Put, Sink};
pub use streams::source::{Got, Source};
pub use streams::standard::{StdSink, StdSource};
pub use streams::sure::{SureSink, SureSource};
pub use streams::writing::emit;
