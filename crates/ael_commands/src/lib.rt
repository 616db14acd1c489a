//! The commands of `ael`: the top call, and `concord`, which `ael_jobs` lacks. All else is handed on from `ael_jobs`.
#![tactic(auto)]

mod answering;
mod concord;
mod sure;
mod top_call;

pub use ael_jobs::{
    Answer, AuditOptions, BenchOperands, ConcordOptions, Got, Job, MemSink, MemSource, Put,
    RunOptions, SimOptions, Sink, Source, Status, StdSink, StdSource, SureSink, SureSource,
    ael_still, emit, missing_parts_are_wrong_in_line_one, outputs_are_true, read_words,
};
pub use sure::sure_status;
pub use top_call::ael;
