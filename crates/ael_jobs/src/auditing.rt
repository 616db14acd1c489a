//! The command `audit`: the output of a run, held against its program.

ghost use Rattle.std.specs.Prelude.{◌≡◌, ◌≤◌, IfErr, IfOk, length, string_bytes};
ghost use Rattle.heap_audit.specs.declared.verdict.Verdict.TheVariants as verdicts;
ghost use Rattle.ael_jobs.specs.declared.streams.reading.TheConstants.{LONGEST_INPUT};
ghost use Rattle.ael_jobs.specs.Tasks.Audit.{HasNoVerdict, IsAudited, verdict_status, verdict_text};

use crate::answer::Answer;
use crate::arguments::options::AuditOptions;
use crate::division::divided;
use crate::status::Status;
use heap_audit::{At, Verdict};
use plain_heap::NoMemory;
use program_text::assemble;
use std::alloc::Global;

/// The line that tells where an output is wrong.
fn told_at(alloc: Global, at: At) -> Result<String, NoMemory>
    ensures { IfOk result (λ text. string_bytes text ≡ verdict_text (verdicts.No at)) }
{
    match at {
        At::Line(line) => Ok(format!(in alloc; "audit: no: line {line}\n")?),
        At::Register(m, j) => Ok(format!(in alloc; "audit: no: register {m} {j}\n")?),
        At::Word(place) => Ok(format!(in alloc; "audit: no: word {place}\n")?),
    }
}

/// The line that tells a verdict.
fn told(alloc: Global, verdict: Verdict) -> Result<String, NoMemory>
    ensures { IfOk result (λ text. string_bytes text ≡ verdict_text verdict) }
{
    match verdict {
        Verdict::Yes => Ok(format!(in alloc; "audit: yes\n")?),
        Verdict::No(at) => told_at(alloc, at),
    }
}

/// How it goes that this is the verdict.
fn status(verdict: Verdict) -> Status
    ensures { result ≡ verdict_status verdict }
{
    match verdict {
        Verdict::Yes => Status::Done,
        Verdict::No(_) => Status::No,
    }
}

/// Audits the output behind a program's text.
pub fn audit(alloc: Global, input: &[u8], options: AuditOptions) -> Result<Answer, Status>
    requires { length input.now ≤ LONGEST_INPUT }
    ensures ok { IfOk result (λ answer. IsAudited options.turns input.now answer.output.items answer.status) }
    ensures err { IfErr result (HasNoVerdict input.now) }
{
    let (text, part) = divided(input);
    let program = assemble(alloc, text)?;
    let verdict = heap_audit::audit(alloc, &program, options.turns, part)?;
    let line = told(alloc, verdict)?;
    Ok(Answer::new(alloc, line.into_bytes(), status(verdict))?)
}
