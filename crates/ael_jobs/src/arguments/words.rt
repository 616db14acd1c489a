//! The words of the command line, read to a job.

ghost use Rattle.std.specs.Prelude.{◌≡◌, Err, IfOk, IfSome, OnOk, Some, map, string_bytes, true, false};
ghost use Rattle.std.specs.Option.{option_and_then};
ghost use Rattle.clap.specs.Matches.{found_of};
ghost use Rattle.clap.specs.Simple.{subcommand_of, subcommand_rows_of};
ghost use Rattle.clap.specs.Takes.{takes};
ghost use Rattle.clap.specs.Walk.{rows_of};
ghost use Rattle.simple_commands.specs.declared.parsing.WordsError.TheVariants.{Refused};
ghost use Rattle.ael_jobs.specs.Arguments.CommandLine.{ael_app};
ghost use Rattle.ael_jobs.specs.Arguments.Words.{job_from, job_of, NumbersAreInRange, IsKnown};
ghost use Rattle.ael_jobs.specs.Calls.Answer.{IsAsked};

use crate::arguments::command_line::command;
use crate::arguments::job::Job;
use crate::arguments::operands::BenchOperands;
use crate::arguments::options::{AuditOptions, ConcordOptions, RunOptions, SimOptions};
use clap::ArgMatches;
use simple_commands::{WordsError, parse};
use std::alloc::Global;

/// The job of a subcommand, by its name and what was given for it, if that can be.
fn job_named(name: &str, given: &ArgMatches) -> Option<Job>
    requires { IsKnown (name.now, rows_of (found_of given.now)) }
    ensures value { result ≡ job_from (name.now, rows_of (found_of given.now)) }
    ensures range { IfSome result NumbersAreInRange }
{
    match name {
        "asm" => Some(Job::Asm),
        "sim" => Some(Job::Sim(SimOptions::given(given)?)),
        "run" => Some(Job::Run(RunOptions::given(given)?)),
        "concord" => Some(Job::Concord(ConcordOptions::given(given))),
        "bench" => Some(Job::Bench(BenchOperands::given(given))),
        "audit" => Some(Job::Audit(AuditOptions::given(given))),
        _ => None,
    }
}

/// The job of the subcommand that was used, if it can be.
fn job_in(matches: &ArgMatches) -> Option<Job>
    requires { IfSome (subcommand_rows_of matches.now) IsKnown }
    ensures value { result ≡ option_and_then job_from (subcommand_rows_of matches.now) }
    ensures range { IfSome result NumbersAreInRange }
{
    let (name, given) = matches.subcommand()?;
    job_named(name, given)
}

/// What `clap` finds in the words.
fn parsed<'a>(alloc: Global, words: &'a [String]) -> Result<ArgMatches<'a>, WordsError>
    ensures taken { OnOk result (takes ael_app (map string_bytes words.entry.now) ≡ true) }
    ensures subcommand { IfOk result (λ m. subcommand_rows_of m ≡ subcommand_of ael_app (map string_bytes words.entry.now)) }
    ensures known { IfOk result (λ m. IfSome (subcommand_rows_of m) IsKnown) }
    ensures refused { result ≡ Err Refused → takes ael_app (map string_bytes words.entry.now) ≡ false }
{
    match command(alloc) {
        Ok(command) => parse(command, words),
        Err(_) => Err(WordsError::NoMemory),
    }
}

/// Reads the words after the program's name. They are refused exactly where `clap` does not take
/// them, they name no subcommand, or they ask for fewer pages in all than at first; want of memory can come at any words.
pub fn read_words(alloc: Global, words: &[String]) -> Result<Job, WordsError>
    ensures asked { IsAsked (job_of (map string_bytes words.now)) result }
    ensures range { IfOk result NumbersAreInRange }
{
    job_in(&parsed(alloc, words)?).ok_or(WordsError::Refused)
}
