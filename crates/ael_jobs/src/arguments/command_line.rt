//! The command line, as `clap` reads it.

ghost use Rattle.std.specs.Prelude.{◌≡◌, [], ◌∷◌, IfOk, false};
ghost use Rattle.clap.specs.Words.{App, app_of, with_subcommand};
ghost use Rattle.clap.specs.declared.builder.Command.TheViews.{out-Command};
ghost use Rattle.ael_jobs.specs.Arguments.CommandLine.{ael_app, ael_with, asm_app, audit_app, bench_app, concord_app, run_app, sim_app};

use crate::arguments::operands::{BENCH_NUMBERS, BENCH_WIDE};
use crate::arguments::options::{
    AUDIT_FLAGS, AUDIT_NUMBERS, AUDIT_WIDE, CONCORD_FLAGS, CONCORD_NUMBERS, CONCORD_WIDE,
    RUN_FLAGS, RUN_NUMBERS, RUN_WIDE, SIM_FLAGS, SIM_NUMBERS, SIM_WIDE,
};
use clap::Command;
use simple_commands::{add_operands, add_options};
use std::alloc::{AllocError, Global};

/// `sim`, with its options and flags.
fn sim<'a>(alloc: Global) -> Result<Command<'a>, AllocError>
    ensures app { IfOk result (λ r. app_of r ≡ sim_app) }
    ensures local { IfOk result (λ r. (out-Command r).has_globals ≡ false) }
{
    let sim = Command::new(alloc, "sim");
    add_options(alloc, sim, &SIM_NUMBERS, &SIM_WIDE, &SIM_FLAGS)
}

/// `run`, with its options and flags.
fn run<'a>(alloc: Global) -> Result<Command<'a>, AllocError>
    ensures app { IfOk result (λ r. app_of r ≡ run_app) }
    ensures local { IfOk result (λ r. (out-Command r).has_globals ≡ false) }
{
    let run = Command::new(alloc, "run");
    add_options(alloc, run, &RUN_NUMBERS, &RUN_WIDE, &RUN_FLAGS)
}

/// `concord`, with its options.
fn concord<'a>(alloc: Global) -> Result<Command<'a>, AllocError>
    ensures app { IfOk result (λ r. app_of r ≡ concord_app) }
    ensures local { IfOk result (λ r. (out-Command r).has_globals ≡ false) }
{
    let concord = Command::new(alloc, "concord");
    add_options(
        alloc,
        concord,
        &CONCORD_NUMBERS,
        &CONCORD_WIDE,
        &CONCORD_FLAGS,
    )
}

/// `audit`, with its option.
fn audit<'a>(alloc: Global) -> Result<Command<'a>, AllocError>
    ensures app { IfOk result (λ r. app_of r ≡ audit_app) }
    ensures local { IfOk result (λ r. (out-Command r).has_globals ≡ false) }
{
    let audit = Command::new(alloc, "audit");
    add_options(alloc, audit, &AUDIT_NUMBERS, &AUDIT_WIDE, &AUDIT_FLAGS)
}

/// `bench`, with its operands.
fn bench<'a>(alloc: Global) -> Result<Command<'a>, AllocError>
    ensures app { IfOk result (λ r. app_of r ≡ bench_app) }
    ensures local { IfOk result (λ r. (out-Command r).has_globals ≡ false) }
{
    let bench = Command::new(alloc, "bench");
    add_operands(alloc, bench, &BENCH_NUMBERS, &BENCH_WIDE)
}

/// Adds a subcommand, where there was memory to make both commands.
fn add<'a>(
    ael: Result<Command<'a>, AllocError>,
    sub: Result<Command<'a>, AllocError>,
) -> Result<Command<'a>, AllocError>
    requires { IfOk sub (λ s. (out-Command s).has_globals ≡ false) }
    ensures { (a s : App) → IfOk ael.entry (λ c. app_of c ≡ a) → IfOk sub.entry (λ c. app_of c ≡ s) → IfOk result (λ r. app_of r ≡ with_subcommand a s.top) }
{
    let Ok(ael) = ael else {
        drop(sub);
        return Err(AllocError);
    };
    let Ok(sub) = sub else {
        drop(ael);
        return Err(AllocError);
    };
    ael.subcommand(sub)
}

/// `ael` with `asm`. The words have no program name before them, and a request for help is no command.
fn with_asm<'a>(alloc: Global) -> Result<Command<'a>, AllocError>
    ensures { IfOk result (λ r. app_of r ≡ ael_with (asm_app.top ∷ [])) }
{
    Command::new(alloc, "ael")
        .no_binary_name(true)
        .disable_help_flag(true)
        .disable_help_subcommand(true)
        .subcommand(Command::new(alloc, "asm"))
}

/// The subcommands of `ael`.
pub fn command<'a>(alloc: Global) -> Result<Command<'a>, AllocError>
    ensures { IfOk result (λ r. app_of r ≡ ael_app) }
{
    let two = add(with_asm(alloc), sim(alloc));
    let three = add(two, run(alloc));
    let four = add(three, concord(alloc));
    let five = add(four, bench(alloc));
    add(five, audit(alloc))
}
