//! The options and flags of the commands: a row each, which the command line and its readers cite.

use clap::ArgMatches;
use gc_core::Config;
use gc_worker::MOST_TURNS;
use simple_commands::{Numbers, is_given, number_of, wide_number};
use space_map::{FEWEST_PAGES, MOST_MUTATORS, MOST_PAGES, MOST_SCANNERS};

/// The pages of a space that are in use at first.
pub const PAGES: (&str, Numbers) = (
    "pages",
    Numbers {
        least: FEWEST_PAGES,
        most: MOST_PAGES,
        default: 256,
    },
);

/// The pages of a space that may come into use. If it isn't given, those are the ones in use at first, so the default here is never read.
pub const LIMIT: (&str, Numbers) = (
    "limit",
    Numbers {
        least: FEWEST_PAGES,
        most: MOST_PAGES,
        default: 256,
    },
);

/// The scanners beside the mutators.
pub const SCANNERS: (&str, Numbers) = (
    "scanners",
    Numbers {
        least: 0,
        most: MOST_SCANNERS,
        default: 1,
    },
);

/// The workers that make a concordance, each of which is a mutator.
pub const WORKERS: (&str, Numbers) = (
    "workers",
    Numbers {
        least: 1,
        most: MOST_MUTATORS,
        default: 2,
    },
);

/// How many instructions a mutator may execute.
pub const TURNS: (&str, Numbers) = (
    "turns",
    Numbers {
        least: 1,
        most: MOST_TURNS,
        default: 1_000_000,
    },
);

/// How many steps the run may make.
pub const STEPS: (&str, Numbers) = (
    "steps",
    Numbers {
        least: 1,
        most: 100_000_000,
        default: 10_000_000,
    },
);

/// What the order of steps is drawn from, in place of the program's schedule.
pub const SEED: &str = "seed";

/// Whether the order of the run is printed.
pub const ORDER: &str = "order";

/// Whether it is printed how often the spaces were exchanged, and what the last exchange copied.
pub const CYCLES: &str = "cycles";

/// Whether checkpoints can be begun, and the last one is printed.
pub const SNAP: &str = "snap";

/// Whether the last configuration is printed.
pub const DUMP: &str = "dump";

/// The options of `run` with a number of 32 bits.
pub const RUN_NUMBERS: [(&str, Numbers); 4] = [PAGES, LIMIT, SCANNERS, TURNS];

/// The options of `run` with a number of 64 bits: there are none.
pub const RUN_WIDE: [&str; 0] = [];

/// The flags of `run`.
pub const RUN_FLAGS: [&str; 3] = [CYCLES, SNAP, DUMP];

/// The options of `concord` with a number of 32 bits.
pub const CONCORD_NUMBERS: [(&str, Numbers); 2] = [WORKERS, PAGES];

/// The options of `concord` with a number of 64 bits: there are none.
pub const CONCORD_WIDE: [&str; 0] = [];

/// The flags of `concord`: there are none.
pub const CONCORD_FLAGS: [&str; 0] = [];

/// The options of `sim` with a number of 32 bits.
pub const SIM_NUMBERS: [(&str, Numbers); 5] = [PAGES, LIMIT, SCANNERS, TURNS, STEPS];

/// The options of `sim` with a number of 64 bits, and no default.
pub const SIM_WIDE: [&str; 1] = [SEED];

/// The flags of `sim`.
pub const SIM_FLAGS: [&str; 4] = [ORDER, CYCLES, SNAP, DUMP];

/// The options of `audit` with a number of 32 bits.
pub const AUDIT_NUMBERS: [(&str, Numbers); 1] = [TURNS];

/// The options of `audit` with a number of 64 bits: there are none.
pub const AUDIT_WIDE: [&str; 0] = [];

/// The flags of `audit`: there are none.
pub const AUDIT_FLAGS: [&str; 0] = [];

/// How a program is run, whoever makes its steps, and what is told of its heap: the values of the
/// table's rows.
#[derive(Clone, Copy, Debug, PartialEq, Eq)]
pub struct RunOptions {
    pub pages: u32,
    pub limit: u32,
    pub scanners: u32,
    pub turns: u32,
    pub cycles: bool,
    pub snap: bool,
    pub dump: bool,
}

impl RunOptions {
    ghost use Rattle.std.specs.Prelude.{◌≡◌, IfSome};
    ghost use Rattle.clap.specs.Matches.{found_of};
    ghost use Rattle.clap.specs.Walk.{rows_of};
    ghost use Rattle.simple_commands.specs.Options.{HoldOptions};
    ghost use Rattle.ael_jobs.specs.Arguments.Options.{AreInRange, run_numbers, run_options_of, run_wide};
    ghost use Rattle.ael_jobs.specs.Runs.Simulation.{config};

    /// The options that were given, and the defaults of the others; none if fewer pages may come into use than are at first.
    pub fn given(matches: &ArgMatches) -> Option<RunOptions>
        requires { HoldOptions run_numbers run_wide (rows_of (found_of matches.now)) }
        ensures value { result ≡ run_options_of (rows_of (found_of matches.now)) }
        ensures range { IfSome result AreInRange }
    {
        let pages = number_of(matches, PAGES);
        let numbers = Numbers {
            default: pages,
            ..LIMIT.1
        };
        let limit = number_of(matches, (LIMIT.0, numbers));
        if limit < pages {
            return None;
        }
        Some(RunOptions {
            pages,
            limit,
            scanners: number_of(matches, SCANNERS),
            turns: number_of(matches, TURNS),
            cycles: is_given(matches, CYCLES),
            snap: is_given(matches, SNAP),
            dump: is_given(matches, DUMP),
        })
    }

    /// The heap and its workers.
    pub fn config(self) -> Config
        requires { AreInRange self }
        ensures { result ≡ config self }
    {
        Config {
            pages: self.pages,
            limit: self.limit,
            scanners: self.scanners as u8,
            snap: self.snap,
        }
    }
}

/// How a program is run by a schedule, and what is printed besides.
#[derive(Clone, Copy, Debug, PartialEq, Eq)]
pub struct SimOptions {
    pub run: RunOptions,
    pub steps: u32,
    pub seed: Option<u64>,
    pub order: bool,
}

impl SimOptions {
    ghost use Rattle.std.specs.Prelude.{◌≡◌, IfSome};
    ghost use Rattle.clap.specs.Matches.{found_of};
    ghost use Rattle.clap.specs.Walk.{rows_of};
    ghost use Rattle.simple_commands.specs.Options.{HoldOptions};
    ghost use Rattle.ael_jobs.specs.Arguments.Options.{AreInRange, sim_numbers, sim_options_of, sim_wide};

    /// The options that were given, and the defaults of the others, if there are such of a run.
    pub fn given(matches: &ArgMatches) -> Option<SimOptions>
        requires { HoldOptions sim_numbers sim_wide (rows_of (found_of matches.now)) }
        ensures value { result ≡ sim_options_of (rows_of (found_of matches.now)) }
        ensures range { IfSome result (λ options. AreInRange options.run) }
    {
        Some(SimOptions {
            run: RunOptions::given(matches)?,
            steps: number_of(matches, STEPS),
            seed: wide_number(matches, SEED),
            order: is_given(matches, ORDER),
        })
    }
}

/// How many workers make a concordance, and on how large a heap.
#[derive(Clone, Copy, Debug, PartialEq, Eq)]
pub struct ConcordOptions {
    pub workers: u32,
    pub pages: u32,
}

impl ConcordOptions {
    ghost use Rattle.std.specs.Prelude.{◌≡◌};
    ghost use Rattle.clap.specs.Matches.{found_of};
    ghost use Rattle.clap.specs.Walk.{rows_of};
    ghost use Rattle.simple_commands.specs.Options.{HoldOptions};
    ghost use Rattle.ael_jobs.specs.Arguments.Options.{AreConcordOptions, concord_numbers, concord_options_of, concord_wide};
    ghost use Rattle.ael_jobs.specs.Tasks.Concord.{concord_config};

    /// The options that were given, and the defaults of the others.
    pub fn given(matches: &ArgMatches) -> ConcordOptions
        requires { HoldOptions concord_numbers concord_wide (rows_of (found_of matches.now)) }
        ensures value { result ≡ concord_options_of (rows_of (found_of matches.now)) }
        ensures range { AreConcordOptions result }
    {
        ConcordOptions {
            workers: number_of(matches, WORKERS),
            pages: number_of(matches, PAGES),
        }
    }

    /// The heap, with one scanner.
    pub fn config(self) -> Config
        ensures { result ≡ concord_config self }
    {
        Config {
            pages: self.pages,
            limit: self.pages,
            scanners: 1,
            snap: false,
        }
    }
}

/// How many instructions a mutator might execute in the run whose output is audited.
#[derive(Clone, Copy, Debug, PartialEq, Eq)]
pub struct AuditOptions {
    pub turns: u32,
}

impl AuditOptions {
    ghost use Rattle.std.specs.Prelude.{◌≡◌};
    ghost use Rattle.clap.specs.Matches.{found_of};
    ghost use Rattle.clap.specs.Walk.{rows_of};
    ghost use Rattle.simple_commands.specs.Options.{HoldOptions};
    ghost use Rattle.ael_jobs.specs.Arguments.Options.{AreAuditOptions, audit_numbers, audit_options_of, audit_wide};

    /// The option that was given, or its default.
    pub fn given(matches: &ArgMatches) -> AuditOptions
        requires { HoldOptions audit_numbers audit_wide (rows_of (found_of matches.now)) }
        ensures value { result ≡ audit_options_of (rows_of (found_of matches.now)) }
        ensures range { AreAuditOptions result }
    {
        AuditOptions {
            turns: number_of(matches, TURNS),
        }
    }
}
