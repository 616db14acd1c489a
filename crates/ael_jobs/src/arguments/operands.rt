//! The operands of `bench`.

use crate::arguments::options::{RunOptions, SEED, STEPS, SimOptions, TURNS};
use benchmark::{key_count, seed_behind};
use clap::ArgMatches;
use simple_commands::{Numbers, number_of, wide_number};

/// The depth of the trees.
pub const DEPTH: (&str, Numbers) = (
    "depth",
    Numbers {
        least: 1,
        most: 9,
        default: 1,
    },
);

/// The pages of a space beside one for each key.
pub const SPARE_PAGES: u32 = 64;

/// The operand of `bench` with a number of 32 bits.
pub const BENCH_NUMBERS: [(&str, Numbers); 1] = [DEPTH];

/// The operand of `bench` with a number of 64 bits.
pub const BENCH_WIDE: [&str; 1] = [SEED];

/// Which benchmark is run.
#[derive(Clone, Copy, Debug, PartialEq, Eq)]
pub struct BenchOperands {
    /// The depth of the trees.
    pub depth: u32,
    /// What the keys and the order of steps are drawn from.
    pub seed: u64,
}

impl BenchOperands {
    ghost use Rattle.std.specs.Prelude.{◌≡◌};
    ghost use Rattle.clap.specs.Matches.{found_of};
    ghost use Rattle.clap.specs.Walk.{rows_of};
    ghost use Rattle.simple_commands.specs.Options.{HoldOptions};
    ghost use Rattle.ael_jobs.specs.Tasks.Bench.{bench_options};
    ghost use Rattle.ael_jobs.specs.Arguments.Options.{AreInRange, IsDepth, bench_numbers, bench_wide, operands_of};

    /// The operands that were given.
    pub fn given(matches: &ArgMatches) -> BenchOperands
        requires { HoldOptions bench_numbers bench_wide (rows_of (found_of matches.now)) }
        ensures value { result ≡ operands_of (rows_of (found_of matches.now)) }
        ensures range { IsDepth result.depth }
    {
        BenchOperands {
            depth: number_of(matches, DEPTH),
            seed: wide_number(matches, SEED).unwrap_or(0),
        }
    }

    /// How the benchmark is run.
    pub fn options(self) -> SimOptions
        requires { IsDepth self.depth }
        ensures value { result ≡ bench_options self }
        ensures range { AreInRange result.run }
    {
        let pages = SPARE_PAGES + key_count(self.depth);
        SimOptions {
            run: RunOptions {
                pages,
                limit: pages,
                scanners: 1,
                turns: TURNS.1.most,
                cycles: true,
                snap: false,
                dump: false,
            },
            steps: STEPS.1.most,
            seed: Some(seed_behind(self.seed)),
            order: false,
        }
    }
}
