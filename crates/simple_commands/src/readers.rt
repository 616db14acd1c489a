//! Reading what was given.

ghost use Rattle.std.specs.Prelude.{◌≡◌, ◌<◌, ◌≤◌, ◌^◌, ℕ, false};
ghost use Rattle.std.specs.Option.{option_map_or};
ghost use Rattle.clap.specs.Matches.{found_of};
ghost use Rattle.clap.specs.Walk.{rows_of};
ghost use Rattle.simple_commands.specs.Readers.{HoldsNumber, HoldsUnsigned, IsReadable, is_command_line, number_of, number_or, was_given};

use clap::ArgMatches;
use clap::parser::ValueSource;

/// The number that was given for `--id`, or the default.
pub fn number(matches: &ArgMatches, id: &str, default: u32) -> u32
    requires { IsReadable id.now (rows_of (found_of matches.now)) }
    ensures value { result ≡ number_or default id.now (rows_of (found_of matches.now)) }
    ensures range { (least most : ℕ) → HoldsNumber least most id.now (rows_of (found_of matches.now))
        → most < 2 ^ 32 → least ≤ default → default ≤ most → (least ≤ result) × (result ≤ most) }
{
    matches.get_one::<u32>(id).unwrap_or(default)
}

/// The number of 64 bits that was given for `--id`, if one was.
pub fn wide_number(matches: &ArgMatches, id: &str) -> Option<u64>
    requires { HoldsUnsigned 18446744073709551615 id.now (rows_of (found_of matches.now)) }
    ensures { result ≡ number_of id.now (rows_of (found_of matches.now)) }
{
    matches.get_one::<u64>(id)
}

/// Whether `--id` stands among the words.
pub fn is_given(matches: &ArgMatches, id: &str) -> bool
    ensures { result ≡ was_given id.now (rows_of (found_of matches.now)) }
{
    is_from_words(matches.value_source(id))
}

/// Whether a value has its source in the words.
fn is_from_words(source: Option<ValueSource>) -> bool
    ensures { result ≡ option_map_or is_command_line source false }
{
    match source {
        Some(ValueSource::CommandLine) => true,
        Some(ValueSource::DefaultValue) | None => false,
    }
}
