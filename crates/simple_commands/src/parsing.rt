//! Words, parsed by a command.

ghost use Rattle.std.specs.Prelude.{◌≡◌, Err, IfOk, IfSome, IsTrue, OnOk, false, map, string_bytes, true};
ghost use Rattle.clap.specs.Simple.{app_of, subcommand_of, subcommand_rows_of};
ghost use Rattle.clap.specs.Takes.{takes};
ghost use Rattle.simple_commands.specs.Exact.{is_exact};
ghost use Rattle.simple_commands.specs.Held.{IsSubcommandOf};
ghost use Rattle.simple_commands.specs.declared.parsing.WordsError.TheVariants.{Refused};
ghost use Rattle.simple_commands.specs.Parsing.{error_for};

use clap::error::ErrorKind;
use clap::{ArgMatches, Command};

/// Why words were not parsed.
#[derive(Clone, Copy, Debug, PartialEq, Eq)]
pub enum WordsError {
    /// The command doesn't take them.
    Refused,
    /// There was no memory to parse them.
    NoMemory,
}

/// Parses words. They are refused exactly where the command does not take them; want of memory can
/// come at any words.
pub fn parse<'a>(command: Command<'a>, words: &'a [String]) -> Result<ArgMatches<'a>, WordsError>
    requires { IsTrue (is_exact (app_of command)) }
    ensures taken { OnOk result (takes (app_of command.entry) (map string_bytes words.entry.now) ≡ true) }
    ensures subcommand { IfOk result (λ m. subcommand_rows_of m ≡ subcommand_of (app_of command.entry) (map string_bytes words.entry.now)) }
    ensures values { IfOk result (λ m. IfSome (subcommand_rows_of m) (IsSubcommandOf (app_of command.entry))) }
    ensures refused { result ≡ Err Refused → takes (app_of command.entry) (map string_bytes words.entry.now) ≡ false }
{
    match command.try_get_matches_from(words) {
        Ok(matches) => Ok(matches),
        Err(error) => Err(error_of(error.kind())),
    }
}

/// Why words were not parsed, by the kind of `clap`'s error.
fn error_of(kind: ErrorKind) -> WordsError
    ensures { result ≡ error_for kind }
{
    match kind {
        ErrorKind::OutOfMemory => WordsError::NoMemory,
        _ => WordsError::Refused,
    }
}
