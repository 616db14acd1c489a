//! Options, operands and flags, as rows of tables that both the command and its readers cite.

ghost use Rattle.std.specs.Prelude.{◌≡◌, ◌++◌, List, [], ◌∷◌, IfOk, false, map, pos};
ghost use Rattle.clap.specs.Matches.{found_of};
ghost use Rattle.clap.specs.Simple.{App};
ghost use Rattle.clap.specs.Walk.{Rule, rows_of, texts};
ghost use Rattle.clap.specs.Words.{app_of, rule_of};
ghost use Rattle.clap.specs.declared.builder.Command.TheViews.{out-Command};
ghost use Rattle.clap.specs.declared.builder.value_parser.ValueParser.TheVariants as vp;
ghost use Rattle.simple_commands.specs.Options.{flag_rule, number_given, number_operand, number_rule, operand_rule, operand_rules_of, row_of, rules_of, value_rule, wide_operand, wide_rule, with_rules, HoldsNumberOf, IsAmongNumbers};

use crate::readers::number;
use clap::builder::ValueParser;
use clap::{Arg, ArgAction, ArgMatches, Command};
use std::alloc::{AllocError, Global};

/// The numbers that an option or an operand may have, and the one that it has if it isn't given.
#[derive(Clone, Copy, Debug)]
pub struct Numbers {
    pub least: u32,
    pub most: u32,
    pub default: u32,
}

/// The number that was given for an option or an operand, or the default.
pub fn number_of(matches: &ArgMatches, option: (&str, Numbers)) -> u32
    requires { HoldsNumberOf (row_of option) (rows_of (found_of matches.now)) }
    ensures value { result ≡ number_given (row_of option.entry) (rows_of (found_of matches.now)) }
    ensures range { IsAmongNumbers option.entry.1 option.entry.1.default → IsAmongNumbers option.entry.1 result }
{
    number(matches, option.0, option.1.default)
}

/// An option `--id` with one value.
fn value_option<'a>(alloc: Global, id: &'a str, parser: ValueParser<'a>) -> Arg<'a>
    ensures rule { rule_of result ≡ value_rule id.entry.now parser.entry }
    ensures local { result.global ≡ false }
{
    Arg::new(alloc, id)
        .long(id)
        .action(ArgAction::Set)
        .value_parser(parser)
}

/// Takes one of some numbers.
fn number_parser<'a>(numbers: Numbers) -> ValueParser<'a>
    ensures { result ≡ vp.Signed (pos numbers.least) (pos numbers.most) }
{
    ValueParser::Signed(numbers.least.into(), numbers.most.into())
}

/// Takes any number of 64 bits.
fn wide_parser<'a>() -> ValueParser<'a>
    ensures { result ≡ vp.Unsigned 0 18446744073709551615 }
{
    ValueParser::Unsigned(0, u64::MAX)
}

/// An option with one of some numbers.
fn number_option<'a>(alloc: Global, option: (&'a str, Numbers)) -> Arg<'a>
    ensures rule { rule_of result ≡ number_rule (row_of option.entry) }
    ensures local { result.global ≡ false }
{
    value_option(alloc, option.0, number_parser(option.1))
}

/// An option with any number of 64 bits.
fn wide_option<'a>(alloc: Global, name: &'a str) -> Arg<'a>
    ensures rule { rule_of result ≡ wide_rule name.entry.now }
    ensures local { result.global ≡ false }
{
    value_option(alloc, name, wide_parser())
}

/// An operand, which has to be there.
fn operand<'a>(alloc: Global, id: &'a str, parser: ValueParser<'a>) -> Arg<'a>
    ensures rule { rule_of result ≡ operand_rule id.entry.now parser.entry }
    ensures local { result.global ≡ false }
{
    Arg::new(alloc, id)
        .action(ArgAction::Set)
        .value_parser(parser)
        .required(true)
}

/// An operand that is one of some numbers.
fn number_operand<'a>(alloc: Global, row: (&'a str, Numbers)) -> Arg<'a>
    ensures rule { rule_of result ≡ number_operand (row_of row.entry) }
    ensures local { result.global ≡ false }
{
    operand(alloc, row.0, number_parser(row.1))
}

/// An operand that is any number of 64 bits.
fn wide_operand<'a>(alloc: Global, name: &'a str) -> Arg<'a>
    ensures rule { rule_of result ≡ wide_operand name.entry.now }
    ensures local { result.global ≡ false }
{
    operand(alloc, name, wide_parser())
}

/// A flag `--id`.
fn flag<'a>(alloc: Global, name: &'a str) -> Arg<'a>
    ensures rule { rule_of result ≡ flag_rule name.entry.now }
    ensures local { result.global ≡ false }
{
    Arg::new(alloc, name).long(name).action(ArgAction::SetTrue)
}

/// Adds an argument to a command, unless one before it could not be added.
fn add<'a>(
    command: Result<Command<'a>, AllocError>,
    arg: Arg<'a>,
) -> Result<Command<'a>, AllocError>
    requires command { IfOk command (λ r. (out-Command r).has_globals ≡ false) }
    requires arg { arg.global ≡ false }
    ensures app { (a : App) (rules : List Rule) → IfOk command.entry (λ r. app_of r ≡ with_rules a rules)
        → IfOk result (λ r. app_of r ≡ with_rules a (rules ++ rule_of arg.entry ∷ [])) }
    ensures local { IfOk result (λ r. (out-Command r).has_globals ≡ false) }
{
    command?.arg(arg)
}

/// Adds the options and flags of tables to a command.
pub fn add_options<'a>(
    alloc: Global,
    command: Command<'a>,
    numbers: &[(&'a str, Numbers)],
    wide: &[&'a str],
    flags: &[&'a str],
) -> Result<Command<'a>, AllocError>
    requires { (out-Command command).has_globals ≡ false }
    ensures app { IfOk result (λ r. app_of r ≡ with_rules (app_of command.entry) (rules_of (map row_of numbers.now) (texts wide.now) (texts flags.now))) }
    ensures local { IfOk result (λ r. (out-Command r).has_globals ≡ false) }
{
    let mut command = Ok(command);
    for option in numbers {
        command = add(command, number_option(alloc, *option));
    }
    for name in wide {
        command = add(command, wide_option(alloc, name));
    }
    for flag_name in flags {
        command = add(command, flag(alloc, flag_name));
    }
    command
}

/// Adds the operands of tables to a command. Their words stand in this order.
pub fn add_operands<'a>(
    alloc: Global,
    command: Command<'a>,
    numbers: &[(&'a str, Numbers)],
    wide: &[&'a str],
) -> Result<Command<'a>, AllocError>
    requires { (out-Command command).has_globals ≡ false }
    ensures app { IfOk result (λ r. app_of r ≡ with_rules (app_of command.entry) (operand_rules_of (map row_of numbers.now) (texts wide.now))) }
    ensures local { IfOk result (λ r. (out-Command r).has_globals ≡ false) }
{
    let mut command = Ok(command);
    for row in numbers {
        command = add(command, number_operand(alloc, *row));
    }
    for name in wide {
        command = add(command, wide_operand(alloc, name));
    }
    command
}
