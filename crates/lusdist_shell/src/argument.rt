//! The arguments of the commands.

ghost use Rattle.std.specs.Prelude.{◌≡◌, false};
ghost use Rattle.clap.specs.Words.{rule_of};
ghost use Rattle.lusdist_shell.specs.CommandLine.{path_rule, main_rule, flag_rule, instant_rule, vcd_rule, workers_rule, code_rule, always_rule, table_rule, optional_rule, number_rule};
ghost use Rattle.lusdist_shell.specs.Arguments.{rule_in};

use clap::builder::ValueParser;
use clap::{Arg, ArgAction};
use lubase::limits::MOST_INSTANTS;
use std::alloc::Global;

/// The last instant that a table may have.
const LAST_INSTANT: u64 = 999_999;

/// An argument of a command: what it is, and its name and its help where they aren't always the same.
#[derive(Clone, Copy)]
pub enum Argument<'a> {
    /// The name of the main node.
    Main,
    /// A path that must be given.
    Path {
        name: &'a str,
        help: &'a str,
    },
    /// A path that may be left out.
    Optional {
        name: &'a str,
        help: &'a str,
    },
    /// A flag, which is given or not.
    Flag {
        name: &'a str,
        help: &'a str,
    },
    /// An instant of a chart.
    Instant {
        name: &'a str,
        help: &'a str,
    },
    /// A number, from 0 to a greatest one.
    Number {
        name: &'a str,
        value: &'a str,
        greatest: u64,
        help: &'a str,
    },
    /// The file that a dump goes into.
    Vcd {
        help: &'a str,
    },
    /// How many threads serve the sites.
    Workers,
    /// The code of a page, which may be left out.
    Code,
    /// The name of an output that is observed.
    Always,
    /// How many instants a table of inputs has.
    Instants,
}

/// A path that must be given.
fn path<'a>(alloc: Global, name: &'a str, help: &'a str) -> Arg<'a>
    ensures rule { rule_of result ≡ path_rule name.entry.now }
    ensures local { result.global ≡ false }
{
    Arg::new(alloc, name)
        .required(true)
        .action(ArgAction::Set)
        .help(help)
}

/// A path that may be left out.
fn optional<'a>(alloc: Global, name: &'a str, help: &'a str) -> Arg<'a>
    ensures rule { rule_of result ≡ optional_rule name.entry.now }
    ensures local { result.global ≡ false }
{
    Arg::new(alloc, name).action(ArgAction::Set).help(help)
}

/// The name of the main node.
fn main_name<'a>(alloc: Global) -> Arg<'a>
    ensures rule { rule_of result ≡ main_rule }
    ensures local { result.global ≡ false }
{
    Arg::new(alloc, "main")
        .long("main")
        .value_name("NAME")
        .default_value("main")
        .help("The name of the main node")
}

/// A flag, which is given or not.
fn flag<'a>(alloc: Global, name: &'a str, help: &'a str) -> Arg<'a>
    ensures rule { rule_of result ≡ flag_rule name.entry.now }
    ensures local { result.global ≡ false }
{
    Arg::new(alloc, name)
        .long(name)
        .action(ArgAction::SetTrue)
        .help(help)
}

/// An instant of a chart.
fn instant<'a>(alloc: Global, name: &'a str, help: &'a str) -> Arg<'a>
    ensures rule { rule_of result ≡ instant_rule name.entry.now }
    ensures local { result.global ≡ false }
{
    Arg::new(alloc, name)
        .long(name)
        .value_name("T")
        .value_parser(ValueParser::Unsigned(0, LAST_INSTANT))
        .help(help)
}

/// A number, from 0 to a greatest one.
fn number<'a>(alloc: Global, name: &'a str, value: &'a str, greatest: u64, help: &'a str) -> Arg<'a>
    ensures rule { rule_of result ≡ number_rule name.entry.now greatest }
    ensures local { result.global ≡ false }
{
    Arg::new(alloc, name)
        .long(name)
        .value_name(value)
        .value_parser(ValueParser::Unsigned(0, greatest))
        .help(help)
}

/// The file that a dump goes into.
fn vcd<'a>(alloc: Global, help: &'a str) -> Arg<'a>
    ensures rule { rule_of result ≡ vcd_rule }
    ensures local { result.global ≡ false }
{
    Arg::new(alloc, "vcd")
        .long("vcd")
        .value_name("FILE")
        .help(help)
}

/// How many threads serve the sites.
fn workers<'a>(alloc: Global) -> Arg<'a>
    ensures rule { rule_of result ≡ workers_rule }
    ensures local { result.global ≡ false }
{
    Arg::new(alloc, "workers")
        .long("workers")
        .value_name("W")
        .help(
            "How many threads serve the sites, 1 to 16, or auto for as many as are quickest; without it each site has its own",
        )
}

/// The code of a page, which may be left out.
fn code<'a>(alloc: Global) -> Arg<'a>
    ensures rule { rule_of result ≡ code_rule }
    ensures local { result.global ≡ false }
{
    Arg::new(alloc, "CODE")
        .action(ArgAction::Set)
        .help("The code, such as E20; without it all codes are listed")
}

/// The name of an output that is observed, which may be given more than once.
fn always<'a>(alloc: Global) -> Arg<'a>
    ensures rule { rule_of result ≡ always_rule }
    ensures local { result.global ≡ false }
{
    Arg::new(alloc, "always")
        .long("always")
        .value_name("NAME")
        .action(ArgAction::Append)
        .help(
            "Tells on the error stream the first instant at which this bool output is false, with status 3; may be given more than once",
        )
}

/// How many instants a table of inputs has.
fn instants<'a>(alloc: Global) -> Arg<'a>
    ensures rule { rule_of result ≡ table_rule }
    ensures local { result.global ≡ false }
{
    Arg::new(alloc, "table")
        .long("table")
        .value_name("N")
        .value_parser(ValueParser::Unsigned(0, MOST_INSTANTS as u64))
        .help(
            "Prints a table of inputs in place of the placement, with N instants, in which each input is 0, false, or the first name of its enumeration",
        )
}

/// An argument, as the parser takes it.
pub fn argument_of<'a>(alloc: Global, argument: Argument<'a>) -> Arg<'a>
    ensures rule { rule_of result ≡ rule_in argument.entry }
    ensures local { result.global ≡ false }
{
    match argument {
        Argument::Main => main_name(alloc),
        Argument::Path { name, help } => path(alloc, name, help),
        Argument::Optional { name, help } => optional(alloc, name, help),
        Argument::Flag { name, help } => flag(alloc, name, help),
        Argument::Instant { name, help } => instant(alloc, name, help),
        Argument::Number {
            name,
            value,
            greatest,
            help,
        } => number(alloc, name, value, greatest, help),
        Argument::Vcd { help } => vcd(alloc, help),
        Argument::Workers => workers(alloc),
        Argument::Code => code(alloc),
        Argument::Always => always(alloc),
        Argument::Instants => instants(alloc),
    }
}
