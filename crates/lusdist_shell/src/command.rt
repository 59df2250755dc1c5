//! The commands.

ghost use Rattle.std.specs.Prelude.{◌≡◌, IfOk, false};
ghost use Rattle.clap.specs.Words.{app_of};
ghost use Rattle.clap.specs.Simple.{new_app};
ghost use Rattle.clap.specs.declared.builder.command.Command.TheViews.{out-Command};
ghost use Rattle.lusdist_shell.specs.CommandLine.{bare, lusdist};
ghost use Rattle.lusdist_shell.specs.Arguments.{HasTasks, app_in};

use crate::argument::{Argument, argument_of};
use clap::Command;
use std::alloc::{AllocError, Global};

/// The version that `--version` prints.
const VERSION: &str = "0.1.0";

/// The greatest seed of random turns.
const GREATEST_SEED: u64 = 4_294_967_295;

/// The most random turns: as many as the longest schedule has.
const MOST_TURNS: u64 = 67_108_864;

/// What the exit statuses mean, which stands at the end of each help.
const STATUSES: &str = "Exit status:
  0  the answer is printed; where a site of a replay faulted, the answer says so
  1  a text is refused
  2  a mistake on the command line, or a file that can't be read
  3  a fault of an evaluation or a run, an output of --always that is false,
     memory ran out, a thread can't be started, or the output can't be written";

/// A command: its name, what it does, and its arguments.
#[derive(Clone, Copy)]
pub struct Task<'a> {
    pub name: &'a str,
    pub about: &'a str,
    pub arguments: &'a [Argument<'a>],
}

/// The path of the program.
const PROGRAM: Argument<'static> = Argument::Path {
    name: "PROGRAM",
    help: "The program, in Lustre",
};

/// The path of the table.
const TABLE: Argument<'static> = Argument::Path {
    name: "TABLE",
    help: "The table of inputs, in CSV: a line of their names, and a line for each instant",
};

/// The path of the placement.
const PLACE: Argument<'static> = Argument::Path {
    name: "PLACE",
    help: "The placement, in TOML: the sites, how much a link holds, and each variable's sites",
};

/// The path of the schedule, which is left out where the turns are random.
const SCHEDULE: Argument<'static> = Argument::Optional {
    name: "SCHEDULE",
    help: "The turns in their order: 0 to 9 and a to f stand for the sites 0 to 15; left out with --random",
};

/// The seed of random turns.
const RANDOM: Argument<'static> = Argument::Number {
    name: "random",
    value: "SEED",
    greatest: GREATEST_SEED,
    help: "Makes the turns at random, in place of SCHEDULE, the same for the same seed (0 to 4294967295); with --turns",
};

/// How many random turns there are.
const TURNS: Argument<'static> = Argument::Number {
    name: "turns",
    value: "N",
    greatest: MOST_TURNS,
    help: "How many random turns there are (0 to 67108864); with --random",
};

/// Whether a refusal is explained.
const EXPLAIN: Argument<'static> = Argument::Flag {
    name: "explain",
    help: "Where a text is refused, shows its line and says what is wrong and how to mend it",
};

/// The same of a replay, and whether it says why its sites stand still.
const EXPLAIN_SITES: Argument<'static> = Argument::Flag {
    name: "explain",
    help: "Where a text is refused, shows its line and says what is wrong and how to mend it; else says for each open site what it waits for",
};

/// Whether a refusal is reported in one line.
const SHORT: Argument<'static> = Argument::Flag {
    name: "short",
    help: "Where a text is refused, says in one line where and what is wrong, as compilers do, also beside --explain",
};

/// Whether a check reports all faults.
const EACH: Argument<'static> = Argument::Flag {
    name: "all",
    help: "Tells all faults of the first stage that has any, a line each, and how many there are",
};

/// Whether warnings are reported.
const WARN: Argument<'static> = Argument::Flag {
    name: "warn",
    help: "Tells on the error stream what is allowed and may be a mistake, a line each",
};

/// Whether an evaluation reports all main variables.
const ALL: Argument<'static> = Argument::Flag {
    name: "all",
    help: "Prints all variables of the main node in place of its outputs alone",
};

/// Whether an evaluation reports the variables of all instances.
const DEEP: Argument<'static> = Argument::Flag {
    name: "deep",
    help: "The same as --all, and the variables of all instances of called nodes, by their paths",
};

/// Whether the table of an evaluation has its columns aligned.
const ALIGNED: Argument<'static> = Argument::Flag {
    name: "text",
    help: "Prints the table for a terminal, with blanks in place of commas and its columns aligned",
};

/// Whether an evaluation is reported as a chart.
const CHRONOGRAM: Argument<'static> = Argument::Flag {
    name: "chronogram",
    help: "Prints a chart over time in place of the table: a row for each flow, a column for each instant",
};

/// The first instant of a chart.
const FROM: Argument<'static> = Argument::Instant {
    name: "from",
    help: "The first instant of the chart, counted from 0 [default: 0]",
};

/// The last instant of a chart.
const TO: Argument<'static> = Argument::Instant {
    name: "to",
    help: "The last instant of the chart, counted from 0 [default: the table's last]",
};

/// The file that a dump of what an evaluation shows goes into.
const SHOWN_VCD: Argument<'static> = Argument::Vcd {
    help: "Writes the same variables over time into FILE too, as a value change dump for viewers of waves",
};

/// The file that a dump of outputs by site goes into.
const SITE_VCD: Argument<'static> = Argument::Vcd {
    help: "Writes the outputs over time into FILE too, as a value change dump with the sites as scopes",
};

/// Whether a plan is reported as a table.
const TEXT: Argument<'static> = Argument::Flag {
    name: "text",
    help: "Prints a table for a terminal in place of the report",
};

/// Whether a plan is reported as a graph.
const DOT: Argument<'static> = Argument::Flag {
    name: "dot",
    help: "Prints a graph for Graphviz in place of the report, also beside --text",
};

/// Whether a replay goes on until no turn moves.
const FINISH: Argument<'static> = Argument::Flag {
    name: "finish",
    help: "Goes on after the schedule until no site can do anything more",
};

/// Whether a replay says what each turn did.
const TRACE: Argument<'static> = Argument::Flag {
    name: "trace",
    help: "Tells on the error stream what each turn did that moved, a line each",
};

/// Whether a replay draws what each turn did.
const CHART: Argument<'static> = Argument::Flag {
    name: "chart",
    help: "Draws the same there: a column for each site, a row for each turn, also beside --trace",
};

/// Whether a replay says of its turns only those that pass a message.
const MESSAGES: Argument<'static> = Argument::Flag {
    name: "messages",
    help: "Beside --trace or --chart: only the turns that put or take a message",
};

/// Whether a replay says of its turns those too that didn't move.
const BLOCKED: Argument<'static> = Argument::Flag {
    name: "blocked",
    help: "Beside --trace or --chart: also the turns that found no room or no message",
};

/// The first instant of the slowest site at which turns are told.
const FROM_TURNS: Argument<'static> = Argument::Instant {
    name: "from",
    help: "Beside --trace or --chart: only turns from where the slowest site stands at instant T, counted from 0",
};

/// The last one.
const TO_TURNS: Argument<'static> = Argument::Instant {
    name: "to",
    help: "Beside --trace or --chart: only turns up to where the slowest site stands at instant T",
};

/// Whether a run says how far it has come.
const PROGRESS: Argument<'static> = Argument::Flag {
    name: "progress",
    help: "Tells on the error stream how many instants the slowest site has done, at most twice a second",
};

/// Whether a run goes item by item.
const ITEMS: Argument<'static> = Argument::Flag {
    name: "items",
    help: "Passes values one by one, also where the sites could work in blocks of instants",
};

/// Whether a run says what its sites and links did.
const STATS: Argument<'static> = Argument::Flag {
    name: "stats",
    help: "Tells on the error stream what the sites and the links did: messages, waits, and how full links were",
};

/// All commands, in the order in which help lists them.
const TASKS: [Task<'static>; 7] = [
    Task {
        name: "check",
        about: "Judges a program by all rules and prints its canonical text",
        arguments: &[Argument::Main, EXPLAIN, SHORT, EACH, WARN, PROGRAM],
    },
    Task {
        name: "eval",
        about: "Evaluates a program at a table of inputs and prints the table of its outputs",
        arguments: &[
            Argument::Main,
            EXPLAIN,
            SHORT,
            ALL,
            DEEP,
            ALIGNED,
            CHRONOGRAM,
            FROM,
            TO,
            SHOWN_VCD,
            Argument::Always,
            PROGRAM,
            TABLE,
        ],
    },
    Task {
        name: "new",
        about: "Prints what a design begins with: a placement of all variables at one site, or a table of inputs",
        arguments: &[Argument::Main, EXPLAIN, SHORT, Argument::Instants, PROGRAM],
    },
    Task {
        name: "plan",
        about: "Plans a program at several sites and prints where each variable stands, and all links",
        arguments: &[
            Argument::Main,
            EXPLAIN,
            SHORT,
            WARN,
            TEXT,
            DOT,
            PROGRAM,
            PLACE,
        ],
    },
    Task {
        name: "replay",
        about: "Runs a program at several sites, turn by turn, and prints links, sites and outputs",
        arguments: &[
            Argument::Main,
            EXPLAIN_SITES,
            SHORT,
            RANDOM,
            TURNS,
            FINISH,
            TRACE,
            CHART,
            MESSAGES,
            BLOCKED,
            FROM_TURNS,
            TO_TURNS,
            SITE_VCD,
            Argument::Always,
            PROGRAM,
            PLACE,
            TABLE,
            SCHEDULE,
        ],
    },
    Task {
        name: "run",
        about: "Runs a program at several sites, on threads, and prints the table of its outputs",
        arguments: &[
            Argument::Main,
            EXPLAIN,
            SHORT,
            Argument::Workers,
            PROGRESS,
            ITEMS,
            STATS,
            SITE_VCD,
            Argument::Always,
            PROGRAM,
            PLACE,
            TABLE,
        ],
    },
    Task {
        name: "explain",
        about: "Explains the code of a refusal or a fault: the rule, a text that breaks it, and the same mended",
        arguments: &[Argument::Code],
    },
];

/// A command with no arguments yet.
fn named<'a>(alloc: Global, name: &'a str, about: &'a str) -> Command<'a>
    ensures app { app_of result ≡ new_app name.entry.now }
    ensures local { (out-Command result).has_globals ≡ false }
{
    Command::new(alloc, name).about(about).after_help(STATUSES)
}

/// A command with all its arguments.
fn command_of<'a>(alloc: Global, task: &Task<'a>) -> Result<Command<'a>, AllocError>
    ensures app { IfOk result (λ c. app_of c ≡ app_in task.now) }
    ensures local { IfOk result (λ c. (out-Command c).has_globals ≡ false) }
{
    let mut command = named(alloc, task.name, task.about);
    for argument in task.arguments {
        command = command.arg(argument_of(alloc, *argument))?;
    }
    Ok(command)
}

/// The command line without its commands.
fn bare<'a>(alloc: Global) -> Result<Command<'a>, AllocError>
    ensures { IfOk result (λ c. app_of c ≡ bare) }
{
    let about = "Spreads one Lustre program over several sites";
    named(alloc, "lusdist", about)
        .version(VERSION)
        .subcommand_required(true)
        .bin_name("lusdist")
}

/// A command line with these commands more.
fn with_tasks<'a>(
    alloc: Global,
    mut top: Command<'a>,
    tasks: &[Task<'a>],
) -> Result<Command<'a>, AllocError>
    ensures { IfOk result (λ c. HasTasks (app_of top.entry) tasks.now (app_of c)) }
{
    for task in tasks {
        top = top.subcommand(command_of(alloc, task)?)?;
    }
    Ok(top)
}

/// The whole command line. Help calls the program `lusdist`, whatever its file is called.
pub fn lusdist<'a>(alloc: Global) -> Result<Command<'a>, AllocError>
    ensures { IfOk result (λ c. app_of c ≡ lusdist) }
{
    with_tasks(alloc, bare(alloc)?, &TASKS)
}
