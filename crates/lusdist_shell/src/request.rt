//! What the command line asks for.

ghost use Rattle.std.specs.Prelude.{◌≡◌, IfOk, IfErr, map, option_map, true, string_bytes, codes, Some};
ghost use Rattle.clap.specs.Words.{kind_of, takes, found_of, first_of, rows_of, subcommand_of, subcommand_rows_of, FailsBy, fault_of};
ghost use Rattle.clap.specs.declared.error.kind.ErrorKind.TheVariants.{OutOfMemory};
ghost use Rattle.lusdist_shell.specs.CommandLine.{lusdist};
ghost use Rattle.lusdist_shell.specs.Request.{text_in, is_given, form_in, turns_in, IsCommand, IsCheckIn, IsEvalIn, IsNewIn, IsPlanIn, IsReplayIn, IsRunIn, IsExplainIn, IsInstantIn, IsNumberIn, IsSourceIn, source_of, schedule_file, AreInstantsIn, IsFoundIn, texts_in};
ghost use Rattle.clap.specs.Walk.{texts};

use crate::command::lusdist;
use clap::{ArgMatches, Error};
use std::alloc::Global;

/// What a check is asked of.
#[derive(Clone, Copy)]
pub struct CheckRequest<'a> {
    /// The name of the main node.
    pub main: &'a str,
    /// Whether a refusal is explained.
    pub explain: bool,
    /// Whether a refusal is reported in one line, with its place.
    pub short: bool,
    /// Whether all faults of the first stage that has any are reported, and not the first alone.
    pub all: bool,
    /// Whether warnings are reported on the error stream.
    pub warn: bool,
    /// The path of the program.
    pub program: &'a str,
}

/// What an evaluation is asked of.
#[derive(Clone, Copy)]
pub struct EvalRequest<'a> {
    /// The name of the main node.
    pub main: &'a str,
    /// Whether a refusal is explained.
    pub explain: bool,
    /// Whether a refusal is reported in one line, with its place.
    pub short: bool,
    /// The path of the program.
    pub program: &'a str,
    /// The path of the input table.
    pub table: &'a str,
    /// Whether all main variables are reported, and not the outputs alone.
    pub all: bool,
    /// Whether the variables of all instances of called nodes are reported too.
    pub deep: bool,
    /// Whether they are reported as a chart.
    pub chronogram: bool,
    /// The first instant of the chart, counted from 0, where it is given.
    pub from: Option<u32>,
    /// The last instant of the chart, counted from 0, where it is given.
    pub to: Option<u32>,
    /// The path of the file that a dump goes into, where one is asked for.
    pub vcd: Option<&'a str>,
    /// Whether the columns of the table are aligned.
    pub aligned: bool,
    /// The names of the outputs that are observed, in the order of the words.
    pub always: &'a [&'a str],
}

/// Of what the beginning of a design is asked.
#[derive(Clone, Copy)]
pub struct NewRequest<'a> {
    /// The name of the main node.
    pub main: &'a str,
    /// Whether a refusal is explained.
    pub explain: bool,
    /// Whether a refusal is reported in one line, with its place.
    pub short: bool,
    /// The path of the program.
    pub program: &'a str,
    /// How many instants the table of inputs has, where one is asked for in place of the placement.
    pub table: Option<u32>,
}

/// How a plan is reported.
#[derive(Clone, Copy)]
pub enum PlanForm {
    /// As the report, for other programs.
    Report,
    /// As a table, for a terminal.
    Table,
    /// As a graph, for Graphviz.
    Graph,
}

/// What a plan is asked of.
#[derive(Clone, Copy)]
pub struct PlanRequest<'a> {
    /// The name of the main node.
    pub main: &'a str,
    /// Whether a refusal is explained.
    pub explain: bool,
    /// Whether a refusal is reported in one line, with its place.
    pub short: bool,
    /// Whether warnings are reported on the error stream.
    pub warn: bool,
    /// The path of the program.
    pub program: &'a str,
    /// The path of the placement.
    pub place: &'a str,
    /// How the plan is reported.
    pub form: PlanForm,
}

/// What a replay reports of its turns on the error stream.
#[derive(Clone, Copy)]
pub enum TurnsForm {
    /// Nothing.
    Nothing,
    /// A line for each turn that moves.
    Lines,
    /// A chart: a column for each site, a row for each turn that moves.
    Chart,
}

/// Where the turns of a replay come from.
#[derive(Clone, Copy)]
pub enum TurnsSource<'a> {
    /// The schedule in the file at this path.
    File(&'a str),
    /// So many random turns, from a seed.
    Random { seed: u32, count: u32 },
    /// The words don't say: they give none of these, more than one, or a part of the second.
    Unclear,
}

impl<'a> TurnsSource<'a> {
    /// The path of the schedule's file, where there is one.
    pub fn file(self) -> Option<&'a str>
        ensures { option_map (λ s. s.now) result ≡ schedule_file self.entry }
    {
        match self {
            TurnsSource::File(path) => Some(path),
            _ => None,
        }
    }
}

/// What a replay is asked of.
#[derive(Clone, Copy)]
pub struct ReplayRequest<'a> {
    /// The name of the main node.
    pub main: &'a str,
    /// Whether a refusal is explained.
    pub explain: bool,
    /// Whether a refusal is reported in one line, with its place.
    pub short: bool,
    /// The path of the program.
    pub program: &'a str,
    /// The path of the placement.
    pub place: &'a str,
    /// The path of the input table.
    pub table: &'a str,
    /// Where its turns come from.
    pub source: TurnsSource<'a>,
    /// Whether it goes on after these turns until no turn moves.
    pub finish: bool,
    /// What is reported of its turns on the error stream.
    pub turns: TurnsForm,
    /// The path of the file that a dump of its outputs goes into, where one is asked for.
    pub vcd: Option<&'a str>,
    /// Whether of the turns that move those alone are reported that put or take a message.
    pub messages: bool,
    /// Whether the turns are reported too that found no room or no message.
    pub blocked: bool,
    /// The first instant and the last one, counted from 0, of the slowest site at which turns are reported,
    /// where one is given.
    pub from: Option<u32>,
    pub to: Option<u32>,
    /// The names of the outputs that are observed, in the order of the words.
    pub always: &'a [&'a str],
}

/// What a run is asked of.
#[derive(Clone, Copy)]
pub struct RunRequest<'a> {
    /// The name of the main node.
    pub main: &'a str,
    /// Whether a refusal is explained.
    pub explain: bool,
    /// Whether a refusal is reported in one line, with its place.
    pub short: bool,
    /// The path of the program.
    pub program: &'a str,
    /// The path of the placement.
    pub place: &'a str,
    /// The path of the input table.
    pub table: &'a str,
    /// How many threads serve the sites, as it is written, where it is given.
    pub workers: Option<&'a str>,
    /// Whether it is reported on the error stream how far the sites have come.
    pub progress: bool,
    /// Whether values are passed one by one, also where the sites could work in blocks.
    pub items: bool,
    /// Whether it is reported on the error stream what the sites and the links did.
    pub stats: bool,
    /// The path of the file that a dump of its outputs goes into, where one is asked for.
    pub vcd: Option<&'a str>,
    /// The names of the outputs that are observed, in the order of the words.
    pub always: &'a [&'a str],
}

/// What is to be explained.
#[derive(Clone, Copy)]
pub struct ExplainRequest<'a> {
    /// The code of a page, as it was written; where there is none, all codes are listed.
    pub code: Option<&'a str>,
}

/// What the command line asks for.
#[derive(Clone, Copy)]
pub enum Request<'a> {
    /// A check of a program.
    Check(CheckRequest<'a>),
    /// An evaluation of a program at a table.
    Eval(EvalRequest<'a>),
    /// A placement or a table of inputs, to begin with.
    New(NewRequest<'a>),
    /// A plan of a program at a placement.
    Plan(PlanRequest<'a>),
    /// A replay of these files.
    Replay(ReplayRequest<'a>),
    /// A run of these files on threads.
    Run(RunRequest<'a>),
    /// A page of the manual.
    Explain(ExplainRequest<'a>),
}

/// The text of an argument, which is empty where it has none.
fn text<'a>(matches: &ArgMatches<'a>, argument: &str) -> &'a str
    ensures { result.now ≡ text_in (rows_of (found_of matches.now)) argument.now }
{
    match matches.get_str(argument) {
        Some(text) => text,
        None => "",
    }
}

/// All texts of an argument, in the order of the words.
fn texts<'m, 'a: 'm>(matches: &'m ArgMatches<'a>, argument: &str) -> &'m [&'m str]
    ensures { texts result.now ≡ texts_in (rows_of (found_of matches.now)) argument.now }
{
    let Some(found) = matches.get_strs(argument) else {
        return &[];
    };
    found
}

/// What the matches of `check` ask for.
fn check_in<'a>(matches: &ArgMatches<'a>) -> CheckRequest<'a>
    ensures { IsCheckIn (Some (codes "check", rows_of (found_of matches.now))) result }
{
    CheckRequest {
        main: text(matches, "main"),
        explain: is_given(matches, "explain"),
        short: is_given(matches, "short"),
        all: is_given(matches, "all"),
        warn: is_given(matches, "warn"),
        program: text(matches, "PROGRAM"),
    }
}

/// Whether a flag is given.
fn is_given<'a>(matches: &ArgMatches<'a>, flag: &str) -> bool
    ensures { result ≡ is_given (rows_of (found_of matches.now)) flag.now }
{
    text(matches, flag) == "true"
}

/// The instant that a text spells.
fn instant_of(text: Option<&str>) -> Option<u32>
    ensures { IsInstantIn (option_map (λ s. s.now) text.entry) result }
{
    text?.parse::<u32>().ok()
}

/// The instant of an argument, where it is given.
fn instant_in<'a>(matches: &ArgMatches<'a>, argument: &str) -> Option<u32>
    ensures { IsInstantIn (first_of argument.now (rows_of (found_of matches.now))) result }
{
    instant_of(matches.get_str(argument))
}

/// The path of the file that a dump goes into, where it is given.
fn vcd_in<'a>(matches: &ArgMatches<'a>) -> Option<&'a str>
    ensures { option_map (λ s. s.now) result
        ≡ first_of (codes "vcd") (rows_of (found_of matches.now)) }
{
    matches.get_str("vcd")
}

/// How many threads serve the sites, as it is written, where it is given.
fn workers_in<'a>(matches: &ArgMatches<'a>) -> Option<&'a str>
    ensures { option_map (λ s. s.now) result
        ≡ first_of (codes "workers") (rows_of (found_of matches.now)) }
{
    matches.get_str("workers")
}

/// What the matches of `eval` ask for.
fn eval_in<'m, 'a: 'm>(matches: &'m ArgMatches<'a>) -> EvalRequest<'m>
    ensures { IsEvalIn (Some (codes "eval", rows_of (found_of matches.now))) result }
{
    EvalRequest {
        main: text(matches, "main"),
        explain: is_given(matches, "explain"),
        short: is_given(matches, "short"),
        program: text(matches, "PROGRAM"),
        table: text(matches, "TABLE"),
        all: is_given(matches, "all"),
        deep: is_given(matches, "deep"),
        chronogram: is_given(matches, "chronogram"),
        from: instant_in(matches, "from"),
        to: instant_in(matches, "to"),
        vcd: vcd_in(matches),
        aligned: is_given(matches, "text"),
        always: texts(matches, "always"),
    }
}

/// The number of instants that a text spells.
fn instants_of(text: Option<&str>) -> Option<u32>
    ensures { AreInstantsIn (option_map (λ s. s.now) text.entry) result }
{
    text?.parse::<u32>().ok()
}

/// The number of instants of a table, where it is given.
fn instants_in<'a>(matches: &ArgMatches<'a>) -> Option<u32>
    ensures { AreInstantsIn (first_of (codes "table") (rows_of (found_of matches.now))) result }
{
    instants_of(matches.get_str("table"))
}

/// What the matches of `new` ask for.
fn new_in<'a>(matches: &ArgMatches<'a>) -> NewRequest<'a>
    ensures { IsNewIn (Some (codes "new", rows_of (found_of matches.now))) result }
{
    NewRequest {
        main: text(matches, "main"),
        explain: is_given(matches, "explain"),
        short: is_given(matches, "short"),
        program: text(matches, "PROGRAM"),
        table: instants_in(matches),
    }
}

/// How the plan is to be reported: as a graph, even where a table is asked for too.
fn form_in<'a>(matches: &ArgMatches<'a>) -> PlanForm
    ensures { result ≡ form_in (rows_of (found_of matches.now)) }
{
    if is_given(matches, "dot") {
        PlanForm::Graph
    } else if is_given(matches, "text") {
        PlanForm::Table
    } else {
        PlanForm::Report
    }
}

/// What the matches of `plan` ask for.
fn plan_in<'a>(matches: &ArgMatches<'a>) -> PlanRequest<'a>
    ensures { IsPlanIn (Some (codes "plan", rows_of (found_of matches.now))) result }
{
    PlanRequest {
        main: text(matches, "main"),
        explain: is_given(matches, "explain"),
        short: is_given(matches, "short"),
        warn: is_given(matches, "warn"),
        program: text(matches, "PROGRAM"),
        place: text(matches, "PLACE"),
        form: form_in(matches),
    }
}

/// How the turns are to be reported: as a chart, even where lines are asked for too.
fn turns_in<'a>(matches: &ArgMatches<'a>) -> TurnsForm
    ensures { result ≡ turns_in (rows_of (found_of matches.now)) }
{
    if is_given(matches, "chart") {
        TurnsForm::Chart
    } else if is_given(matches, "trace") {
        TurnsForm::Lines
    } else {
        TurnsForm::Nothing
    }
}

/// The number that a text spells.
fn number_of(text: Option<&str>) -> Option<u32>
    ensures { IsNumberIn (option_map (λ s. s.now) text.entry) result }
{
    text?.parse::<u32>().ok()
}

/// The number of an argument, where it is given.
fn number_in<'a>(matches: &ArgMatches<'a>, argument: &str) -> Option<u32>
    ensures { IsNumberIn (first_of argument.now (rows_of (found_of matches.now))) result }
{
    number_of(matches.get_str(argument))
}

/// The path of the schedule, where it is given.
fn schedule_in<'a>(matches: &ArgMatches<'a>) -> Option<&'a str>
    ensures { option_map (λ s. s.now) result
        ≡ first_of (codes "SCHEDULE") (rows_of (found_of matches.now)) }
{
    matches.get_str("SCHEDULE")
}

/// Where turns come from, by the path of a schedule, a seed and a number of turns.
fn source_of<'a>(
    schedule: Option<&'a str>,
    seed: Option<u32>,
    count: Option<u32>,
) -> TurnsSource<'a>
    ensures { result ≡ source_of schedule.entry seed count }
{
    match (schedule, seed, count) {
        (Some(path), None, None) => TurnsSource::File(path),
        (None, Some(seed), Some(count)) => TurnsSource::Random { seed, count },
        _ => TurnsSource::Unclear,
    }
}

/// Where the turns come from that the matches of `replay` ask for.
fn source_in<'a>(matches: &ArgMatches<'a>) -> TurnsSource<'a>
    ensures { IsSourceIn (rows_of (found_of matches.now)) result }
{
    source_of(
        schedule_in(matches),
        number_in(matches, "random"),
        number_in(matches, "turns"),
    )
}

/// What the matches of `replay` ask for.
fn replay_in<'m, 'a: 'm>(matches: &'m ArgMatches<'a>) -> ReplayRequest<'m>
    ensures { IsReplayIn (Some (codes "replay", rows_of (found_of matches.now))) result }
{
    ReplayRequest {
        main: text(matches, "main"),
        explain: is_given(matches, "explain"),
        short: is_given(matches, "short"),
        program: text(matches, "PROGRAM"),
        place: text(matches, "PLACE"),
        table: text(matches, "TABLE"),
        source: source_in(matches),
        finish: is_given(matches, "finish"),
        turns: turns_in(matches),
        vcd: vcd_in(matches),
        messages: is_given(matches, "messages"),
        blocked: is_given(matches, "blocked"),
        from: instant_in(matches, "from"),
        to: instant_in(matches, "to"),
        always: texts(matches, "always"),
    }
}

/// What the matches of `run` ask for.
fn run_in<'m, 'a: 'm>(matches: &'m ArgMatches<'a>) -> RunRequest<'m>
    ensures { IsRunIn (Some (codes "run", rows_of (found_of matches.now))) result }
{
    RunRequest {
        main: text(matches, "main"),
        explain: is_given(matches, "explain"),
        short: is_given(matches, "short"),
        program: text(matches, "PROGRAM"),
        place: text(matches, "PLACE"),
        table: text(matches, "TABLE"),
        workers: workers_in(matches),
        progress: is_given(matches, "progress"),
        items: is_given(matches, "items"),
        stats: is_given(matches, "stats"),
        vcd: vcd_in(matches),
        always: texts(matches, "always"),
    }
}

/// What the matches of `explain` ask for.
fn explain_in<'a>(matches: &ArgMatches<'a>) -> ExplainRequest<'a>
    ensures { IsExplainIn (Some (codes "explain", rows_of (found_of matches.now))) result }
{
    ExplainRequest {
        code: matches.get_str("CODE"),
    }
}

/// What the words of a command line ask for, of which these are the matches.
pub fn request_in<'m, 'a: 'm>(matches: &'m ArgMatches<'a>) -> Request<'m>
    requires { IsCommand (subcommand_rows_of matches.now) }
    ensures { IsFoundIn (subcommand_rows_of matches.now) result }
{
    let Some((name, found)) = matches.subcommand() else {
        unreachable!();
    };
    match name {
        "check" => Request::Check(check_in(found)),
        "eval" => Request::Eval(eval_in(found)),
        "new" => Request::New(new_in(found)),
        "plan" => Request::Plan(plan_in(found)),
        "replay" => Request::Replay(replay_in(found)),
        "run" => Request::Run(run_in(found)),
        _ => Request::Explain(explain_in(found)),
    }
}

/// Reads the words of the command line, the program's own name first: `request_in` says what they ask for.
/// What the parser says instead, help included, is shown by `put_mistake`.
pub fn parse<'a>(alloc: Global, words: &'a [String]) -> Result<ArgMatches<'a>, Error>
    ensures command { IfOk result (λ m. IsCommand (subcommand_rows_of m)) }
    ensures matches { IfOk result (λ m. subcommand_rows_of m
        ≡ subcommand_of lusdist (map string_bytes words.entry.now)) }

    // Words that the command line takes are refused only where memory ran out.
    ensures taken { IfErr result (λ e. takes lusdist (map string_bytes words.entry.now) ≡ true
        → kind_of e ≡ OutOfMemory) }

    // Other words are refused for what is wrong with them.
    ensures refused { FailsBy (fault_of lusdist (map string_bytes words.entry.now)) result }
{
    lusdist(alloc)?.try_get_matches_from(words)
}
