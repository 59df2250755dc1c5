//! What is wrong with words that the command line takes.

ghost use Rattle.std.specs.Prelude.{◌≡◌};
ghost use Rattle.lusdist_call.specs.Mistakes.{chartless, unordered, backwards, charted, cut_mistake, mistake_in, replay_mistake, run_mistake, turnless, turns_mistake};

use crate::role::Role;
use crate::workers::workers_in;
use lubase::Name;
use lusdist_shell::{EvalRequest, ReplayRequest, RunRequest, TurnsForm, TurnsSource};
use std::fmt;
use thiserror::Error;

/// What is wrong with words that the command line takes. What it displays is a line, without the line feed
/// that ends it.
#[derive(Debug, Drop, Error)]
pub enum Mistake {
    /// No page has this code.
    UnknownCode { code: Name },
    /// Instants are given for a chart that isn't asked for.
    NoChart,
    /// The first instant of a chart, or of turns, is after the last. Both are counted from 0.
    Backwards { from: u32, to: u32 },
    /// A dump would be written over a file of the call: its path, and what that file is to the call.
    Overwritten { path: Name, role: Role },
    /// A table and a chart are asked for at once.
    TwoForms,
    /// What is to be observed is no bool output of the main node.
    Unobserved { name: Name },
    /// It isn't said where the turns of a replay come from: from a schedule, or from a seed and a number of
    /// turns.
    UnclearTurns,
    /// Instants are given for turns of a replay of which none are reported.
    NoTurns,
    /// The word for the workers of a run names none.
    UnclearWorkers,
}

impl fmt::Display for Mistake {
    ghost use Rattle.std.specs.Prelude.{Some};
    ghost use Rattle.lusdist_call.specs.Mistakes.{line_of};

    ghost output = { λ mistake. Some (line_of mistake) };

    fn fmt<W: fmt::Write>(&self, f: &mut fmt::Formatter<W>) -> fmt::Result {
        match self {
            Mistake::UnknownCode { code } => write!(
                f,
                "error: no page has the code {}",
                code.as_str()
            ),
            Mistake::NoChart => f.write_str("error: --from and --to need --chronogram"),
            Mistake::Backwards { from, to } => write!(f, "error: --from {from} is after --to {to}"),
            Mistake::Overwritten { path, role } => write!(
                f,
                "error: --vcd {} is the {role} of this call",
                path.as_str()
            ),
            Mistake::TwoForms => f.write_str("error: --text and --chronogram ask for two forms"),
            Mistake::Unobserved { name } => write!(
                f,
                "error: --always {} is no bool output of the main node",
                name.as_str()
            ),
            Mistake::NoTurns => f.write_str("error: --from and --to need --trace or --chart"),
            Mistake::UnclearWorkers => {
                f.write_str("error: --workers takes a number from 1 to 16, or auto")
            }
            Mistake::UnclearTurns => f.write_str(
                "error: the turns are those of SCHEDULE, or random by --random and --turns",
            ),
        }
    }
}

/// What is wrong with instants that are given where no chart is asked for.
fn chartless(from: Option<u32>, to: Option<u32>) -> Option<Mistake>
    ensures { result ≡ chartless from to }
{
    match from {
        Some(_) => Some(Mistake::NoChart),
        None => match to {
            Some(_) => Some(Mistake::NoChart),
            None => None,
        },
    }
}

/// What is wrong with the first and the last instant of a chart.
fn unordered(from: u32, to: u32) -> Option<Mistake>
    ensures { result ≡ unordered from to }
{
    if to < from {
        Some(Mistake::Backwards { from, to })
    } else {
        None
    }
}

/// What is wrong with the instants of a chart.
fn backwards(from: Option<u32>, to: Option<u32>) -> Option<Mistake>
    ensures { result ≡ backwards from to }
{
    match from {
        None => None,
        Some(from) => match to {
            None => None,
            Some(to) => unordered(from, to),
        },
    }
}

/// What is wrong with what a chart is asked for, beside a table with aligned columns or alone.
fn charted(aligned: bool, from: Option<u32>, to: Option<u32>) -> Option<Mistake>
    ensures { result ≡ charted aligned from to }
{
    if aligned {
        Some(Mistake::TwoForms)
    } else {
        backwards(from, to)
    }
}

/// What is wrong with what an evaluation is asked for.
pub fn mistake_in(request: EvalRequest<'_>) -> Option<Mistake>
    ensures { result ≡ mistake_in request.entry }
{
    if request.chronogram {
        charted(request.aligned, request.from, request.to)
    } else {
        chartless(request.from, request.to)
    }
}

/// What is wrong with where the turns of a replay are to come from.
fn turns_mistake(source: TurnsSource<'_>) -> Option<Mistake>
    ensures { result ≡ turns_mistake source.entry }
{
    match source {
        TurnsSource::Unclear => Some(Mistake::UnclearTurns),
        _ => None,
    }
}

/// What is wrong with instants that are given where no turns are reported.
fn turnless(from: Option<u32>, to: Option<u32>) -> Option<Mistake>
    ensures { result ≡ turnless from to }
{
    match from {
        Some(_) => Some(Mistake::NoTurns),
        None => match to {
            Some(_) => Some(Mistake::NoTurns),
            None => None,
        },
    }
}

/// What is wrong with the instants that cut turns in this form.
fn cut_mistake(turns: TurnsForm, from: Option<u32>, to: Option<u32>) -> Option<Mistake>
    ensures { result ≡ cut_mistake turns from to }
{
    match turns {
        TurnsForm::Nothing => turnless(from, to),
        TurnsForm::Lines => backwards(from, to),
        TurnsForm::Chart => backwards(from, to),
    }
}

/// What is wrong with what a replay is asked for.
pub fn replay_mistake(request: ReplayRequest<'_>) -> Option<Mistake>
    ensures { result ≡ replay_mistake request.entry }
{
    match turns_mistake(request.source) {
        Some(mistake) => Some(mistake),
        None => cut_mistake(request.turns, request.from, request.to),
    }
}

/// What is wrong with what a run is asked for.
pub fn run_mistake(request: RunRequest<'_>) -> Option<Mistake>
    ensures { result ≡ run_mistake request.entry }
{
    match workers_in(request.workers) {
        Some(_) => None,
        None => Some(Mistake::UnclearWorkers),
    }
}
