//! Why a text is refused.

ghost use Rattle.std.specs.Prelude.{◌≡◌, ◌++◌, List, ℕ, IfOk, string_bytes};
ghost use Rattle.lutree.specs.Tree.{program_view};
ghost use Rattle.luflow.specs.Sound.{IsFit};
ghost use Rattle.lucore.specs.Result.{IsFlatOf};
ghost use Rattle.luexplain.specs.Place.{place};
ghost use Rattle.lusdist_call.specs.Faulted.{IsFaultReason, StandsForFault};
ghost use Rattle.lusdist_call.specs.Reasons.{program_path, place_path, table_path, schedule_path, main_name, AreFaultsAt, AreRefusalsAt, IsReason, IsReasonOf};
ghost use Rattle.lusdist_call.specs.declared.call_error.CallError.TheVariants as stops;
ghost use Rattle.lucore.specs.declared.error.CoreError.TheVariants as flats;

use crate::sources::{checked_flat, inputs_at, program_of};
use lubase::Name;
use lucore::CoreError;
use luexplain::{
    Explanation, SyntaxRefusal, all_refusals, of_cycle, of_fault, of_place, of_rule, of_schedule,
    of_size, of_syntax, of_table, of_unread, where_in,
};
use luflow::{FaultKind, Flat, Inputs};
use luinside::{Telling, ToldFault, told_fault};
use luplace_file::PlaceError;
use lusdist_call::{CallError, read};
use lusdist_shell::{Files, ReadError, Request, ScheduleError, text_of};
use lustat::{Checked, all_faults};
use lustat_rules::StatError;
use lusyn::SynError;
use lutab::TabError;
use lutree::Program;
use std::alloc::Global;

/// The paths that a request names, each empty where it names none, and its main node.
#[derive(Clone, Copy)]
struct Asked<'a> {
    main: &'a str,
    program: &'a str,
    place: &'a str,
    table: &'a str,
    schedule: &'a str,
}

/// What a request names.
fn asked_in<'a>(request: Request<'a>) -> Asked<'a>
    ensures main { result.main.now ≡ main_name request.entry }
    ensures program { result.program.now ≡ program_path request.entry }
    ensures place { result.place.now ≡ place_path request.entry }
    ensures table { result.table.now ≡ table_path request.entry }
    ensures schedule { result.schedule.now ≡ schedule_path request.entry }
{
    let (main, program) = match request {
        Request::Check(asked) => (asked.main, asked.program),
        Request::Eval(asked) => (asked.main, asked.program),
        Request::New(asked) => (asked.main, asked.program),
        Request::Plan(asked) => (asked.main, asked.program),
        Request::Replay(asked) => (asked.main, asked.program),
        Request::Run(asked) => (asked.main, asked.program),
        Request::Explain(_) => ("", ""),
    };
    let (place, table, schedule) = match request {
        Request::Check(_) | Request::New(_) | Request::Explain(_) => ("", "", ""),
        Request::Eval(asked) => ("", asked.table, ""),
        Request::Plan(asked) => (asked.place, "", ""),
        Request::Replay(asked) => {
            let schedule = asked.source.file().unwrap_or("");
            (asked.place, asked.table, schedule)
        }
        Request::Run(asked) => (asked.place, asked.table, ""),
    };
    Asked {
        main,
        program,
        place,
        table,
        schedule,
    }
}

/// Why a text is no program.
fn of_text<F: Files>(
    alloc: Global,
    files: &F,
    path: &str,
    error: &SynError,
) -> Result<Explanation, CallError>
    ensures { IfOk result (IsReason (F.gives files.now) path.now (stops.Syntax error.now)) }
{
    let text = read(alloc, files, path)?;
    Ok(of_syntax(alloc, path, &text, error)?)
}

/// Why a file can't be read.
fn of_file<F: Files>(alloc: Global, files: &F, path: &Name) -> Result<Explanation, CallError>
    ensures { IfOk result (λ reason. (at : List ℕ) → IsReason (F.gives files.now) at
        (stops.CannotRead path.now) reason) }
{
    match files.read(alloc, path.as_str()) {
        Err(ReadError::CannotRead(why)) => Ok(of_unread(alloc, path.as_str(), why)?),
        _ => Err(CallError::OutOfMemory),
    }
}

/// Why a program's file isn't even text.
fn of_bytes<F: Files>(alloc: Global, files: &F, path: &str) -> Result<Explanation, CallError>
    ensures { IfOk result (IsReason (F.gives files.now) path.now stops.NotAscii) }
{
    let text = read(alloc, files, path)?;
    Ok(of_syntax(alloc, path, &text, &SynError::NotAscii)?)
}

/// Which rule a program breaks.
fn of_rules<F: Files>(
    alloc: Global,
    files: &F,
    path: &str,
    main: &str,
    error: &StatError,
) -> Result<Explanation, CallError>
    ensures { IfOk result (IsReason (F.gives files.now) path.now (stops.Rules error.now)) }
{
    let text = read(alloc, files, path)?;
    let program = program_of(alloc, &text)?;
    Ok(of_rule(alloc, path, &text, &program, main, error)?)
}

/// Why a program has no flat program.
fn of_flat<F: Files>(
    alloc: Global,
    files: &F,
    path: &str,
    main: &str,
    error: &CoreError,
) -> Result<Explanation, CallError>
    ensures { IfOk result (IsReason (F.gives files.now) path.now (stops.Flat error.now)) }
{
    let text = read(alloc, files, path)?;
    match error {
        CoreError::Cycle { variable } => {
            let program = program_of(alloc, &text)?;
            Ok(of_cycle(alloc, path, &text, &program, main, variable.as_str())?)
        }
        CoreError::TooLarge => Ok(of_size(alloc, path)?),
        CoreError::OutOfMemory => Err(CallError::OutOfMemory),
    }
}

/// The reason of a fault, at its operator, with what is told of that.
fn at_operator(
    alloc: Global,
    path: &str,
    text: &[u8],
    told: &ToldFault,
    reason: Explanation,
) -> Result<Explanation, CallError>
    ensures { IfOk result (λ found. string_bytes found.place
        ≡ place path.now text.now told.now.byte ++ string_bytes told.now.lines) }
{
    let mut place = where_in(alloc, path, text, told.byte)?;
    place.push_str(told.lines.as_str())?;
    let Explanation {
        place: _,
        what,
        mend,
    } = reason;
    Ok(Explanation { place, what, mend })
}

/// The reason of a fault of a program at a table, where the program's file has these bytes.
fn told_of(
    alloc: Global,
    path: &str,
    bytes: &[u8],
    program: &Checked<'_>,
    flat: &Flat,
    inputs: &Inputs,
    variable: &str,
    instant: u32,
    kind: FaultKind,
) -> Result<Explanation, CallError>
    requires flat { IsFlatOf (program_view program.now.program) program.now.main flat.now }
    requires fit { IsFit flat.now inputs.now }
    ensures { IfOk result (λ reason. StandsForFault path.now bytes.now program.now.main
        program.now.program flat.now inputs.now variable.now instant kind (string_bytes reason.place)) }
{
    let Some(text) = text_of(bytes) else {
        return Err(CallError::NotAscii);
    };
    let telling = told_fault(alloc, text, program, flat, inputs, variable, instant, kind)?;
    let lent = program.program();
    let main = program.main();
    let reason = of_fault(alloc, path, bytes, lent, main, variable, instant, kind)?;
    match telling {
        Telling::Whole(told) => at_operator(alloc, path, bytes, &told, reason),
        Telling::Other => Ok(reason),
        Telling::Unclear => Err(CallError::OutOfMemory),
    }
}

/// Where an operator has no value.
fn of_value<F: Files>(
    alloc: Global,
    files: &F,
    asked: Asked<'_>,
    variable: &str,
    instant: u32,
    kind: FaultKind,
) -> Result<Explanation, CallError>
    ensures { IfOk result (IsFaultReason (F.gives files.now) asked.entry.program.now
        asked.entry.main.now asked.entry.table.now variable.now instant kind) }
{
    let bytes = read(alloc, files, asked.program)?;
    let text = bytes.as_slice();
    let program = program_of(alloc, text)?;
    let both = checked_flat(alloc, &program, asked.main)?;
    let inputs = inputs_at(alloc, files, &both.1, asked.table)?;
    told_of(
        alloc,
        asked.program,
        text,
        &both.0,
        &both.1,
        &inputs,
        variable,
        instant,
        kind,
    )
}

/// The program of a file that is read again.
fn program_at<F: Files>(alloc: Global, files: &F, path: &str) -> Result<Program, CallError> {
    let text = read(alloc, files, path)?;
    program_of(alloc, &text)
}

/// Why a placement is refused.
fn of_placement<F: Files>(
    alloc: Global,
    files: &F,
    asked: Asked<'_>,
    error: &PlaceError,
) -> Result<Explanation, CallError>
    ensures { IfOk result (IsReason (F.gives files.now) asked.entry.place.now
        (stops.Place error.now)) }
{
    let program = program_at(alloc, files, asked.program)?;
    let text = read(alloc, files, asked.place)?;
    Ok(of_place(alloc, asked.place, &text, &program, asked.main, error)?)
}

/// Why a table is refused.
fn of_inputs<F: Files>(
    alloc: Global,
    files: &F,
    asked: Asked<'_>,
    error: &TabError,
) -> Result<Explanation, CallError>
    ensures { IfOk result (IsReason (F.gives files.now) asked.entry.table.now
        (stops.Table error.now)) }
{
    let program = program_at(alloc, files, asked.program)?;
    let text = read(alloc, files, asked.table)?;
    Ok(of_table(alloc, asked.table, &text, &program, asked.main, error)?)
}

/// Why a schedule is refused.
fn of_turns<F: Files>(
    alloc: Global,
    files: &F,
    path: &str,
    error: &ScheduleError,
) -> Result<Explanation, CallError>
    ensures { IfOk result (IsReason (F.gives files.now) path.now
        (stops.Schedule error.now)) }
{
    let text = read(alloc, files, path)?;
    Ok(of_schedule(alloc, path, &text, error)?)
}

/// The reason of a stop; an error where no text is to blame, where its file can't be read again or isn't what
/// it was, or where memory runs out.
pub fn reason<F: Files>(
    alloc: Global,
    files: &F,
    request: Request<'_>,
    stop: &CallError,
) -> Result<Explanation, CallError>
    ensures { IfOk result (IsReasonOf (F.gives files.now) request.entry stop.now) }
{
    let asked = asked_in(request);
    match stop {
        CallError::CannotRead { path } => of_file(alloc, files, path),
        CallError::NotAscii => of_bytes(alloc, files, asked.program),
        CallError::Syntax(e) => of_text(alloc, files, asked.program, e),
        CallError::Rules(e) => of_rules(alloc, files, asked.program, asked.main, e),
        CallError::Flat(e) => of_flat(alloc, files, asked.program, asked.main, e),
        CallError::Place(e) => of_placement(alloc, files, asked, e),
        CallError::Table(e) => of_inputs(alloc, files, asked, e),
        CallError::Schedule(e) => of_turns(alloc, files, asked.schedule, e),
        CallError::Fault {
            variable,
            instant,
            kind,
        } => of_value(alloc, files, asked, variable.as_str(), *instant, *kind),
        _ => Err(CallError::OutOfMemory),
    }
}

/// All faults of the first stage that has any, of the program that a request names, which is read once more.
/// An error where its file can't be read again or isn't what it was, or where memory runs out.
pub fn faults_of<F: Files>(
    alloc: Global,
    files: &F,
    request: Request<'_>,
) -> Result<Vec<StatError>, CallError>
    ensures { IfOk result (λ faults. AreFaultsAt (F.gives files.now) (program_path request.entry)
        (main_name request.entry) faults.items) }
{
    let asked = asked_in(request);
    let text = read(alloc, files, asked.program)?;
    let program = program_of(alloc, &text)?;
    let faults = all_faults(alloc, &program, asked.main)?;
    if faults.is_empty() {
        return Err(CallError::OutOfMemory);
    }
    Ok(faults)
}

/// All refusals of the text that a request names, which is no program. It is read once more. An error where
/// its file can't be read again or is a program now, or where memory runs out.
pub fn refusals_of<F: Files>(
    alloc: Global,
    files: &F,
    request: Request<'_>,
) -> Result<Vec<SyntaxRefusal>, CallError>
    ensures { IfOk result (λ found. AreRefusalsAt (F.gives files.now) (program_path request.entry)
        found.items) }
{
    let asked = asked_in(request);
    let text = read(alloc, files, asked.program)?;
    let refusals = all_refusals(alloc, asked.program, &text)?;
    if refusals.is_empty() {
        return Err(CallError::OutOfMemory);
    }
    Ok(refusals)
}
