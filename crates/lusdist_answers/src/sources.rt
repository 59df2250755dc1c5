//! From the texts of the files to a plan, a job and its turns.

ghost use Rattle.std.specs.Prelude.{◌≡◌, ◌⊎◌, IfOk, IfErr, IsUtf8, None, Ok, false};
ghost use Rattle.lutree.specs.Places.{places_view};
ghost use Rattle.lutree.specs.Tree.{program_view};
ghost use Rattle.lucore.specs.Result.{IsFlatOf};
ghost use Rattle.lusdist_shell.specs.RandomTurns.{random_turns};
ghost use Rattle.lusdist_shell.specs.ScheduleText.{schedule_of};
ghost use Rattle.lusyn.specs.Places.{ArePlacesOf};
ghost use Rattle.lusyn.specs.Texts.{SpellsText};
ghost use Rattle.luflow.specs.Sound.{IsFit};
ghost use Rattle.luflow.specs.Tables.{FitsProgram};
ghost use Rattle.luflow.specs.Variables.{inputs_of};
ghost use Rattle.luworld.specs.Jobs.{IsJobView};
ghost use Rattle.luworld.specs.Needs.{sites_of};
ghost use Rattle.lutab.specs.Table.{IsTextOf, is_too_long};
ghost use Rattle.lusdist_call.specs.Asked.{AreTurnsAt, AreTurnsFrom, HasFlat, IsFlatAt, IsPlanOfText, IsTableAt};
ghost use Rattle.lusdist_call.specs.Shown.{HasShown, IsListFor, IsListOf, IsShownAt};
ghost use Rattle.lusdist_call.specs.Refused.{IsReportedOf, IsProgramRefused, IsPlaceRefused, IsTableRefused};
ghost use Rattle.lusdist_call.specs.Mistakes.{turns_mistake};
ghost use Rattle.lusdist_call.specs.Stopped.{HasNoFlat, IsScheduleRefused, StopsAtProgram, StopsAtSchedule, StopsAtTable, StopsAtTurns};
ghost use Rattle.lusdist_call.specs.declared.call_error.CallError.TheVariants.{OutOfMemory};

use crate::shown::shown_variables;
use lucore::flatten;
use luflow::{Flat, Inputs};
use luinside::DeepVariable;
use luplace::{Job, Plan};
use luplace_file::{PlaceError, read_place};
use lusdist_call::{CallError, read};
use lusdist_shell::{EvalRequest, Files, TurnsSource, random_turns, read_schedule, text_of};
use lustat::{Checked, check};
use lusyn::read_program;
use lutab::{TabError, read_inputs};
use lutree::Program;
use std::alloc::Global;

/// The program that the bytes of a program's file spell.
pub fn program_of(alloc: Global, bytes: &[u8]) -> Result<Program, CallError>
    ensures spelled { IfOk result (λ program. SpellsText bytes.now (program_view program)) }
    ensures places { IfOk result (λ program. ArePlacesOf bytes.now (places_view program)) }
    ensures refused { IfErr result (IsProgramRefused bytes.now) }
{
    let Some(text) = text_of(bytes) else {
        return Err(CallError::NotAscii);
    };
    match read_program(alloc, text) {
        Ok(program) => Ok(program),
        Err(e) => Err(CallError::Syntax(e)),
    }
}

/// A program that keeps all rules, from its main node of this name, with its flat program.
pub fn checked_flat<'a>(
    alloc: Global,
    program: &'a Program,
    main: &'a str,
) -> Result<(Checked<'a>, Flat), CallError>
    ensures flat { IfOk result (λ x. IsFlatOf (program_view program.now) main.now x.1) }
    ensures program { IfOk result (λ x. x.0.program ≡ program.now) }
    ensures main { IfOk result (λ x. x.0.main ≡ main.now) }
    ensures reported { IfErr result (IsReportedOf (program_view program.now) (places_view program.now)
        main.now) }
{
    let checked = match check(alloc, program, main) {
        Ok(checked) => checked,
        Err(e) => return Err(CallError::Rules(e)),
    };
    match flatten(alloc, &checked) {
        Ok(flat) => Ok((checked, flat)),
        Err(e) => Err(CallError::Flat(e)),
    }
}

/// The flat program of a program, from its main node of this name, where the program keeps all rules.
pub fn flattened(alloc: Global, program: &Program, main: &str) -> Result<Flat, CallError>
    ensures flat { IfOk result (IsFlatOf (program_view program.now) main.now) }
    ensures reported { IfErr result (IsReportedOf (program_view program.now) (places_view program.now)
        main.now) }
{
    let (_, flat) = checked_flat(alloc, program, main)?;
    Ok(flat)
}

/// The flat program that the bytes of a program's file are, from its main node of this name.
pub fn flat_of(alloc: Global, bytes: &[u8], main: &str) -> Result<Flat, CallError>
    ensures flat { IfOk result (HasFlat bytes.now main.now) }
    ensures refused { IfErr result (HasNoFlat bytes.now main.now) }
{
    let program = program_of(alloc, bytes)?;
    flattened(alloc, &program, main)
}

/// The flat program of the program's file at the path, from its main node of this name.
pub fn flat_at<F: Files>(
    alloc: Global,
    files: &F,
    path: &str,
    main: &str,
) -> Result<Flat, CallError>
    ensures flat { IfOk result (IsFlatAt (F.gives files.now) path.now main.now) }
    ensures stopped { IfErr result (StopsAtProgram (F.gives files.now) path.now main.now) }
{
    let bytes = read(alloc, files, path)?;
    flat_of(alloc, &bytes, main)
}

/// The variables that an evaluation shows of a program and its flat program.
fn list_of(
    alloc: Global,
    request: EvalRequest<'_>,
    program: &Checked<'_>,
    flat: &Flat,
) -> Result<Vec<DeepVariable>, CallError>
    requires main { program.now.main ≡ request.main.now }
    requires flat { IsFlatOf (program_view program.now.program) program.now.main flat.now }
    ensures can { IfOk result (λ list. IsListFor request.entry.deep request.entry.all flat.now
        list.items) }
    ensures list { IfOk result (λ list. IsListOf request.entry (program_view program.now.program)
        flat.now list.items) }
    ensures memory { IfErr result (λ stop. stop ≡ OutOfMemory) }
{
    Ok(shown_variables(alloc, request, program, flat)?)
}

/// The flat program that the bytes of a program's file are, and the variables that an evaluation shows of it.
fn shown_of(
    alloc: Global,
    request: EvalRequest<'_>,
    bytes: &[u8],
) -> Result<(Flat, Vec<DeepVariable>), CallError>
    ensures shown { IfOk result (λ x. HasShown bytes.now request.entry x.0 x.1.items) }
    ensures can { IfOk result (λ x. IsListFor request.entry.deep request.entry.all x.0
        x.1.items) }
    ensures refused { IfErr result (λ stop. (stop ≡ OutOfMemory)
        ⊎ HasNoFlat bytes.now request.entry.main.now stop) }
{
    let program = program_of(alloc, bytes)?;
    let (checked, flat) = checked_flat(alloc, &program, request.main)?;
    let list = list_of(alloc, request, &checked, &flat)?;
    Ok((flat, list))
}

/// The flat program of the program's file that an evaluation names, and the variables that it shows of it.
pub fn shown_at<F: Files>(
    alloc: Global,
    files: &F,
    request: EvalRequest<'_>,
) -> Result<(Flat, Vec<DeepVariable>), CallError>
    ensures shown { IfOk result (λ x. IsShownAt (F.gives files.now) request.entry x.0 x.1.items) }
    ensures can { IfOk result (λ x. IsListFor request.entry.deep request.entry.all x.0
        x.1.items) }
    ensures stopped { IfErr result (λ stop. (stop ≡ OutOfMemory) ⊎ StopsAtProgram
        (F.gives files.now) request.entry.program.now request.entry.main.now stop) }
{
    let bytes = read(alloc, files, request.program)?;
    shown_of(alloc, request, &bytes)
}

/// The plan of a flat program and the bytes of a placement's file.
pub fn plan_of(alloc: Global, flat: Flat, bytes: &[u8]) -> Result<Plan, CallError>
    ensures flat { IfOk result (λ plan. plan.flat ≡ flat) }
    ensures plan { IfOk result (IsPlanOfText bytes.now) }
    ensures refused { IfErr result (IsPlaceRefused flat bytes.now) }
{
    let Some(text) = text_of(bytes) else {
        return Err(CallError::Place(PlaceError::NotToml));
    };
    let place = match read_place(alloc, text) {
        Ok(place) => place,
        Err(e) => return Err(CallError::Place(e)),
    };
    match Plan::make(alloc, flat, &place) {
        Ok(plan) => Ok(plan),
        Err(e) => Err(CallError::Place(e)),
    }
}

/// The table of a flat program's inputs that the bytes of a table's file are.
pub fn inputs_in(alloc: Global, flat: &Flat, bytes: &[u8]) -> Result<Inputs, CallError>
    ensures text { IfOk result (λ inputs. IsTextOf flat.now.types (inputs_of flat.now.variables)
        inputs bytes.now) }
    ensures short { IfOk result (λ _. is_too_long bytes.now ≡ false) }
    ensures utf8 { IfOk result (λ _. IsUtf8 bytes.now) }
    ensures fits { IfOk result (λ inputs. FitsProgram flat.now inputs) }
    ensures fit { IfOk result (λ inputs. IsFit flat.now inputs) }
    ensures refused { IfErr result (IsTableRefused flat.now.types (inputs_of flat.now.variables)
        bytes.now) }
{
    flat.recall_invariant();
    let Some(text) = text_of(bytes) else {
        return Err(CallError::Table(TabError::BadHeader));
    };
    match read_inputs(alloc, flat, text) {
        Ok(inputs) => Ok(inputs),
        Err(e) => Err(CallError::Table(e)),
    }
}

/// The table of a flat program's inputs that stands in the file at the path.
pub fn inputs_at<F: Files>(
    alloc: Global,
    files: &F,
    flat: &Flat,
    path: &str,
) -> Result<Inputs, CallError>
    ensures table { IfOk result (IsTableAt (F.gives files.now) path.now flat.now) }
    ensures fit { IfOk result (λ inputs. IsFit flat.now inputs) }
    ensures stopped { IfErr result (StopsAtTable (F.gives files.now) path.now flat.now) }
{
    let bytes = read(alloc, files, path)?;
    inputs_in(alloc, flat, &bytes)
}

/// The job of a plan and the bytes of a table's file.
pub fn job_of(alloc: Global, plan: Plan, bytes: &[u8]) -> Result<Job, CallError>
    ensures plan { IfOk result (λ job. job.plan ≡ plan) }
    ensures text { IfOk result (λ job. IsTextOf plan.flat.types (inputs_of plan.flat.variables)
        job.inputs bytes.now) }
    ensures short { IfOk result (λ _. is_too_long bytes.now ≡ false) }
    ensures utf8 { IfOk result (λ _. IsUtf8 bytes.now) }
    ensures fits { IfOk result (λ job. FitsProgram plan.flat job.inputs) }
    ensures run { IfOk result IsJobView }
    ensures refused { IfErr result (IsTableRefused plan.flat.types (inputs_of plan.flat.variables)
        bytes.now) }
{
    let inputs = inputs_in(alloc, plan.flat(), bytes)?;
    let job = Job::new(plan, inputs);
    job.recall_invariant();
    Ok(job)
}

/// The turns that the bytes of a schedule's file are.
pub fn turns_of(alloc: Global, bytes: &[u8]) -> Result<Vec<u8>, CallError>
    ensures turns { IfOk result (λ turns. schedule_of bytes.now ≡ Ok turns.items) }
    ensures refused { IfErr result (IsScheduleRefused bytes.now) }
{
    match read_schedule(alloc, bytes) {
        Ok(turns) => Ok(turns),
        Err(e) => Err(CallError::Schedule(e)),
    }
}

/// The turns of the schedule in the file at the path.
pub fn turns_at<F: Files>(alloc: Global, files: &F, path: &str) -> Result<Vec<u8>, CallError>
    ensures turns { IfOk result (λ turns. AreTurnsAt (F.gives files.now) path.now turns.items) }
    ensures stopped { IfErr result (StopsAtSchedule (F.gives files.now) path.now) }
{
    let bytes = read(alloc, files, path)?;
    turns_of(alloc, &bytes)
}

/// Random turns of the sites of a plan.
fn turns_by_seed(alloc: Global, plan: &Plan, seed: u32, count: u32) -> Result<Vec<u8>, CallError>
    ensures turns { IfOk result (λ turns. turns.items
        ≡ random_turns seed (sites_of plan.now) count) }
    ensures memory { IfErr result (λ stop. stop ≡ OutOfMemory) }
{
    plan.recall_invariant();
    let sites = plan.sites().len() as u8;
    Ok(random_turns(alloc, seed, sites, count)?)
}

/// The turns that come from a source, for the sites of a plan.
pub fn turns_from<F: Files>(
    alloc: Global,
    files: &F,
    source: TurnsSource<'_>,
    plan: &Plan,
) -> Result<Vec<u8>, CallError>
    requires { turns_mistake source ≡ None }
    ensures turns { IfOk result (λ turns. AreTurnsFrom (F.gives files.now) source.entry
        (sites_of plan.now) turns.items) }
    ensures stopped { IfErr result (λ stop. (stop ≡ OutOfMemory)
        ⊎ StopsAtTurns (F.gives files.now) source.entry stop) }
{
    match source {
        TurnsSource::File(path) => turns_at(alloc, files, path),
        TurnsSource::Random { seed, count } => turns_by_seed(alloc, plan, seed, count),
        TurnsSource::Unclear => unreachable!(),
    }
}
