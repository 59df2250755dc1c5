//! What a check, an evaluation, the beginning of a design, a plan and a run give, of the files that they ask
//! for.

ghost use Rattle.std.specs.Prelude.{◌≡◌, ◌<◌, length, IfOk, IfErr, None, string_bytes, option_map};
ghost use Rattle.lutree.specs.Places.{places_view};
ghost use Rattle.lutree.specs.Tree.{program_view};
ghost use Rattle.lusyn.specs.Places.{ArePlacesOf};
ghost use Rattle.lusyn.specs.Texts.{SpellsText};
ghost use Rattle.lurun.specs.Runs.{AreSome};
ghost use Rattle.lusdist_shell.specs.declared.request.Request.{Request};
ghost use Rattle.lusdist_call.specs.Answers.{AreCheckNotes, IsReplyTo, plan_notes};
ghost use Rattle.luflow.specs.Sound.{IsFit};
ghost use Rattle.luflow.specs.Variables.{outputs_of};
ghost use Rattle.lusdist_call.specs.Evaluated.{IsDumpedTo, IsNoFault, IsPosedWith};
ghost use Rattle.lusdist_call.specs.Shown.{IsListFor};
ghost use Rattle.lusdist_call.specs.Stopped.{IsCheckStopped, IsEvalStopped, IsNewStopped, IsPlanStopped, IsRefusalOf, IsRunRefused, IsRunStopped};
ghost use Rattle.lusdist_call.specs.Mistakes.{mistake_in, run_mistake};
ghost use Rattle.lusdist_call.specs.Violations.{unobserved};
ghost use Rattle.clap.specs.Walk.{texts};
ghost use Rattle.lusdist_call.specs.declared.call_error.CallError.{CallError};
ghost use Rattle.lusdist_call.specs.declared.call_error.CallError.TheVariants.{OutOfMemory};

use crate::evaluating::evaluation;
use crate::jobs::{job_for, observe_job};
use crate::planning::{plan_text, planned};
use crate::running::run_table;
use crate::sources::{flat_at, flattened, inputs_at, program_of, shown_at};
use crate::starting::start_text;
use luexplain::of_warnings;
use luflow::{Flat, Inputs};
use luinside::DeepVariable;
use luplace::Plan;
use luplace_report::report_idle;
use lurun::Workers;
use lusdist_call::{CallError, Mistake, Refusal, Reply, mistake_in, observe, read, workers_in};
use lusdist_shell::{
    CheckRequest, EvalRequest, Files, NewRequest, PlanRequest, Progress, RunRequest,
};
use lustat_warn::warnings;
use lusyn::print_program;
use lutree::Program;
use std::alloc::{AllocError, Global};
use std::rt::Clock;
use std::sync::Wait;
use std::thread::Threads;

/// The warnings of a program, a line each, where a check asks for them.
fn check_notes(
    alloc: Global,
    request: CheckRequest<'_>,
    bytes: &[u8],
    program: &Program,
) -> Result<String, AllocError>
    requires spelled { SpellsText bytes.now (program_view program.now) }
    requires places { ArePlacesOf bytes.now (places_view program.now) }
    ensures { IfOk result (λ notes. AreCheckNotes request.entry bytes.now (string_bytes notes)) }
{
    if !request.warn {
        return Ok(String::new(alloc));
    }
    let found = warnings(alloc, program, request.main)?;
    of_warnings(alloc, request.program, bytes, program, &found)
}

/// What a check gives: the canonical text of the program, which keeps all rules and has a flat program, and
/// its warnings, where they are asked for.
pub fn check_answer<F: Files>(
    alloc: Global,
    request: CheckRequest<'_>,
    files: &F,
) -> Result<Reply, CallError>
    ensures reply { IfOk result (IsReplyTo (F.gives files.now) (Request.Check request.entry)) }
    ensures stopped { IfErr result (IsCheckStopped (F.gives files.now) request.entry) }
{
    let bytes = read(alloc, files, request.program)?;
    let program = program_of(alloc, &bytes)?;
    let _flat = flattened(alloc, &program, request.main)?;
    let text = print_program(alloc, &program)?;
    let notes = check_notes(alloc, request, &bytes, &program)?;
    Ok(Reply::noted(text, notes))
}

/// The flat program and the inputs of the files that an evaluation asks for, and the variables that it shows.
/// They are read and refused in the order of the words; the names that are observed come last.
fn posed<F: Files>(
    alloc: Global,
    request: EvalRequest<'_>,
    files: &F,
) -> Result<(Flat, Inputs, Vec<DeepVariable>), CallError>
    ensures posed { IfOk result (λ found. IsPosedWith (F.gives files.now) request.entry found.0
        found.1 found.2.items) }
    ensures can { IfOk result (λ found. IsListFor request.entry.deep request.entry.all found.0
        found.2.items) }
    ensures fit { IfOk result (λ found. IsFit found.0 found.1) }
    ensures some { IfOk result (λ found. 0 < length (outputs_of found.0.variables)) }
    ensures observed { IfOk result (λ found. unobserved found.0.variables
        (texts request.entry.always.now) ≡ None) }
    ensures stopped { IfErr result (IsEvalStopped (F.gives files.now) request.entry) }
    ensures no_fault { IfErr result IsNoFault }
{
    let (flat, list) = shown_at(alloc, files, request)?;
    let inputs = inputs_at(alloc, files, &flat, request.table)?;
    observe(alloc, &flat, request.always)?;
    Ok((flat, inputs, list))
}

/// What the program and the table of an evaluation give: the variables that it shows, as a table or as a
/// chart, their dump, and what is told of outputs that are observed.
fn evaluated<F: Files>(alloc: Global, request: EvalRequest<'_>, files: &F) -> Result<Reply, Refusal>
    requires { mistake_in request ≡ None }
    ensures reply { IfOk result (IsReplyTo (F.gives files.now) (Request.Eval request.entry)) }
    ensures stopped { IfErr result (λ refusal. IsEvalStopped (F.gives files.now) request.entry
        refusal.error) }
    ensures before { IfErr result (λ refusal. IsDumpedTo (F.gives files.now) request.entry
        refusal.error (option_map string_bytes refusal.dump)) }
{
    let (flat, inputs, list) = posed(alloc, request, files)?;
    evaluation(alloc, request, &flat, &inputs, &list)
}

/// What an evaluation gives, where what it is asked for can be meant.
pub fn eval_answer<F: Files>(
    alloc: Global,
    request: EvalRequest<'_>,
    files: &F,
) -> Result<Reply, Refusal>
    ensures reply { IfOk result (IsReplyTo (F.gives files.now) (Request.Eval request.entry)) }
    ensures refusal { IfErr result (IsRefusalOf (F.gives files.now) (Request.Eval request.entry)) }
{
    match mistake_in(request) {
        Some(mistake) => Err(Refusal {
            error: CallError::Mistaken(mistake),
            dump: None,
        }),
        None => evaluated(alloc, request, files),
    }
}

/// What a design begins with: a placement of all main variables at one site, or a table of inputs, where one
/// is asked for.
pub fn new_answer<F: Files>(
    alloc: Global,
    request: NewRequest<'_>,
    files: &F,
) -> Result<Reply, CallError>
    ensures reply { IfOk result (IsReplyTo (F.gives files.now) (Request.New request.entry)) }
    ensures stopped { IfErr result (IsNewStopped (F.gives files.now) request.entry) }
{
    let flat = flat_at(alloc, files, request.program, request.main)?;
    let text = start_text(alloc, &flat, request.table)?;
    Ok(Reply::plain(alloc, text))
}

/// The sites at which nothing stands, a line each, where a plan asks for warnings.
fn plan_notes(alloc: Global, request: PlanRequest<'_>, plan: &Plan) -> Result<String, AllocError>
    ensures { IfOk result (λ notes. string_bytes notes ≡ plan_notes request.entry plan.now) }
{
    if !request.warn {
        return Ok(String::new(alloc));
    }
    report_idle(alloc, request.place, plan)
}

/// What a plan gives: where each variable stands, and all links, in the form that is asked for, and the sites
/// at which nothing stands, where they are asked for.
pub fn plan_answer<F: Files>(
    alloc: Global,
    request: PlanRequest<'_>,
    files: &F,
) -> Result<Reply, CallError>
    ensures reply { IfOk result (IsReplyTo (F.gives files.now) (Request.Plan request.entry)) }
    ensures stopped { IfErr result (IsPlanStopped (F.gives files.now) request.entry) }
{
    let plan = planned(alloc, files, request.program, request.place, request.main)?;
    let text = plan_text(alloc, &plan, request.form)?;
    let notes = plan_notes(alloc, request, &plan)?;
    Ok(Reply::noted(text, notes))
}

/// What a run gives: the table of the outputs of the program, which its sites gave together, their dump, and
/// what is told of those that are observed.
fn ran<R: Threads + Wait + Clock + Sync, F: Files, P: Progress>(
    rt: &R,
    alloc: Global,
    request: RunRequest<'_>,
    files: &F,
    progress: &P,
    workers: Workers,
) -> Result<Reply, CallError>
    requires meant { run_mistake request ≡ None }
    requires workers { AreSome workers }
    ensures reply { IfOk result (IsReplyTo (F.gives files.now) (Request.Run request.entry)) }
    ensures stopped { IfErr result (IsRunStopped (F.gives files.now) request.entry) }
{
    let job = job_for(
        alloc,
        files,
        request.program,
        request.place,
        request.table,
        request.main,
    )?;
    observe_job(alloc, &job, request.always)?;
    run_table(rt, alloc, request, progress, &job, workers)
}

/// What a run gives, where what it is asked for can be meant.
pub fn run_answer<R: Threads + Wait + Clock + Sync, F: Files, P: Progress>(
    rt: &R,
    alloc: Global,
    request: RunRequest<'_>,
    files: &F,
    progress: &P,
) -> Result<Reply, CallError>
    ensures reply { IfOk result (IsReplyTo (F.gives files.now) (Request.Run request.entry)) }
    ensures stopped { IfErr result (IsRunRefused (F.gives files.now) request.entry) }
{
    match workers_in(request.workers) {
        Some(workers) => ran(rt, alloc, request, files, progress, workers),
        None => Err(CallError::Mistaken(Mistake::UnclearWorkers)),
    }
}
