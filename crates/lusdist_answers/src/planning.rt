//! The plan of a program at a placement.

ghost use Rattle.std.specs.Prelude.{◌≡◌, [], ◌∷◌, ◌++◌, IfOk, IfErr, string_bytes};
ghost use Rattle.luplace_report.specs.Report.{report_text};
ghost use Rattle.lusdist_call.specs.Answers.{IsPlanText};
ghost use Rattle.lusdist_call.specs.Asked.{IsPlanFor};
ghost use Rattle.lusdist_call.specs.Stopped.{StopsAtPlan};
ghost use Rattle.lusdist_call.specs.declared.call_error.CallError.TheVariants.{OutOfMemory};

use crate::sources::{flat_at, plan_of};
use luplace::Plan;
use luplace_report::{report_dot, report_json, report_table};
use lusdist_call::{CallError, read};
use lusdist_shell::{Files, PlanForm};
use std::alloc::{AllocError, Global};

/// The plan of the program and the placement at two paths, which are read and refused in this order.
pub fn planned<F: Files>(
    alloc: Global,
    files: &F,
    program: &str,
    place: &str,
    main: &str,
) -> Result<Plan, CallError>
    ensures plan { IfOk result (IsPlanFor (F.gives files.now) program.now place.now main.now) }
    ensures stopped { IfErr result (StopsAtPlan (F.gives files.now) program.now place.now
        main.now) }
{
    let flat = flat_at(alloc, files, program, main)?;
    let place_bytes = read(alloc, files, place)?;
    let plan = plan_of(alloc, flat, &place_bytes)?;
    plan.recall_invariant();
    Ok(plan)
}

/// The report of a plan, on a line.
fn report_line(alloc: Global, plan: &Plan) -> Result<String, AllocError>
    ensures { IfOk result (λ text. string_bytes text ≡ report_text plan.now ++ 10 ∷ []) }
{
    let mut text = report_json(alloc, plan)?;
    text.push('\n')?;
    Ok(text)
}

/// A plan in a form.
fn formed(alloc: Global, plan: &Plan, form: PlanForm) -> Result<String, AllocError>
    ensures { IfOk result (λ text. IsPlanText form plan.now (string_bytes text)) }
{
    match form {
        PlanForm::Report => report_line(alloc, plan),
        PlanForm::Table => report_table(alloc, plan),
        PlanForm::Graph => report_dot(alloc, plan),
    }
}

/// A plan as a report, a table or a graph.
pub fn plan_text(alloc: Global, plan: &Plan, form: PlanForm) -> Result<String, CallError>
    ensures text { IfOk result (λ text. IsPlanText form plan.now (string_bytes text)) }
    ensures memory { IfErr result (λ stop. stop ≡ OutOfMemory) }
{
    Ok(formed(alloc, plan, form)?)
}
