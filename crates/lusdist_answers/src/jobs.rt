//! The job of a program, a placement and a table, and whether its outputs can be observed.

ghost use Rattle.std.specs.Prelude.{◌≡◌, ◌⊎◌, ◌<◌, length, None, IfOk, IfErr, OnOk};
ghost use Rattle.clap.specs.Walk.{texts};
ghost use Rattle.luflow.specs.Variables.{outputs_of};
ghost use Rattle.lusdist_call.specs.Asked.{IsJobFor};
ghost use Rattle.lusdist_call.specs.Stopped.{IsUnobserved, StopsAtJob};
ghost use Rattle.lusdist_call.specs.Violations.{unobserved};
ghost use Rattle.lusdist_call.specs.declared.call_error.CallError.TheVariants.{OutOfMemory};

use crate::planning::planned;
use crate::sources::job_of;
use luplace::Job;
use lusdist_call::{CallError, observe, read};
use lusdist_shell::Files;
use std::alloc::Global;

/// The job of the program, the placement and the table at three paths, which are read and refused in this
/// order.
pub fn job_for<F: Files>(
    alloc: Global,
    files: &F,
    program: &str,
    place: &str,
    table: &str,
    main: &str,
) -> Result<Job, CallError>
    ensures job { IfOk result (IsJobFor (F.gives files.now) program.now place.now table.now
        main.now) }
    ensures some { IfOk result (λ job. 0 < length (outputs_of job.plan.flat.variables)) }
    ensures stopped { IfErr result (StopsAtJob (F.gives files.now) program.now place.now table.now
        main.now) }
{
    let plan = planned(alloc, files, program, place, main)?;
    let bytes = read(alloc, files, table)?;
    job_of(alloc, plan, &bytes)
}

/// Whether all names that are observed are bool outputs of the main node of a job's program.
pub fn observe_job(alloc: Global, job: &Job, names: &[&str]) -> Result<(), CallError>
    ensures observed { OnOk result (unobserved job.now.plan.flat.variables (texts names.now)
        ≡ None) }
    ensures stopped { IfErr result (λ stop. (stop ≡ OutOfMemory)
        ⊎ IsUnobserved job.now.plan.flat (texts names.now) stop) }
{
    observe(alloc, job.plan().flat(), names)
}
