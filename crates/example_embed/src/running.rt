//! The design's run: its two sites, each on a thread of its own.

ghost use Rattle.std.specs.Prelude.{IfErr, IfOk, IfSome, string_bytes};
ghost use Rattle.lurun.specs.Reports.{AreOutputsOf};
ghost use Rattle.lurun.specs.Runs.{IsStopOfJob};
ghost use Rattle.example_embed.specs.Ran.{IsRunOfDesign, IsTableOfRun};

use crate::texts::Texts;
use luflow::Outputs;
use luplace::Job;
use lurun::{Gate, Options, RunError, Workers, run};
use lusdist_answers::jobs::job_for;
use lutab::write_outputs;
use std::alloc::Global;
use std::rt::Clock;
use std::sync::Wait;
use std::thread::Threads;

/// What a run calls as it goes: it holds nothing back, and tells nobody how far a site is.
#[derive(Drop)]
struct Open;

impl Gate for Open {
    fn before(&self, _site: u8, _step: u64) {}
}

/// The whole outputs of a job: a thread for each site, in the way that its plan allows.
pub(crate) fn outputs_of<R: Threads + Wait + Clock + Sync>(
    rt: &R,
    alloc: Global,
    job: &Job,
) -> Result<Outputs, RunError>
    ensures outputs { IfOk result (AreOutputsOf job.now) }
    ensures stopped { IfErr result (IsStopOfJob job.now) }
{
    let options = Options {
        workers: Workers::EachSite,
        way: None,
    };
    run(rt, alloc, job, options, &Open)
}

/// The table of a job's outputs. None where memory ran out.
fn written(alloc: Global, job: &Job, outputs: &Outputs) -> Option<String>
    requires { AreOutputsOf job.now outputs.now }
    ensures { IfSome result (λ text. IsTableOfRun job.now (string_bytes text)) }
{
    match write_outputs(alloc, job.plan().flat(), outputs) {
        Ok(text) => Some(text),
        Err(_) => None,
    }
}

/// The table of the outputs of a job that is run. None where the run has none, or memory ran out.
fn table_of<R: Threads + Wait + Clock + Sync>(rt: &R, alloc: Global, job: &Job) -> Option<String>
    ensures { IfSome result (λ text. IsTableOfRun job.now (string_bytes text)) }
{
    match outputs_of(rt, alloc, job) {
        Ok(outputs) => written(alloc, job, &outputs),
        Err(_) => None,
    }
}

/// The table of the design's outputs, as its sites give it. None where the run has none, or memory ran out.
pub(crate) fn run_of_design<R: Threads + Wait + Clock + Sync>(
    rt: &R,
    alloc: Global,
) -> Option<String>
    ensures { IfSome result (λ text. IsRunOfDesign (string_bytes text)) }
{
    match job_for(alloc, &Texts, "design", "placement", "table", "main") {
        Ok(job) => table_of(rt, alloc, &job),
        Err(_) => None,
    }
}
