//! A job, run as is asked for.

ghost use Rattle.std.specs.Prelude.{◌<◌, ◌≡◌, IfOk, IfErr, IfSome};
ghost use Rattle.lurun.specs.Reports.{AreOutputsOf};
ghost use Rattle.lurun.specs.Runs.{AreSome, IsRefused, IsStopOfJob};

use crate::crews::run_crew;
use crate::engine::Engine;
use crate::error::RunError;
use crate::gate::Gate;
use crate::making::{stations, stations_by};
use crate::options::{Options, Workers, crew_of, engine_for};
use luflow::Outputs;
use luplace::Job;
use std::alloc::Global;
use std::rt::Clock;
use std::sync::Wait;
use std::thread::Threads;

/// The outputs of a job whose sites go on like this; none where some site can't, or where not all sites have
/// done their whole part, as at a fault.
fn run_engine<R: Threads + Wait + Clock + Sync, G: Gate>(
    rt: &R,
    alloc: Global,
    job: &Job,
    engine: Engine,
    workers: Workers,
    gate: &G,
) -> Result<Option<Outputs>, RunError>
    requires { AreSome workers }
    ensures outputs { IfOk result (λ o. IfSome o (AreOutputsOf job.now)) }
    ensures refused { IfErr result IsRefused }
{
    let made = stations_by(alloc, job, engine)?;
    let Some(stations) = made else {
        return Ok(None);
    };
    let crew = crew_of(job.plan(), engine, workers);
    match run_crew(rt, alloc, stations, crew, gate) {
        Ok(outputs) => Ok(Some(outputs)),
        Err(RunError::OutOfMemory) => Err(RunError::OutOfMemory),
        Err(RunError::NoThread) => Err(RunError::NoThread),
        Err(_) => Ok(None),
    }
}

/// The outputs of a job whose sites go item by item, or why there are none.
fn run_items<R: Threads + Wait + Clock + Sync, G: Gate>(
    rt: &R,
    alloc: Global,
    job: &Job,
    workers: Workers,
    gate: &G,
) -> Result<Outputs, RunError>
    requires { AreSome workers }
    ensures outputs { IfOk result (AreOutputsOf job.now) }
    ensures stopped { IfErr result (IsStopOfJob job.now) }
{
    let stations = stations(alloc, job)?;
    let crew = crew_of(job.plan(), Engine::Items, workers);
    run_crew(rt, alloc, stations, crew, gate)
}

/// Runs a job: its sites go on as is asked for, or as its plan allows, and are served by the workers that are
/// asked for. Where that gives no outputs, as at a fault, the run begins anew item by item, which tells the
/// fault. What serves a site is handed neither the job nor inputs of others. All started threads have been
/// joined when it returns.
///
/// # Errors
///
/// [`RunError::Fault`] of a site that stopped at it; [`RunError::NoThread`] where a thread was refused;
/// [`RunError::OutOfMemory`] where memory ran out; [`RunError::LinkLost`] where a site was left before its
/// end; [`RunError::WrongReports`] where the main node has no output.
pub fn run<R: Threads + Wait + Clock + Sync, G: Gate>(
    rt: &R,
    alloc: Global,
    job: &Job,
    options: Options,
    gate: &G,
) -> Result<Outputs, RunError>
    requires { AreSome options.workers }
    ensures outputs { IfOk result (AreOutputsOf job.now) }
    ensures stopped { IfErr result (IsStopOfJob job.now) }
{
    let engine = engine_for(alloc, job.plan(), options.way)?;
    if engine != Engine::Items {
        if let Some(outputs) = run_engine(rt, alloc, job, engine, options.workers, gate)? {
            return Ok(outputs);
        }
        gate.again();
    }
    run_items(rt, alloc, job, options.workers, gate)
}
