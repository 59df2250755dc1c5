//! A run of stations.

ghost use Rattle.std.specs.Prelude.{◌<◌, ◌≡◌};
ghost use Rattle.luworld.specs.Jobs.{JobView};
ghost use Rattle.lurun.specs.Answers.{IsRunAnswer};
ghost use Rattle.lurun.specs.Stations.{AreOf};

use crate::collecting::collect;
use crate::crew::reports_of;
use crate::error::RunError;
use crate::gate::Gate;
use crate::leaving::all_left;
use crate::station::Station;
use lubase::limits::MOST_SITES;
use luflow::Outputs;
use std::alloc::Global;
use std::rt::Clock;
use std::sync::Wait;
use std::thread::Threads;

/// Runs stations with a crew: worker i has the sites whose number leaves i, divided by the number of workers,
/// and goes round them; without a site it isn't started. It is handed neither the job nor its inputs:
/// messages pass by the stations' ends, and the answer is that of [`collect`] for the reports of all sites.
/// Room for all workers and reports is made before the first worker starts. All started threads have been
/// joined when it returns.
///
/// # Errors
///
/// [`RunError::NoThread`] where a thread was refused, whatever the others report; [`RunError::LinkLost`]
/// where a site that goes by rows or by lists hasn't done its whole part; else those of [`collect`].
pub fn run_crew<R: Threads + Wait + Clock + Sync, G: Gate>(
    rt: &R,
    alloc: Global,
    stations: Vec<Station>,
    workers: u8,
    gate: &G,
) -> Result<Outputs, RunError>
    requires { 0 < workers }
    ensures { (job : JobView) → AreOf job stations.items → IsRunAnswer job stations.items result }
{
    let reports = reports_of(rt, alloc, stations, workers, gate)?;
    let found = all_left(alloc, reports)?;
    match found {
        Some(left) => collect(alloc, left),
        None => Err(RunError::LinkLost),
    }
}

/// The same with one thread for each site.
///
/// # Errors
///
/// Those of [`run_crew`].
pub fn run_threads<R: Threads + Wait + Clock + Sync, G: Gate>(
    rt: &R,
    alloc: Global,
    stations: Vec<Station>,
    gate: &G,
) -> Result<Outputs, RunError>
    ensures { (job : JobView) → AreOf job stations.items → IsRunAnswer job stations.items result }
{
    run_crew(rt, alloc, stations, MOST_SITES as u8, gate)
}
