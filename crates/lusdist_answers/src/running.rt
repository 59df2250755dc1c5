//! A run of a job on threads.

ghost use Rattle.std.specs.Prelude.{◌≡◌, IfOk, IfErr, string_bytes, option_map};
ghost use Rattle.lurun.specs.Reports.{AreOutputsOf, HasOutput};
ghost use Rattle.lurun.specs.Runs.{AreSome, IsStopOfJob};
ghost use Rattle.lutab.specs.Outputs.{output_text};
ghost use Rattle.lusdist_call.specs.Ran.{IsRunReply, IsStopOfRun};
ghost use Rattle.lusdist_call.specs.Files.{dump_for, run_path};
ghost use Rattle.lusdist_call.specs.Waved.{run_dump};
ghost use Rattle.lusdist_call.specs.Violations.{has_lines, output_flows, violations};
ghost use Rattle.clap.specs.Walk.{texts};

use crate::counting::{Count, begin_count, count_text};
use crate::evaluating::fault_stop;
use crate::filing::dump_of_run;
use luflow::Outputs;
use lulink::EndTally;
use luplace::{Job, Plan};
use lurun::{Engine, Gate, Options, RunError, Workers, run};
use lusdist_call::{CallError, Reply, column_violations};
use lusdist_shell::{Progress, RunRequest};
use lustats::RunStats;
use lutab::{shown_kinds, write_outputs};
use std::alloc::{AllocError, Global};
use std::rt::Clock;
use std::sync::Wait;
use std::thread::Threads;

/// The gate that holds nothing back. It hands on how far a site has come, and what the ends of its links
/// counted, where somebody asked for that.
#[derive(Drop)]
struct Open<'p, P> {
    progress: Option<&'p P>,
    stats: Option<&'p RunStats>,
}

impl<'p, P: Progress> Gate for Open<'p, P> {
    fn before(&self, _site: u8, _step: u64) {}

    fn at(&self, site: u8, instant: u32) {
        if let Some(progress) = self.progress {
            progress.reach(site, instant);
        }
    }

    fn left(&self, site: u8, end: EndTally) {
        if let Some(stats) = self.stats {
            stats.note(site, end);
        }
    }

    fn again(&self) {
        if let Some(stats) = self.stats {
            stats.clear();
        }
    }
}

/// The gate for a run of a job: it reports the progress, and gathers what is counted, where these are given.
fn gate_for<'p, P: Progress>(
    job: &Job,
    progress: Option<&'p P>,
    stats: Option<&'p RunStats>,
) -> Open<'p, P> {
    if let Some(progress) = progress {
        progress.begin(job.plan().sites().len(), job.instants());
    }
    Open { progress, stats }
}

/// How a run goes that is asked for, with these workers.
fn options_of(workers: Workers, items: bool) -> Options
    ensures { result.workers ≡ workers }
{
    let way = if items { Some(Engine::Items) } else { None };
    Options { workers, way }
}

/// The stop for a run that has no outputs.
fn stop_of(alloc: Global, job: &Job, error: RunError) -> CallError
    requires error { IsStopOfJob job.now error }
    requires some { HasOutput job.now }
    ensures { IsStopOfRun job.now result }
{
    let flat = job.plan().flat();
    match error {
        RunError::Fault {
            variable,
            instant,
            kind,
        } => fault_stop(alloc, flat, variable, instant, kind),
        RunError::OutOfMemory => CallError::OutOfMemory,
        RunError::LinkLost => CallError::LinkLost,
        RunError::NoThread => CallError::NoThread,
        RunError::WrongReports => unreachable!(),
    }
}

/// The outputs of a job that is run as is asked for, or why there are none. All its threads have ended when
/// it returns. Where a progress is given, it gets how far the sites have come, and the same of what is
/// counted.
fn run_outputs<R: Threads + Wait + Clock + Sync, P: Progress>(
    rt: &R,
    alloc: Global,
    job: &Job,
    options: Options,
    progress: Option<&P>,
    stats: Option<&RunStats>,
) -> Result<Outputs, CallError>
    requires workers { AreSome options.workers }
    requires some { HasOutput job.now }
    ensures outputs { IfOk result (AreOutputsOf job.now) }
    ensures stopped { IfErr result (IsStopOfRun job.now) }
{
    let gate = gate_for(job, progress, stats);
    match run(rt, alloc, job, options, &gate) {
        Ok(outputs) => Ok(outputs),
        Err(error) => Err(stop_of(alloc, job, error)),
    }
}

/// The table of a run's outputs, their dump, where the request asks for one, and what is told of those that
/// are observed.
fn reported_outputs(
    alloc: Global,
    request: RunRequest<'_>,
    plan: &Plan,
    outputs: &Outputs,
) -> Result<Reply, AllocError>
    ensures text { IfOk result (λ reply. string_bytes reply.text
        ≡ output_text plan.now.flat outputs.now) }
    ensures dump { IfOk result (λ reply. option_map string_bytes reply.dump
        ≡ dump_for (run_path request.entry) (run_dump request.entry.main.now plan.now
        outputs.now)) }
    ensures notes { IfOk result (λ reply. string_bytes reply.notes
        ≡ violations (texts request.entry.always.now)
        (output_flows plan.now.flat outputs.now)) }
    ensures violated { IfOk result (λ reply. reply.violated
        ≡ has_lines (string_bytes reply.notes)) }
{
    let text = write_outputs(alloc, plan.flat(), outputs)?;
    let dump = dump_of_run(alloc, request, plan, outputs)?;
    let flat = plan.flat();
    let kinds = shown_kinds(alloc, flat.variables(), false)?;
    let told = column_violations(alloc, request.always, flat.types(), &kinds, outputs)?;
    Ok(Reply::new(text, told, dump))
}

/// What gathers the counts of a run, if it counts.
fn stats_in(count: &Option<Count>) -> Option<&RunStats> {
    match count {
        Some(count) => Some(&count.stats),
        None => None,
    }
}

/// The table of the outputs of a job that is run as a request asks for, and their dump, where the request
/// asks for one, with what is told of what it counted and of outputs that are observed; or why there is none.
/// All threads of the run have ended when it returns.
pub fn run_table<R: Threads + Wait + Clock + Sync, P: Progress>(
    rt: &R,
    alloc: Global,
    request: RunRequest<'_>,
    progress: &P,
    job: &Job,
    workers: Workers,
) -> Result<Reply, CallError>
    requires workers { AreSome workers }
    requires some { HasOutput job.now }
    ensures reply { IfOk result (IsRunReply job.now request.entry) }
    ensures stopped { IfErr result (IsStopOfRun job.now) }
{
    let asked = request.progress.then_some(progress);
    let count = begin_count(rt, alloc, job.plan(), request.stats)?;
    let stats = stats_in(&count);
    let options = options_of(workers, request.items);
    let outputs = run_outputs(rt, alloc, job, options, asked, stats)?;
    let counted = count_text(rt, alloc, job, &count)?;
    let reply = reported_outputs(alloc, request, job.plan(), &outputs)?;
    let whole = reply.behind(counted)?;
    Ok(whole)
}
