//! What a run counts, and what is told of that.

ghost use Rattle.std.specs.Prelude.{◌≡◌, IfOk, is_some, string_bytes};
ghost use Rattle.lusdist_call.specs.Counted.{AreStats};

use luplace::{Job, Plan};
use lustats::{RunStats, stats_text};
use std::alloc::{AllocError, Global};
use std::rt::Clock;
use std::time::Instant;

/// What a run counts from its beginning on; where the clock can't be read it takes no time.
#[derive(Drop)]
pub(crate) struct Count {
    pub(crate) stats: RunStats,
    begun: Option<Instant>,
}

/// A run of a plan begins to count, if that is asked for.
pub(crate) fn begin_count<R: Clock>(
    rt: &R,
    alloc: Global,
    plan: &Plan,
    asked: bool,
) -> Result<Option<Count>, AllocError>
    ensures { IfOk result (λ count. is_some count ≡ asked) }
{
    if !asked {
        return Ok(None);
    }
    let stats = RunStats::new(alloc, plan)?;
    Ok(Some(Count {
        stats,
        begun: Instant::now(rt).ok(),
    }))
}

/// How many microseconds have passed since a run began.
fn micros_since<R: Clock>(rt: &R, begun: &Option<Instant>) -> u64 {
    let Some(begun) = begun else {
        return 0;
    };
    match begun.elapsed(rt) {
        Ok(span) => span
            .as_secs()
            .saturating_mul(1_000_000)
            .saturating_add(u64::from(span.subsec_micros())),
        Err(_) => 0,
    }
}

/// What is told of what a run of a job counted, which ends now.
pub(crate) fn count_text<R: Clock>(
    rt: &R,
    alloc: Global,
    job: &Job,
    count: &Option<Count>,
) -> Result<String, AllocError>
    ensures { IfOk result (λ told. AreStats (is_some count.now) job.now (string_bytes told)) }
{
    match count {
        Some(count) => {
            let micros = micros_since(rt, &count.begun);
            let counts = count.stats.counts(alloc)?;
            stats_text(alloc, job.plan(), &counts, micros, job.instants())
        }
        None => Ok(String::new(alloc)),
    }
}
