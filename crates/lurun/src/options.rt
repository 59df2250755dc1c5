//! How a job is run.

ghost use Rattle.std.specs.Prelude.{◌≡◌, ◌<◌, IfOk};
ghost use Rattle.lurun.specs.Runs.{AreSome, IsEngineFor, IsEngineOf, crew_of};

use crate::engine::Engine;
use luplace::{Plan, Way, quickest_crew, way_of};
use std::alloc::{AllocError, Global};

/// How many workers serve the sites of a run.
#[derive(Clone, Copy, Debug, Drop, PartialEq, Eq)]
pub enum Workers {
    /// One for each site.
    EachSite,
    /// As many as are likely to be quickest: one for each site, or one for all where they go by lists and are
    /// small.
    Auto,
    /// So many, 1 or more.
    Crew(u8),
}

/// How a job is run.
#[derive(Clone, Copy, Debug, Drop, PartialEq, Eq)]
pub struct Options {
    pub workers: Workers,
    /// How its sites go on; where it isn't said, as their plan allows.
    pub way: Option<Engine>,
}

/// How the sites of a plan go on: by rows where its way says so, else by lists. The way is that of
/// [`way_of`], which plans tell.
///
/// # Errors
///
/// Out of memory.
pub fn engine_of(alloc: Global, plan: &Plan) -> Result<Engine, AllocError>
    ensures { IfOk result (IsEngineOf plan.now) }
{
    let way = way_of(alloc, plan)?;
    match &way {
        Way::Rows => Ok(Engine::Rows),
        Way::Parted(_) => Ok(Engine::Lists),
        Way::Nil(_) => Ok(Engine::Lists),
    }
}

/// How the sites of a plan go on, where this is asked for.
///
/// # Errors
///
/// Out of memory.
pub fn engine_for(alloc: Global, plan: &Plan, way: Option<Engine>) -> Result<Engine, AllocError>
    ensures { IfOk result (IsEngineFor plan.now way) }
{
    match way {
        Some(engine) => Ok(engine),
        None => engine_of(alloc, plan),
    }
}

/// How many workers serve the sites of a plan, which go on like this.
pub fn crew_of(plan: &Plan, engine: Engine, workers: Workers) -> u8
    requires { AreSome workers }
    ensures is { result ≡ crew_of plan.now engine workers }
    ensures some { 0 < result }
{
    plan.recall_invariant();
    match (workers, engine) {
        (Workers::Crew(count), _) => count,
        (Workers::Auto, Engine::Lists) => quickest_crew(plan),
        _ => plan.sites().len() as u8,
    }
}
