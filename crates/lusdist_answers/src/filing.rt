//! The dumps of a run and of a replay.

ghost use Rattle.std.specs.Prelude.{◌≡◌, IfOk, string_bytes, option_map, List};
ghost use Rattle.luchart.specs.Signals.{Signal};
ghost use Rattle.luweave_text.specs.Waves.{site_dump, AreOutputSignals};
ghost use Rattle.lusdist_call.specs.Files.{dump_for, replay_path, run_path};
ghost use Rattle.lusdist_call.specs.Waved.{IsWorldDump, run_dump};

use luchart::signal::signals_of;
use luflow::Outputs;
use luplace::Plan;
use lusdist_shell::{ReplayRequest, RunRequest};
use lutab::shown_kinds;
use luweave::World;
use luweave_text::{dump_by_site, output_signals};
use std::alloc::{AllocError, Global};

/// The dump of the whole outputs of a plan's program, whose main node has this name.
fn run_dump(alloc: Global, main: &str, plan: &Plan, outputs: &Outputs) -> Result<String, AllocError>
    ensures { IfOk result (λ text. string_bytes text ≡ run_dump main.now plan.now outputs.now) }
{
    let flat = plan.flat();
    let kinds = shown_kinds(alloc, flat.variables(), false)?;
    let signals = signals_of(alloc, flat.types(), &kinds, outputs.columns())?;
    dump_by_site(alloc, main, plan, &signals)
}

/// The dump of a run's outputs, where one is asked for.
pub(crate) fn dump_of_run(
    alloc: Global,
    request: RunRequest<'_>,
    plan: &Plan,
    outputs: &Outputs,
) -> Result<Option<String>, AllocError>
    ensures { IfOk result (λ dump. option_map string_bytes dump ≡ dump_for (run_path request.entry)
        (run_dump request.entry.main.now plan.now outputs.now)) }
{
    match request.vcd {
        Some(_) => {
            let text = run_dump(alloc, request.main, plan, outputs)?;
            Ok(Some(text))
        }
        None => Ok(None),
    }
}

/// The dump of the outputs of a world, each as far as it was passed.
fn world_dump(alloc: Global, main: &str, plan: &Plan, world: &World) -> Result<String, AllocError>
    requires { world.now.job.plan ≡ plan.now }
    ensures { IfOk result (λ text. (signals : List Signal) × AreOutputSignals world.now signals
        × (string_bytes text ≡ site_dump main.now plan.now signals)) }
{
    let signals = output_signals(alloc, plan, world)?;
    dump_by_site(alloc, main, plan, &signals)
}

/// The dump of a world, where one is asked for.
pub(crate) fn dump_of_world(
    alloc: Global,
    request: ReplayRequest<'_>,
    plan: &Plan,
    world: &World,
) -> Result<Option<String>, AllocError>
    requires { world.now.job.plan ≡ plan.now }
    ensures { IfOk result (λ dump. IsWorldDump request.entry.main.now world.now
        (replay_path request.entry) (option_map string_bytes dump)) }
{
    match request.vcd {
        Some(_) => {
            let text = world_dump(alloc, request.main, plan, world)?;
            Ok(Some(text))
        }
        None => Ok(None),
    }
}
