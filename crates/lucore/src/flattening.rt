//! From a program that keeps all rules to its flat program.

ghost use Rattle.std.specs.Prelude.{◌≡◌, ◌<◌, ℕ, IfOk, IfErr, length, map, slice_get, slice_index, Some, All};
ghost use Rattle.std.specs.Option.{ForSome};
ghost use Rattle.luflow.specs.declared.variable.Variable.{Variable};
ghost use Rattle.luflow.specs.Program.{reads};
ghost use Rattle.luflow.specs.Rank.{Chain, IsRankOrder};
ghost use Rattle.lucore_laws.specs.Answer.{IfOrdered, IfCyclic};
ghost use Rattle.lucore_laws.specs.Rank.{AreClosed, IsLeastOnCycle};
ghost use Rattle.lutree.specs.Tree.{program_view};
ghost use Rattle.lucore.specs.Result.{IsFlatOf, Refuses};

use crate::error::CoreError;
use crate::reading::rows_in;
use lubase::{Name, Row};
use lucore_build::{is_too_large, lay_out};
use lucore_laws::{Ranking, rank};
use luflow::{Flat, Flow, Variable};
use lustat::Checked;
use std::alloc::{AllocError, Global};

/// The name of the main variable in whose equation a flow stands.
fn owner_name(
    alloc: Global,
    owners: &[usize],
    variables: &[Variable],
    place: usize,
) -> Result<Name, AllocError>
    requires inside { place < length owners.now }
    requires owners_in { All (λ v. v < length variables.now) owners.now }
    ensures { ForSome (slice_get variables.now (slice_index owners.now place))
        (λ x. IfOk result (λ name. name ≡ x.name)) }
{
    variables[owners[place]].name.copied(alloc)
}

/// The order of ranks of flows, or the least place on a cycle.
fn ranking(alloc: Global, flows: &[Flow]) -> Result<Ranking, AllocError>
    requires { AreClosed (map reads flows.now) }
    ensures order { IfOk result (λ found. IfOrdered found (IsRankOrder (map reads flows.now))) }
    ensures straight { IfOk result (λ found. IfOrdered found
        (λ _. (x : ℕ) → ¬ Chain (map reads flows.now) x x)) }
    ensures cycle { IfOk result (λ found. IfCyclic found (IsLeastOnCycle (map reads flows.now))) }
{
    let rows = rows_in(alloc, flows)?;
    rank(alloc, &rows)
}

/// The flat program of a program that keeps all rules.
///
/// Its list has the main variables at the first places, in order of declaration, each with the root of its
/// equation; then, for the equations in order of text, their inner flows, operands before their operator,
/// with all calls inlined.
///
/// The time grows with the length of the program, with the number of flows times its logarithm, and with the
/// calls that are inlined.
///
/// # Errors
///
/// `TooLarge` exactly where the list would have more than 4,096 flows, which is reported before any of it is
/// built. Otherwise `Cycle` where a flow reads itself through a chain of reads at one instant, with the
/// variable in whose equation the least such flow stands. `OutOfMemory` in place of any answer; nothing is
/// kept.
pub fn flatten(alloc: Global, program: &Checked) -> Result<Flat, CoreError>
    ensures flat { IfOk result (IsFlatOf (program_view program.now.program) program.now.main) }
    ensures refuses { IfErr result (Refuses (program_view program.now.program) program.now.main) }
{
    let catalog = program.catalog();
    if is_too_large(alloc, program)? {
        return Err(CoreError::TooLarge);
    }
    let laid = lay_out(alloc, catalog, program.order(), program.main())?;
    match ranking(alloc, &laid.flows)? {
        Ranking::Ordered(order) => Ok(Flat::new(
            Row::new(laid.types),
            Row::new(laid.flows),
            order,
            Row::new(laid.owners),
            Row::new(laid.variables),
        )),
        Ranking::Cyclic(place) => {
            let variable = owner_name(alloc, &laid.owners, &laid.variables, place)?;
            Err(CoreError::Cycle { variable })
        }
    }
}
