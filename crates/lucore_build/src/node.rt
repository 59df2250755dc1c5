//! The equations of a node.

ghost use Rattle.std.specs.Prelude.{◌≡◌, ◌++◌, length, replicate, IfOk, OnOk};
ghost use Rattle.lutree.specs.Tree.{equation_view, node_view, program_view};
ghost use Rattle.lusource.specs.Names.{name_at, variables_of, place_of};
ghost use Rattle.lucore_laws.specs.Layout.{clock_place, left_clock, walk_right, inner_flows, inner_owners, variable_count};
ghost use Rattle.lustat_rules.specs.ClockRefs.{placed_view, IsPlaced};
ghost use Rattle.lucore_build.specs.Walks.{plain, root_view, vacant};
ghost use Rattle.lucore_build.specs.Nodes.{flow_named, flows_named, defined_flows};

use crate::context::{Context, flow_of, variable_clock, variable_place};
use crate::root::Root;
use crate::sum_of;
use crate::walk::walk;
use lubase::Name;
use luflow::{Clock, Datum, Flow, Form};
use lustat_rules::{PlacedClock, Scope};
use lutree::{Equation, Kind};
use std::alloc::{AllocError, Global};

/// What the equations of a node make: behind places for its variables the inner flows, for each inner flow
/// its owner, and for each name on a left side, in order, the flow of its variable.
#[derive(Drop)]
pub struct Parts {
    pub flows: Vec<Flow>,
    pub owners: Vec<usize>,
    pub defined: Vec<Flow>,
}

/// The flow of a variable on the left side of an equation, by its number there.
fn defined_flow(
    alloc: Global,
    scope: &Scope,
    clock: PlacedClock,
    root: &Root,
    number: usize,
    name: &str,
) -> Result<Flow, AllocError>
    requires { IsPlaced (node_view scope.now) clock }
    ensures { IfOk result (λ f. f ≡ flow_named (node_view scope.now)
        (clock_place (node_view scope.now) (placed_view clock.entry)) (root_view root.now) number
        name.now) }
{
    match root {
        Root::Own(flow) => flow.copied(alloc),
        Root::At(place) => {
            let form = Form::Copied(sum_of(*place, number)?);
            Ok(flow_of(scope, clock, scope.kind(name), form))
        }
    }
}

/// The flows of the variables on a left side, behind those before.
fn push_defined(
    alloc: Global,
    scope: &Scope,
    clock: PlacedClock,
    root: &Root,
    left: &[Name],
    defined: &mut Vec<Flow>,
) -> Result<(), AllocError>
    requires { IsPlaced (node_view scope.now) clock }
    ensures { OnOk result (defined.new.items ≡ defined.old.items
        ++ flows_named (node_view scope.now) (clock_place (node_view scope.now)
        (placed_view clock.entry)) (root_view root.now) 0 left.now) }
{
    for (number, name) in left.iter().enumerate() {
        defined.push(defined_flow(alloc, scope, clock, root, number, name.as_str())?)?;
    }
    Ok(())
}

/// Puts a number several times behind the others.
pub fn push_copies(owners: &mut Vec<usize>, owner: usize, count: usize) -> Result<(), AllocError>
    ensures { OnOk result (owners.new.items ≡ owners.old.items ++ replicate count owner) }
{
    for _ in 0..count {
        owners.push(owner)?;
    }
    Ok(())
}

/// The first name of a left side, or the empty name.
pub fn first_name(left: &[Name]) -> &str
    ensures { result.now ≡ name_at left.now 0 }
{
    match left.first() {
        Some(name) => name.as_str(),
        None => "",
    }
}

/// What one equation makes, behind what those before it made.
fn push_equation(
    alloc: Global,
    context: &Context,
    parts: &mut Parts,
    equation: &Equation,
) -> Result<(), AllocError>
    ensures flows { OnOk result (parts.new.flows.items ≡ parts.old.flows.items
        ++ (walk_right (program_view context.now.catalog.now) (plain context.now.lists.now)
        (node_view context.now.scope.now) (equation_view equation.now)
        (length parts.old.flows.items)).inner) }
    ensures owners { OnOk result (parts.new.owners.items ≡ parts.old.owners.items
        ++ replicate (length (walk_right (program_view context.now.catalog.now)
        (plain context.now.lists.now) (node_view context.now.scope.now)
        (equation_view equation.now) (length parts.old.flows.items)).inner)
        (place_of (variables_of (node_view context.now.scope.now)) (name_at equation.now.left 0))) }
    ensures defined { OnOk result (parts.new.defined.items ≡ parts.old.defined.items
        ++ flows_named (node_view context.now.scope.now)
        (clock_place (node_view context.now.scope.now)
        (left_clock (program_view context.now.catalog.now) (plain context.now.lists.now)
        (node_view context.now.scope.now) (equation_view equation.now)))
        (walk_right (program_view context.now.catalog.now) (plain context.now.lists.now)
        (node_view context.now.scope.now) (equation_view equation.now)
        (length parts.old.flows.items)).root 0 equation.now.left) }
{
    let scope = context.scope;
    let left = equation.left.as_slice();
    let name = first_name(left);
    let clock = variable_clock(scope, name);
    let before = parts.flows.len();
    let walked = walk(alloc, context, &mut parts.flows, &equation.right, clock)?;
    let made = parts.flows.len() - before;
    push_copies(&mut parts.owners, variable_place(scope, name), made)?;
    push_defined(alloc, scope, clock, &walked.root, left, &mut parts.defined)
}

/// Holds the place of a variable's flow until that is known.
pub fn vacant_flow() -> Flow
    ensures { result ≡ vacant }
{
    Flow {
        form: Form::Constant(Datum::Nil),
        clock: Clock::Base,
        kind: Kind::Int,
    }
}

/// Places that are held for variables.
fn vacant_flows(alloc: Global, count: usize) -> Result<Vec<Flow>, AllocError>
    ensures { IfOk result (λ flows. flows.items ≡ replicate count vacant) }
{
    let mut flows = Vec::with_capacity(alloc, count)?;
    for _ in 0..count {
        flows.push(vacant_flow())?;
    }
    Ok(flows)
}

/// What all equations of a node make.
///
/// # Errors
///
/// An error means that memory ran out.
pub fn parts_of(alloc: Global, context: &Context) -> Result<Parts, AllocError>
    ensures flows { IfOk result (λ parts. parts.flows.items
        ≡ replicate (variable_count (program_view context.now.catalog.now)
        (plain context.now.lists.now) (node_view context.now.scope.now)) vacant
        ++ inner_flows (program_view context.now.catalog.now) (plain context.now.lists.now)
        (node_view context.now.scope.now) (node_view context.now.scope.now).equations
        (variable_count (program_view context.now.catalog.now) (plain context.now.lists.now)
        (node_view context.now.scope.now))) }
    ensures owners { IfOk result (λ parts. parts.owners.items
        ≡ inner_owners (program_view context.now.catalog.now) (plain context.now.lists.now)
        (node_view context.now.scope.now) (node_view context.now.scope.now).equations
        (variable_count (program_view context.now.catalog.now) (plain context.now.lists.now)
        (node_view context.now.scope.now))) }
    ensures defined { IfOk result (λ parts. parts.defined.items
        ≡ defined_flows (program_view context.now.catalog.now) (plain context.now.lists.now)
        (node_view context.now.scope.now) (node_view context.now.scope.now).equations
        (variable_count (program_view context.now.catalog.now) (plain context.now.lists.now)
        (node_view context.now.scope.now))) }
{
    let mut parts = Parts {
        flows: vacant_flows(alloc, context.scope.declarations().len())?,
        owners: Vec::new(alloc),
        defined: Vec::new(alloc),
    };
    for equation in context.scope.node().equations.as_slice() {
        push_equation(alloc, context, &mut parts, equation)?;
    }
    Ok(parts)
}
