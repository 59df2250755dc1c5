//! The open list of a node with its owners.

ghost use Rattle.std.specs.Prelude.{◌≡◌, ◌++◌, drop, map, IfOk, OnOk};
ghost use Rattle.lutree.specs.Tree.{declarations_view, equation_view, node_view, program_view};
ghost use Rattle.lusource.specs.Names.{variables_of, place_of};
ghost use Rattle.lucore_laws.specs.Layout.{node_flows, node_owners};
ghost use Rattle.lubase.specs.Places.{first_place};
ghost use Rattle.lustat_rules.specs.Scopes.{spellings};
ghost use Rattle.lucore_build.specs.Walks.{plain};
ghost use Rattle.lucore_build.specs.Nodes.{flows_found, inputs_from, leaders, number_at, owners_found};

use crate::context::{Context, variable_place};
use crate::node::{Parts, first_name, parts_of, push_copies};
use crate::open::{left_names, push_behind, push_inputs, push_variables};
use luflow::Flow;
use lustat_rules::{Places, Scope};
use lutree::{Declaration, Equation, Node};
use std::alloc::{AllocError, Global};

/// The list of a node, and for each flow the place of the first variable on the left side of its equation. An
/// input's own place is its owner.
#[derive(Drop)]
pub struct NodeList {
    pub flows: Vec<Flow>,
    pub owners: Vec<usize>,
}

/// For each name on the left sides, in order, the place of the first variable on its side.
fn leaders_of(
    alloc: Global,
    scope: &Scope,
    equations: &[Equation],
) -> Result<Vec<usize>, AllocError>
    ensures { IfOk result (λ owners. owners.items ≡ leaders (node_view scope.now)
        (map equation_view equations.now)) }
{
    let mut owners = Vec::with_capacity(alloc, equations.len())?;
    for equation in equations {
        let left = equation.left.as_slice();
        let owner = variable_place(scope, first_name(left));
        push_copies(&mut owners, owner, left.len())?;
    }
    Ok(owners)
}

/// The owner of a variable, looked up by its name.
fn owner_found(scope: &Scope, places: &Places, owners: &[usize], name: &str) -> usize
    ensures { result ≡ number_at owners.now (place_of (variables_of (node_view scope.now))
        name.now) (first_place places.now name.now) }
{
    match places.find(name) {
        Some(place) if place < owners.len() => owners[place],
        _ => variable_place(scope, name),
    }
}

/// The owners of declared variables, behind those before.
fn push_owners(
    owners: &mut Vec<usize>,
    scope: &Scope,
    places: &Places,
    known: &[usize],
    declarations: &[&Declaration],
) -> Result<(), AllocError>
    ensures { OnOk result (owners.new.items ≡ owners.old.items
        ++ owners_found (node_view scope.now) places.now known.now
        (spellings (map (λ d. d.now) declarations.now))) }
{
    for d in declarations {
        owners.push(owner_found(scope, places, known, d.name.as_str()))?;
    }
    Ok(())
}

/// The flows of a node's inputs, outputs and locals, and behind them all of its parts but for the first ones,
/// so many.
fn listed_flows(
    alloc: Global,
    node: &Node,
    places: &Places,
    parts: &Parts,
    count: usize,
) -> Result<Vec<Flow>, AllocError>
    ensures { IfOk result (λ flows. flows.items
        ≡ ((inputs_from 0 (declarations_view node.now.inputs)
        ++ flows_found places.now parts.now.defined.items (spellings node.now.outputs))
        ++ flows_found places.now parts.now.defined.items (spellings node.now.locals))
        ++ drop count parts.now.flows.items) }
{
    let defined = &parts.defined;
    let mut flows = Vec::with_capacity(alloc, parts.flows.len())?;
    push_inputs(&mut flows, node.inputs.as_slice())?;
    push_variables(alloc, &mut flows, places, defined, node.outputs.as_slice())?;
    push_variables(alloc, &mut flows, places, defined, node.locals.as_slice())?;
    push_behind(alloc, &mut flows, &parts.flows, count)?;
    Ok(flows)
}

/// The owners of declared variables of a node with these equations, and behind them those of its parts.
fn listed_owners(
    alloc: Global,
    scope: &Scope,
    places: &Places,
    parts: &Parts,
    declarations: &[&Declaration],
    equations: &[Equation],
) -> Result<Vec<usize>, AllocError>
    ensures { IfOk result (λ owners. owners.items ≡ owners_found (node_view scope.now) places.now
        (leaders (node_view scope.now) (map equation_view equations.now))
        (spellings (map (λ d. d.now) declarations.now)) ++ parts.now.owners.items) }
{
    let known = leaders_of(alloc, scope, equations)?;
    let mut owners = Vec::with_capacity(alloc, parts.flows.len())?;
    push_owners(&mut owners, scope, places, &known, declarations)?;
    owners.extend_from_slice(&parts.owners)?;
    Ok(owners)
}

/// The open list of a node with its owners, given the lists of the nodes that it calls.
///
/// The time grows with the length of the node and of the list.
///
/// # Errors
///
/// An error means that memory ran out.
pub fn node_list(alloc: Global, context: &Context) -> Result<NodeList, AllocError>
    ensures flows { IfOk result (λ list. list.flows.items
        ≡ node_flows (program_view context.now.catalog.now) (plain context.now.lists.now)
        (node_view context.now.scope.now)) }
    ensures owners { IfOk result (λ list. list.owners.items
        ≡ node_owners (program_view context.now.catalog.now) (plain context.now.lists.now)
        (node_view context.now.scope.now)) }
{
    let scope = context.scope;
    let node = scope.node();
    let variables = scope.declarations();
    let equations = node.equations.as_slice();
    let parts = parts_of(alloc, context)?;
    let places = Places::new(alloc, left_names(alloc, equations)?)?;
    let flows = listed_flows(alloc, node, &places, &parts, variables.len())?;
    let owners = listed_owners(alloc, scope, &places, &parts, variables, equations)?;
    Ok(NodeList { flows, owners })
}
