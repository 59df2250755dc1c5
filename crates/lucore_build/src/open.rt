//! The parts of the open list of a node.

ghost use Rattle.std.specs.Prelude.{◌≡◌, ◌++◌, map, drop, IfOk, OnOk};
ghost use Rattle.lutree.specs.Tree.{equation_view, declarations_view};
ghost use Rattle.lustat_rules.specs.Scope.{lefts_of};
ghost use Rattle.lubase.specs.Places.{first_place};
ghost use Rattle.lustat_rules.specs.Scopes.{spellings};
ghost use Rattle.lucore_build.specs.Nodes.{flow_at, flows_found, inputs_from};

use crate::node::vacant_flow;
use lubase::Name;
use luflow::{Clock, Flow, Form};
use lustat_rules::Places;
use lutree::{Declaration, Equation};
use std::alloc::{AllocError, Global};

/// The names of a left side, behind those before.
fn push_names<'a>(names: &mut Vec<&'a str>, left: &'a [Name]) -> Result<(), AllocError>
    ensures { OnOk result (map (λ n. n.now) names.new.items ≡ map (λ n. n.now) names.old.items
        ++ left.now) }
{
    for name in left {
        names.push(name.as_str())?;
    }
    Ok(())
}

/// The names on the left sides of equations, in order.
pub fn left_names(alloc: Global, equations: &[Equation]) -> Result<Vec<&str>, AllocError>
    ensures { IfOk result (λ names. map (λ n. n.now) names.items
        ≡ lefts_of (map equation_view equations.now)) }
{
    let mut names = Vec::with_capacity(alloc, equations.len())?;
    for equation in equations {
        push_names(&mut names, equation.left.as_slice())?;
    }
    Ok(names)
}

/// The flow of a variable, looked up by its name.
fn flow_found(
    alloc: Global,
    places: &Places,
    defined: &[Flow],
    name: &str,
) -> Result<Flow, AllocError>
    ensures { IfOk result (λ f. f ≡ flow_at defined.now (first_place places.now name.now)) }
{
    match places.find(name) {
        Some(place) if place < defined.len() => defined[place].copied(alloc),
        _ => Ok(vacant_flow()),
    }
}

/// The flows of inputs, open, behind those before.
pub fn push_inputs(flows: &mut Vec<Flow>, inputs: &[Declaration]) -> Result<(), AllocError>
    ensures { OnOk result (flows.new.items ≡ flows.old.items
        ++ inputs_from 0 (declarations_view inputs.now)) }
{
    for (number, input) in inputs.iter().enumerate() {
        flows.push(Flow {
            form: Form::Input(number),
            clock: Clock::Base,
            kind: input.kind,
        })?;
    }
    Ok(())
}

/// The flows of declared variables, behind those before.
pub fn push_variables(
    alloc: Global,
    flows: &mut Vec<Flow>,
    places: &Places,
    defined: &[Flow],
    declarations: &[Declaration],
) -> Result<(), AllocError>
    ensures { OnOk result (flows.new.items ≡ flows.old.items
        ++ flows_found places.now defined.now (spellings declarations.now)) }
{
    for d in declarations {
        flows.push(flow_found(alloc, places, defined, d.name.as_str())?)?;
    }
    Ok(())
}

/// Flows but for the first ones, behind those before.
pub fn push_behind(
    alloc: Global,
    flows: &mut Vec<Flow>,
    all: &[Flow],
    count: usize,
) -> Result<(), AllocError>
    ensures { OnOk result (flows.new.items ≡ flows.old.items ++ drop count all.now) }
{
    if count < all.len() {
        push_all(alloc, flows, &all[count..])?;
    }
    Ok(())
}

/// Flows behind those before.
fn push_all(alloc: Global, flows: &mut Vec<Flow>, more: &[Flow]) -> Result<(), AllocError>
    ensures { OnOk result (flows.new.items ≡ flows.old.items ++ more.now) }
{
    for flow in more {
        flows.push(flow.copied(alloc)?)?;
    }
    Ok(())
}
