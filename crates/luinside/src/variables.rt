//! The variables of all instances.

ghost use Rattle.std.specs.Prelude.{◌≡◌, ◌≤◌, ◌+◌, ◌++◌, length, IfOk, OnOk};
ghost use Rattle.lubase.specs.Limits.{most_flows};
ghost use Rattle.lutree.specs.Tree.{declarations_view, node_view, program_view};
ghost use Rattle.lusource.specs.Names.{variables_of};
ghost use Rattle.lucore_laws.specs.Layout.{variables_as, main_variables};
ghost use Rattle.luinside.specs.Listed.{IsLow};
ghost use Rattle.luinside.specs.Names.{role_at};
ghost use Rattle.luinside.specs.Passing.{named_from, Passes};
ghost use Rattle.luinside.specs.Variables.{ListsDeepVariables};

use crate::names::{joined, steps_of};
use crate::way::{Level, prefix_of};
use crate::{Instance, instances};
use luflow::{Role, Variable};
use lustat::Checked;
use lutree::{Declaration, Node, Program};
use std::alloc::{AllocError, Global};

/// A variable of an instance.
#[derive(Drop)]
pub struct DeepVariable {
    /// Its name is that of its path, as `specs/Names.antt` says it: in the main node its own, in an instance
    /// of a call the calls that lead there and then its own. Of an instance of a call each is a local.
    pub variable: Variable,
    /// The place of its flow in the flat program, counted from 0.
    pub flow: usize,
}

/// How a variable of a role in its node stands in the main node.
fn role_at(path: &[usize], role: Role) -> Role
    ensures { result ≡ role_at path.now role }
{
    if path.is_empty() { role } else { Role::Local }
}

/// Puts variables of one role of the instance at a path behind those before. Their flows begin at a place.
fn push_declared(
    alloc: Global,
    prefix: &str,
    path: &[usize],
    role: Role,
    declarations: &[Declaration],
    start: usize,
    found: &mut Vec<DeepVariable>,
) -> Result<(), AllocError>
    requires { start + length declarations.now ≤ most_flows }
    ensures { OnOk result (found.new.items ≡ found.old.items ++ named_from prefix.now path.now start
        (variables_as role (declarations_view declarations.now))) }
{
    let here = role_at(path, role);
    for i in 0..declarations.len() {
        let declaration = &declarations[i];
        let variable = Variable {
            name: joined(alloc, prefix, declaration.name.as_str())?,
            role: here,
            kind: declaration.kind,
        };
        found.push(DeepVariable {
            variable,
            flow: start + i,
        })?;
    }
    Ok(())
}

/// Puts the variables of the instance at a path, of a node, behind those before.
fn push_variables(
    alloc: Global,
    node: &Node,
    prefix: &str,
    instance: &Instance,
    found: &mut Vec<DeepVariable>,
) -> Result<(), AllocError>
    requires { instance.now.start + length (variables_of (node_view node.now)) ≤ most_flows }
    ensures { OnOk result (found.new.items ≡ found.old.items ++ named_from prefix.now
        instance.now.path instance.now.start (main_variables (node_view node.now))) }
{
    let path = instance.path.as_slice();
    let inputs = node.inputs.as_slice();
    let outputs = node.outputs.as_slice();
    let locals = node.locals.as_slice();
    let start = instance.start;
    let middle = start + inputs.len();
    let last = middle + outputs.len();
    push_declared(alloc, prefix, path, Role::Input, inputs, start, found)?;
    push_declared(alloc, prefix, path, Role::Output, outputs, middle, found)?;
    push_declared(alloc, prefix, path, Role::Local, locals, last, found)
}

/// Puts the variables of an instance behind those before, and goes on the way to it.
fn pass(
    alloc: Global,
    program: &Program,
    instance: &Instance,
    way: &mut Vec<Level>,
    found: &mut Vec<DeepVariable>,
) -> Result<(), AllocError>
    requires { IsLow (program_view program.now) instance.now }
    ensures { OnOk result (Passes (program_view program.now) instance.now way.old.items
        way.new.items found.old.items found.new.items) }
{
    let prefix = prefix_of(alloc, way, instance.path.as_slice())?;
    if let Some(node) = program.nodes.as_slice().get(instance.node) {
        push_variables(alloc, node, prefix.as_str(), instance, found)?;
        let steps = steps_of(alloc, node)?;
        way.truncate(instance.path.as_slice().len());
        way.push(Level { prefix, steps })?;
    }
    Ok(())
}

/// The variables of all instances of a program: instance by instance, in the order of `luinside::instances`,
/// and in each in order of declaration. Those of the main node come first. Where there is no flat program of
/// at most 4,096 flows, they mean nothing.
///
/// The expected time grows with the length of the program, with the text and the path of each instance, and
/// with the length of the names.
///
/// # Errors
///
/// An error means that memory ran out.
pub fn deep_variables(alloc: Global, program: &Checked) -> Result<Vec<DeepVariable>, AllocError>
    ensures { IfOk result (λ found. ListsDeepVariables (program_view program.now.program)
        program.now.main found.items) }
{
    let list = instances(alloc, program)?;
    let mut way = Vec::new(alloc);
    let mut found = Vec::new(alloc);
    for instance in list.as_slice() {
        pass(alloc, program.program(), instance, &mut way, &mut found)?;
    }
    Ok(found)
}
