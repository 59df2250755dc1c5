//! The main variables.

ghost use Rattle.std.specs.Prelude.{◌≡◌, ◌++◌, IfOk, OnOk};
ghost use Rattle.lutree.specs.Tree.{declarations_view, node_view};
ghost use Rattle.lucore_laws.specs.Layout.{variables_as, main_variables};

use luflow::{Role, Variable};
use lutree::{Declaration, Node};
use std::alloc::{AllocError, Global};

/// Puts variables of one role behind those before.
fn push_variables(
    alloc: Global,
    variables: &mut Vec<Variable>,
    role: Role,
    declarations: &[Declaration],
) -> Result<(), AllocError>
    ensures { OnOk result (variables.new.items ≡ variables.old.items
        ++ variables_as role (declarations_view declarations.now)) }
{
    for declaration in declarations {
        let name = declaration.name.copied(alloc)?;
        let kind = declaration.kind;
        variables.push(Variable { name, role, kind })?;
    }
    Ok(())
}

/// The variables of a node: inputs, outputs and locals, each in order of declaration.
pub fn variables_in(alloc: Global, node: &Node) -> Result<Vec<Variable>, AllocError>
    ensures { IfOk result (λ variables. variables.items ≡ main_variables (node_view node.now)) }
{
    let mut variables = Vec::new(alloc);
    push_variables(alloc, &mut variables, Role::Input, node.inputs.as_slice())?;
    push_variables(alloc, &mut variables, Role::Output, node.outputs.as_slice())?;
    push_variables(alloc, &mut variables, Role::Local, node.locals.as_slice())?;
    Ok(variables)
}
