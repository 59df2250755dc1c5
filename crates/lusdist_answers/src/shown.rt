//! The variables that an evaluation shows.

ghost use Rattle.std.specs.Prelude.{◌≡◌, ◌++◌, ◌∷◌, ◌||◌, [], IfOk, OnOk, if◌then◌else◌};
ghost use Rattle.lutree.specs.Tree.{program_view};
ghost use Rattle.luflow.specs.Variables.{is_output};
ghost use Rattle.lucore.specs.Result.{IsFlatOf};
ghost use Rattle.lusdist_call.specs.Shown.{IsListFor, IsListOf, listed_from, listed_kinds};

use luflow::{Flat, Variable};
use luinside::{DeepVariable, deep_variables};
use lusdist_shell::EvalRequest;
use lustat::Checked;
use lutree::Kind;
use std::alloc::{AllocError, Global};

/// A copy of a main variable.
fn copied(alloc: Global, x: &Variable) -> Result<Variable, AllocError>
    ensures { IfOk result (λ copy. copy ≡ x.now) }
{
    Ok(Variable {
        name: x.name.copied(alloc)?,
        role: x.role,
        kind: x.kind,
    })
}

/// Puts main variable v behind those before, if it is an output or all are shown.
fn push_listed(
    alloc: Global,
    list: &mut Vec<DeepVariable>,
    x: &Variable,
    v: usize,
    all: bool,
) -> Result<(), AllocError>
    ensures { OnOk result (list.new.items ≡ list.old.items
        ++ (if all || is_output x.now.role then record { variable = x.now; flow = v } ∷ [] else [])) }
{
    if all || x.role.is_output() {
        list.push(DeepVariable {
            variable: copied(alloc, x)?,
            flow: v,
        })?;
    }
    Ok(())
}

/// All main variables, or the outputs among them.
fn listed(alloc: Global, variables: &[Variable], all: bool) -> Result<Vec<DeepVariable>, AllocError>
    ensures { IfOk result (λ list. list.items ≡ listed_from all 0 variables.now) }
{
    let mut list = Vec::new(alloc);
    for v in 0..variables.len() {
        push_listed(alloc, &mut list, &variables[v], v, all)?;
    }
    Ok(list)
}

/// The variables that an evaluation shows of a program and its flat program.
pub fn shown_variables(
    alloc: Global,
    request: EvalRequest<'_>,
    program: &Checked<'_>,
    flat: &Flat,
) -> Result<Vec<DeepVariable>, AllocError>
    requires main { program.now.main ≡ request.main.now }
    requires flat { IsFlatOf (program_view program.now.program) program.now.main flat.now }
    ensures can { IfOk result (λ list. IsListFor request.entry.deep request.entry.all flat.now
        list.items) }
    ensures list { IfOk result (λ list. IsListOf request.entry (program_view program.now.program)
        flat.now list.items) }
{
    if request.deep {
        return deep_variables(alloc, program);
    }
    listed(alloc, flat.variables(), request.all)
}

/// The types of variables, in order.
pub fn kinds_in(alloc: Global, list: &[DeepVariable]) -> Result<Vec<Kind>, AllocError>
    ensures { IfOk result (λ kinds. kinds.items ≡ listed_kinds list.now) }
{
    let mut kinds = Vec::with_capacity(alloc, list.len())?;
    for k in 0..list.len() {
        kinds.push(list[k].variable.kind)?;
    }
    Ok(kinds)
}
