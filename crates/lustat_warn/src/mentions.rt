//! What a node reads, and what a program calls.

ghost use Rattle.std.specs.Prelude.{◌≡◌, ◌++◌, ◌∷◌, [], IfOk, OnOk, map, flat_map};
ghost use Rattle.lutree.specs.Tree.{view, views, trees_of, declarations_view, equation_view, node_view, program_view};
ghost use Rattle.lustat_rules.specs.Naming.{names_in, names_in_all, called_by};
ghost use Rattle.lustat_warn.specs.Warnings.{names_read, names_called, clock_variables};
ghost use Rattle.lustat_warn.specs.Scans.{spelled, names_in_equations, nodes_in, nodes_in_all};

use lustat_rules::Places;
use lutree::{Declaration, Equation, Expr, Node, Program};
use std::alloc::{AllocError, Global};

/// Adds the names of variables that an expression has.
#[cycle(names)]
fn push_names<'a>(names: &mut Vec<&'a str>, e: &'a Expr) -> Result<(), AllocError>
    ensures { OnOk result (spelled names.new.items
        ≡ spelled names.old.items ++ names_in (view e.now)) }
{
    match e {
        Expr::Number(_) | Expr::Truth(_) | Expr::Label(_) => Ok(()),
        Expr::Variable(x) | Expr::Current(x) => push_name(names, x.as_str()),
        Expr::Unary(_, a) => push_names(names, a),
        Expr::Binary(_, a, b) => {
            push_names(names, a)?;
            push_names(names, b)
        }
        Expr::If(c, a, b) => {
            push_names(names, c)?;
            push_names(names, a)?;
            push_names(names, b)
        }
        Expr::When(a, c) => {
            push_names(names, a)?;
            push_name(names, c.variable.as_str())
        }
        Expr::Merge(c, _, branches) => {
            push_name(names, c.as_str())?;
            push_all_names(names, branches)
        }
        Expr::Call(_, arguments) => push_all_names(names, arguments),
    }
}

/// Adds the names of variables that the arguments of a call or the branches of a merge have.
#[cycle(names)]
fn push_all_names<'a>(names: &mut Vec<&'a str>, all: &'a [Expr]) -> Result<(), AllocError>
    ensures { OnOk result (spelled names.new.items
        ≡ spelled names.old.items ++ names_in_all (trees_of (views all.now))) }
{
    for e in all {
        push_names(names, e)?;
    }
    Ok(())
}

/// Adds a name.
fn push_name<'a>(names: &mut Vec<&'a str>, name: &'a str) -> Result<(), AllocError>
    ensures { OnOk result (spelled names.new.items ≡ spelled names.old.items ++ name.now ∷ []) }
{
    names.push(name)?;
    Ok(())
}

/// Adds the names of variables on the right sides of equations.
fn push_of_equations<'a>(
    names: &mut Vec<&'a str>,
    equations: &'a [Equation],
) -> Result<(), AllocError>
    ensures { OnOk result (spelled names.new.items
        ≡ spelled names.old.items ++ names_in_equations (map equation_view equations.now)) }
{
    for q in equations {
        push_names(names, &q.right)?;
    }
    Ok(())
}

/// Adds the variable of the clock of a declaration.
fn push_clock<'a>(names: &mut Vec<&'a str>, declaration: &'a Declaration) -> Result<(), AllocError>
    ensures { OnOk result (spelled names.new.items
        ≡ spelled names.old.items ++ clock_variables declaration.now.clock) }
{
    match &declaration.clock {
        None => Ok(()),
        Some(c) => push_name(names, c.variable.as_str()),
    }
}

/// Adds the variables of the clocks of declarations.
fn push_clocks<'a>(
    names: &mut Vec<&'a str>,
    declarations: &'a [Declaration],
) -> Result<(), AllocError>
    ensures { OnOk result (spelled names.new.items ≡ spelled names.old.items
        ++ flat_map (λ d. clock_variables d.clock) (declarations_view declarations.now)) }
{
    for d in declarations {
        push_clock(names, d)?;
    }
    Ok(())
}

/// The table of the names that a node reads: on the right sides of its equations, and in the clocks of its
/// declarations.
///
/// # Errors
///
/// An error means that memory ran out.
pub fn names_read(alloc: Global, node: &Node) -> Result<Places<'_>, AllocError>
    ensures { IfOk result (λ names. names ≡ names_read (node_view node.now)) }
{
    let mut names = Vec::new(alloc);
    push_of_equations(&mut names, node.equations.as_slice())?;
    push_clocks(&mut names, node.inputs.as_slice())?;
    push_clocks(&mut names, node.outputs.as_slice())?;
    push_clocks(&mut names, node.locals.as_slice())?;
    Places::new(alloc, names)
}

/// Adds the names of the nodes that an expression calls.
#[cycle(calls)]
fn push_calls<'a>(names: &mut Vec<&'a str>, e: &'a Expr) -> Result<(), AllocError>
    ensures { OnOk result (spelled names.new.items
        ≡ spelled names.old.items ++ nodes_in (view e.now)) }
{
    match e {
        Expr::Number(_) | Expr::Truth(_) | Expr::Label(_) | Expr::Variable(_) | Expr::Current(_) =>
            Ok(()),
        Expr::Unary(_, a) | Expr::When(a, _) => push_calls(names, a),
        Expr::Binary(_, a, b) => {
            push_calls(names, a)?;
            push_calls(names, b)
        }
        Expr::If(c, a, b) => {
            push_calls(names, c)?;
            push_calls(names, a)?;
            push_calls(names, b)
        }
        Expr::Merge(_, _, branches) => push_all_calls(names, branches),
        Expr::Call(f, arguments) => {
            push_all_calls(names, arguments)?;
            push_name(names, f.as_str())
        }
    }
}

/// Adds the names of the nodes that the arguments of a call or the branches of a merge call.
#[cycle(calls)]
fn push_all_calls<'a>(names: &mut Vec<&'a str>, all: &'a [Expr]) -> Result<(), AllocError>
    ensures { OnOk result (spelled names.new.items
        ≡ spelled names.old.items ++ nodes_in_all (trees_of (views all.now))) }
{
    for e in all {
        push_calls(names, e)?;
    }
    Ok(())
}

/// Adds the names of the nodes that a node calls.
fn push_called<'a>(names: &mut Vec<&'a str>, node: &'a Node) -> Result<(), AllocError>
    ensures { OnOk result (spelled names.new.items
        ≡ spelled names.old.items ++ called_by (node_view node.now)) }
{
    for q in node.equations.as_slice() {
        push_calls(names, &q.right)?;
    }
    Ok(())
}

/// The table of the names that the equations of all nodes call.
///
/// # Errors
///
/// An error means that memory ran out.
pub fn names_called(alloc: Global, program: &Program) -> Result<Places<'_>, AllocError>
    ensures { IfOk result (λ names. names ≡ names_called (program_view program.now)) }
{
    let mut names = Vec::new(alloc);
    for node in program.nodes.as_slice() {
        push_called(&mut names, node)?;
    }
    Places::new(alloc, names)
}
