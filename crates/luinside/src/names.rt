//! The names of the calls of a node.

ghost use Rattle.std.specs.Prelude.{◌≡◌, ◌++◌, ◌∷◌, [], codes, IfOk, OnOk};
ghost use Rattle.std.specs.Fmt.{decimal};
ghost use Rattle.lutree.specs.Tree.{view, views, trees_of, equation_view, node_view};
ghost use Rattle.lusource.specs.Names.{name_at};
ghost use Rattle.lustat_rules.specs.Naming.{calls_in, calls_in_all};
ghost use Rattle.luinside.specs.Calls.{names_called};
ghost use Rattle.luinside.specs.Names.{equation_steps, steps_of};
ghost use Rattle.luinside.specs.Passing.{spelled};

use lubase::{Name, Row};
use lutree::{Equation, Expr, Node};
use std::alloc::{AllocError, Global};

/// The name that is two texts, one behind the other.
pub fn joined(alloc: Global, first: &str, second: &str) -> Result<Name, AllocError>
    ensures { IfOk result (λ name. name ≡ first.now ++ second.now) }
{
    Ok(Name::new(format!(in alloc; "{first}{second}")?))
}

/// The name at a place; the empty text past the end.
pub fn name_in(names: &[Name], place: usize) -> &str
    ensures { result.now ≡ name_at names.now place }
{
    match names.get(place) {
        Some(name) => name.as_str(),
        None => "",
    }
}

/// Adds the names of the nodes that an expression calls.
#[cycle(calls)]
fn push_called<'a>(called: &mut Vec<&'a str>, e: &'a Expr) -> Result<(), AllocError>
    ensures { OnOk result (spelled called.new.items ≡ spelled called.old.items
        ++ names_called (calls_in (view e.now))) }
{
    match e {
        Expr::Number(_) | Expr::Truth(_) | Expr::Label(_) | Expr::Variable(_) | Expr::Current(_) =>
            Ok(()),
        Expr::Unary(_, a) | Expr::When(a, _) => push_called(called, a),
        Expr::Binary(_, a, b) => {
            push_called(called, a)?;
            push_called(called, b)
        }
        Expr::If(c, a, b) => {
            push_called(called, c)?;
            push_called(called, a)?;
            push_called(called, b)
        }
        Expr::Merge(_, _, branches) => push_all_called(called, branches),
        Expr::Call(f, arguments) => {
            push_all_called(called, arguments)?;
            push_name(called, f.as_str())
        }
    }
}

/// Adds the names of the nodes that the arguments of a call or the branches of a merge call.
#[cycle(calls)]
fn push_all_called<'a>(called: &mut Vec<&'a str>, all: &'a [Expr]) -> Result<(), AllocError>
    ensures { OnOk result (spelled called.new.items ≡ spelled called.old.items
        ++ names_called (calls_in_all (trees_of (views all.now)))) }
{
    for e in all {
        push_called(called, e)?;
    }
    Ok(())
}

/// Adds a name.
fn push_name<'a>(called: &mut Vec<&'a str>, name: &'a str) -> Result<(), AllocError>
    ensures { OnOk result (spelled called.new.items ≡ spelled called.old.items ++ name.now ∷ []) }
{
    called.push(name)?;
    Ok(())
}

/// The names of the nodes that an expression calls.
fn called_in(alloc: Global, e: &Expr) -> Result<Vec<&str>, AllocError>
    ensures { IfOk result (λ called. spelled called.items ≡ names_called (calls_in (view e.now))) }
{
    let mut called = Vec::new(alloc);
    push_called(&mut called, e)?;
    Ok(called)
}

/// The name of the call of this number, of a node of this name, in the equation of this first variable.
fn step_name(alloc: Global, first: &str, called: &str, number: usize) -> Result<Name, AllocError>
    ensures { IfOk result (λ name. name ≡ first.now ++ (codes "." ++ (called.now ++ (codes "#"
        ++ decimal number)))) }
{
    Ok(Name::new(format!(in alloc; "{first}.{called}#{number}")?))
}

/// Puts the names of the calls of an equation behind those before.
fn push_steps(alloc: Global, equation: &Equation, steps: &mut Vec<Name>) -> Result<(), AllocError>
    ensures { OnOk result (steps.new.items ≡ steps.old.items
        ++ equation_steps (equation_view equation.now)) }
{
    let first = name_in(equation.left.as_slice(), 0);
    let called = called_in(alloc, &equation.right)?;
    for k in 0..called.len() {
        steps.push(step_name(alloc, first, called[k], k + 1)?)?;
    }
    Ok(())
}

/// The names of the calls of a node, in order of their numbers. The time grows with the length of the node's
/// text.
pub fn steps_of(alloc: Global, node: &Node) -> Result<Row<Name>, AllocError>
    ensures { IfOk result (λ steps. steps ≡ steps_of (node_view node.now)) }
{
    let mut steps = Vec::new(alloc);
    for equation in node.equations.as_slice() {
        push_steps(alloc, equation, &mut steps)?;
    }
    Ok(Row::new(steps))
}
