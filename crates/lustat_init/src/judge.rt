//! Which equations keep the rules of classes.

ghost use Rattle.std.specs.Prelude.{◌≡◌, ◌↔◌, ◌++◌, ◌∷◌, [], IsTrue, All, IfOk, OnOk, map, option_copied, option_to_list};
ghost use Rattle.lutree.specs.Tree.{equation_view, node_view, view, views, trees_of};
ghost use Rattle.lustat_rules.specs.Clocks.{clocks_in, clocks_in_all};
ghost use Rattle.lustat_init.specs.Assigned.{assigned};
ghost use Rattle.lustat_rules.specs.Lent.{lent_view};
ghost use Rattle.lustat_init.specs.Judged.{spelled, clock_names_of, clock_names, sampler_names, clock_variables, IsFree, KeepsClasses};

use crate::class::{is_one, needs_met};
use lubase::Name;
use lustat_rules::{Places, Scope};
use lutree::{Declaration, Equation, Expr};
use std::alloc::{AllocError, Global};

/// The name in a declared clock.
fn clock_name(declaration: &Declaration) -> Option<&str>
    ensures { option_to_list (option_copied result) ≡ clock_names_of declaration.now.clock }
{
    match &declaration.clock {
        None => None,
        Some(c) => Some(c.variable.as_str()),
    }
}

/// The names in declared clocks.
fn names_of_clocks<'a>(
    alloc: Global,
    declarations: &[&'a Declaration],
) -> Result<Vec<&'a str>, AllocError>
    ensures { IfOk result
        (λ names. spelled names.items ≡ clock_names (lent_view declarations.now)) }
{
    let mut names = Vec::new(alloc);
    for d in declarations {
        if let Some(x) = clock_name(d) {
            names.push(x)?;
        }
    }
    Ok(names)
}

/// What `when` or `merge` names, behind what was named before.
fn push_sampler<'a>(names: &mut Vec<&'a str>, name: &'a str) -> Result<(), AllocError>
    ensures { OnOk result
        (spelled names.new.items ≡ spelled names.old.items ++ name.now ∷ []) }
{
    names.push(name)?;
    Ok(())
}

/// What `when` and `merge` name in an expression, behind what was named before.
#[cycle(samplers)]
fn push_samplers<'a>(names: &mut Vec<&'a str>, e: &'a Expr) -> Result<(), AllocError>
    ensures { OnOk result
        (spelled names.new.items ≡ spelled names.old.items ++ clocks_in (view e.now)) }
{
    match e {
        Expr::Number(_) | Expr::Truth(_) | Expr::Label(_) | Expr::Variable(_) | Expr::Current(_) =>
            Ok(()),
        Expr::Unary(_, a) => push_samplers(names, a),
        Expr::Binary(_, a, b) => {
            push_samplers(names, a)?;
            push_samplers(names, b)
        }
        Expr::If(c, a, b) => {
            push_samplers(names, c)?;
            push_samplers(names, a)?;
            push_samplers(names, b)
        }
        Expr::When(a, c) => {
            push_samplers(names, a)?;
            push_sampler(names, c.variable.as_str())
        }
        Expr::Merge(c, _, branches) => {
            push_sampler(names, c.as_str())?;
            push_samplers_of_all(names, branches)
        }
        Expr::Call(_, arguments) => push_samplers_of_all(names, arguments),
    }
}

/// Puts the samplers in the arguments of a call or the branches of a merge behind others.
#[cycle(samplers)]
fn push_samplers_of_all<'a>(
    names: &mut Vec<&'a str>,
    arguments: &'a [Expr],
) -> Result<(), AllocError>
    ensures { OnOk result (spelled names.new.items
        ≡ spelled names.old.items ++ clocks_in_all (trees_of (views arguments.now))) }
{
    for a in arguments {
        push_samplers(names, a)?;
    }
    Ok(())
}

/// Puts the samplers on the right of equations behind others.
fn push_samplers_of_equations<'a>(
    names: &mut Vec<&'a str>,
    equations: &'a [Equation],
) -> Result<(), AllocError>
    ensures { OnOk result (spelled names.new.items
        ≡ spelled names.old.items ++ sampler_names (map equation_view equations.now)) }
{
    for q in equations {
        push_samplers(names, &q.right)?;
    }
    Ok(())
}

/// The variables of a node that the clocks of declarations, `when` and `merge` name, with a table of them.
/// The time grows with the length of the node.
///
/// # Errors
///
/// An error means that memory ran out.
pub fn clocks_named<'a>(alloc: Global, scope: &Scope<'a>) -> Result<Places<'a>, AllocError>
    ensures { IfOk result (λ named. named ≡ clock_variables (node_view scope.now)) }
{
    let mut names = names_of_clocks(alloc, scope.declarations())?;
    push_samplers_of_equations(&mut names, scope.node().equations.as_slice())?;
    Places::new(alloc, names)
}

/// Whether a variable is no input and no output, and no clock names it.
fn is_free(scope: &Scope, named: &Places, name: &str) -> bool
    requires { named.now ≡ clock_variables (node_view scope.now) }
    ensures { IsTrue result ↔ IsFree (node_view scope.now) name.now }
{
    if scope.is_input(name) {
        return false;
    }
    if scope.is_output(name) {
        return false;
    }
    !named.has(name)
}

/// Whether all variables are no inputs and no outputs, and no clock names one of them.
fn are_free(scope: &Scope, named: &Places, names: &[Name]) -> bool
    requires { named.now ≡ clock_variables (node_view scope.now) }
    ensures { IsTrue result ↔ All (IsFree (node_view scope.now)) names.now }
{
    for x in names {
        if is_free(scope, named, x.as_str()) {
            continue;
        }
        return false;
    }
    true
}

/// Whether an equation keeps the rules of classes: what its right side needs in class 0 is there, and where
/// it is of class 1 it defines no input, no output and no variable that a clock names. `classes` are the
/// marks by place of declaration, `named` is what [`clocks_named`] gives. The time grows with the length of
/// the equation. Takes no memory.
pub fn keeps_classes(scope: &Scope, classes: &[bool], named: &Places, equation: &Equation) -> bool
    requires { named.now ≡ clock_variables (node_view scope.now) }
    ensures { IsTrue result
        ↔ KeepsClasses (assigned (node_view scope.now) classes.now) (node_view scope.now)
        (equation_view equation.now) }
{
    if !needs_met(scope, classes, &equation.right) {
        return false;
    }
    if !is_one(scope, classes, &equation.right) {
        return true;
    }
    are_free(scope, named, equation.left.as_slice())
}
