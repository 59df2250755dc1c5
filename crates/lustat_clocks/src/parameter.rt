//! Inputs and outputs on the base clock.

ghost use Rattle.std.specs.Prelude.{◌≡◌, ◌↔◌, IsTrue, All, IfSome};
ghost use Rattle.lutree.specs.Tree.{ProgramTree, declaration_view, declarations_view, equation_view, node_view, program_view, view, views, trees_of};
ghost use Rattle.lustat_rules.specs.Scope.{node_called};
ghost use Rattle.lustat_rules.specs.Clocks.{base, IsUnclocked, HasUnclockedOutputs, CallsAreUnclocked, IsVisible};
ghost use Rattle.lutree.specs.declared.program.Declaration.{Declaration};
ghost use Rattle.lustat_clocks.specs.Named.{EachCall, EachCallOfAll, IsOther};

use lubase::Name;
use lustat_rules::{Catalog, Scope};
use lutree::{Declaration, Equation, Expr};

/// `E22` at a declaration: an input is on the base clock, and so is an output where the node isn't the main
/// one.
pub fn is_unclocked(scope: &Scope, declaration: &Declaration, main: &str) -> bool
    ensures { IsTrue result ↔ IsUnclocked main.now (node_view scope.now)
        (declaration_view declaration.now) }
{
    let name = declaration.name.as_str();
    declaration.clock.is_none()
        || !scope.is_input(name) && (scope.node().name.as_str() == main || !scope.is_output(name))
}

/// `E23`: an output of the main node is on the base clock, or on one that an input or an output names.
pub fn is_visible(scope: &Scope, declaration: &Declaration, main: &str) -> bool
    ensures { IsTrue result ↔ IsVisible main.now (node_view scope.now)
        (declaration_view declaration.now) }
{
    match &declaration.clock {
        None => true,
        Some(c) => {
            let name = c.variable.as_str();
            scope.node().name.as_str() != main
                || !scope.is_output(declaration.name.as_str())
                || scope.is_input(name)
                || scope.is_output(name)
        }
    }
}

/// Whether all outputs are on the base clock.
fn are_unclocked(outputs: &[Declaration]) -> bool
    ensures { IsTrue result ↔ All (λ (d : Declaration). d.clock ≡ base) outputs.now }
{
    outputs.iter().all(|d| d.clock.is_none())
}

/// Whether the main node, if there is one, has all its outputs on the base clock.
pub fn main_is_unclocked(catalog: &Catalog, main: &str) -> bool
    ensures { IsTrue result ↔ IfSome (node_called (program_view catalog.now) main.now)
        HasUnclockedOutputs }
{
    match catalog.find(main) {
        None => true,
        Some(scope) => are_unclocked(scope.node().outputs.as_slice()),
    }
}

/// Whether a name is spelled otherwise.
fn is_other(f: &Name, name: &str) -> bool
    ensures { IsTrue result ↔ IsOther name.now f.now }
{
    f.as_str() != name
}

/// Whether no call in an expression is of a node.
#[cycle(calls)]
fn calls_no(e: &Expr, name: &str) -> bool
    ensures { IsTrue result ↔ EachCall (IsOther name.now) (view e.now) }
{
    match e {
        Expr::Number(_) | Expr::Truth(_) | Expr::Label(_) | Expr::Variable(_) | Expr::Current(_) =>
            true,
        Expr::Unary(_, a) => calls_no(a, name),
        Expr::Binary(_, a, b) => calls_no(a, name) && calls_no(b, name),
        Expr::If(c, a, b) => calls_no(c, name) && calls_no(a, name) && calls_no(b, name),
        Expr::When(a, _) => calls_no(a, name),
        Expr::Merge(_, _, branches) => all_call_no(branches, name),
        Expr::Call(f, arguments) => all_call_no(arguments, name) && is_other(f, name),
    }
}

/// Whether no call in the arguments of a call or the branches of a merge is of a node.
#[cycle(calls)]
fn all_call_no(arguments: &[Expr], name: &str) -> bool
    ensures { IsTrue result ↔ EachCallOfAll (IsOther name.now) (trees_of (views arguments.now)) }
{
    for a in arguments {
        if calls_no(a, name) {
            continue;
        }
        return false;
    }
    true
}

/// `E22` at an equation: the main node is called only where all its outputs are on the base clock.
/// `unclocked` is what [`main_is_unclocked`] reports. Takes no memory.
pub fn calls_unclocked(equation: &Equation, main: &str, unclocked: bool) -> bool
    ensures { (p : ProgramTree)
        → (IsTrue unclocked ↔ IfSome (node_called p main.now) HasUnclockedOutputs)
        → IsTrue result ↔ CallsAreUnclocked p main.now (equation_view equation.now) }
{
    unclocked || calls_no(&equation.right, main)
}
