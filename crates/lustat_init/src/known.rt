//! Whether what equations define is declared.

ghost use Rattle.std.specs.Prelude.{◌≡◌, ◌↔◌, IsTrue, All};
ghost use Rattle.lutree.specs.declared.program.Equation.{Equation};
ghost use Rattle.lutree.specs.declared.program.Node.{Node};
ghost use Rattle.lutree.specs.Tree.{node_view, program_view};
ghost use Rattle.lustat_rules.specs.Scope.{IsVariable};
ghost use Rattle.lustat_init.specs.Assigned.{LeftsKnown};

use lubase::Name;
use lustat_rules::{Catalog, Scope};
use lutree::Equation;

/// Whether a name is declared.
fn is_known(scope: &Scope, name: &str) -> bool
    ensures { IsTrue result ↔ IsVariable (node_view scope.now) name.now }
{
    scope.find(name).is_some()
}

/// Whether names are declared.
fn are_known(scope: &Scope, names: &[Name]) -> bool
    ensures { IsTrue result ↔ All (IsVariable (node_view scope.now)) names.now }
{
    names.iter().all(|x| is_known(scope, x.as_str()))
}

/// Whether what an equation defines is declared.
fn left_is_known(scope: &Scope, equation: &Equation) -> bool
    ensures { IsTrue result ↔ All (IsVariable (node_view scope.now)) equation.now.left }
{
    are_known(scope, equation.left.as_slice())
}

/// Whether what equations define is declared.
fn all_known(scope: &Scope, equations: &[Equation]) -> bool
    ensures { IsTrue result ↔ All (λ (q : Equation). All (IsVariable (node_view scope.now)) q.left)
        equations.now }
{
    equations.iter().all(|q| left_is_known(scope, q))
}

/// Whether all variables that the equations of a node define are declared, as [`crate::least_classes`] asks.
/// A node that keeps the rules of names has no others. Takes no memory.
pub fn lefts_are_known(scope: &Scope) -> bool
    ensures { IsTrue result ↔ LeftsKnown (node_view scope.now) }
{
    all_known(scope, scope.node().equations.as_slice())
}

/// Whether what the equations of nodes define is declared.
fn scopes_known(scopes: &[Scope]) -> bool
    ensures { IsTrue result ↔ All (λ (n : Node). LeftsKnown (node_view n)) scopes.now }
{
    scopes.iter().all(|scope| lefts_are_known(scope))
}

/// Whether all variables that the equations of a program define are declared, as [`crate::initialise`] asks.
/// A program that keeps the rules of names has no others. Takes no memory.
pub fn all_lefts_known(catalog: &Catalog) -> bool
    ensures { IsTrue result ↔ All LeftsKnown (program_view catalog.now).nodes }
{
    scopes_known(catalog.scopes())
}
