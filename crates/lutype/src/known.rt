//! Whether names are known.

ghost use Rattle.std.specs.Prelude.{◌≡◌, ◌↔◌, IsTrue, All, IsSome, map};
ghost use Rattle.lutree.specs.Tree.{view, views, trees_of, node_view, program_view, declaration_view, equation_view};
ghost use Rattle.lustat_rules.specs.Scope.{IsVariable};
ghost use Rattle.lustat_rules.specs.Naming.{names_in, NamesKnown, ClockKnown, DeclarationKnown};
ghost use Rattle.lutype.specs.Forms.{EachName, EachNameOf};

use crate::enumerations::{pattern_is_known, type_is_known};
use crate::parts::labels_are_known;
use lubase::Name;
use lustat_rules::{Catalog, Scope};
use lutree::{Declaration, Equation, Expr};

/// Whether a name is a variable of a node.
fn is_variable(scope: &Scope, name: &str) -> bool
    ensures { IsTrue result ↔ IsVariable (node_view scope.now) name.now }
{
    scope.find(name).is_some()
}

/// Whether the names of an expression are known.
#[cycle(known)]
fn expr_is_known(scope: &Scope, e: &Expr) -> bool
    ensures { IsTrue result ↔ EachName (IsVariable (node_view scope.now)) (view e.now) }
{
    match e {
        Expr::Number(_) | Expr::Truth(_) | Expr::Label(_) => true,
        Expr::Variable(x) | Expr::Current(x) => is_variable(scope, x.as_str()),
        Expr::Unary(_, a) => expr_is_known(scope, a),
        Expr::Binary(_, a, b) => expr_is_known(scope, a) && expr_is_known(scope, b),
        Expr::If(c, a, b) => {
            expr_is_known(scope, c) && expr_is_known(scope, a) && expr_is_known(scope, b)
        }
        Expr::When(a, c) => expr_is_known(scope, a) && is_variable(scope, c.variable.as_str()),
        Expr::Merge(c, _, branches) => {
            is_variable(scope, c.as_str()) && all_are_known(scope, branches)
        }
        Expr::Call(_, arguments) => all_are_known(scope, arguments),
    }
}

/// Whether the names of all arguments of a call or branches of a merge are known.
#[cycle(known)]
fn all_are_known(scope: &Scope, arguments: &[Expr]) -> bool
    ensures { IsTrue result ↔ EachNameOf (IsVariable (node_view scope.now))
        (trees_of (views arguments.now)) }
{
    for a in arguments {
        if expr_is_known(scope, a) {
            continue;
        }
        return false;
    }
    true
}

/// Whether the variables of a left side are known.
fn left_is_known(scope: &Scope, left: &[Name]) -> bool
    ensures { IsTrue result ↔ All (IsVariable (node_view scope.now)) left.now }
{
    for x in left {
        if is_variable(scope, x.as_str()) {
            continue;
        }
        return false;
    }
    true
}

/// Whether the variables of an equation are known.
fn variables_are_known(scope: &Scope, equation: &Equation) -> bool
    ensures { IsTrue result ↔ (All (IsVariable (node_view scope.now)) equation.now.left
        × All (IsVariable (node_view scope.now)) (names_in (view equation.now.right))) }
{
    left_is_known(scope, equation.left.as_slice()) && expr_is_known(scope, &equation.right)
}

/// Whether the names of an equation are known.
pub fn names_are_known(catalog: &Catalog, scope: &Scope, equation: &Equation) -> bool
    ensures { IsTrue result ↔ NamesKnown (program_view catalog.now) (node_view scope.now)
        (equation_view equation.now) }
{
    variables_are_known(scope, equation) && labels_are_known(catalog, scope, &equation.right)
}

/// Whether the names in a declared clock are known.
fn clock_is_known(catalog: &Catalog, scope: &Scope, declaration: &Declaration) -> bool
    ensures { IsTrue result ↔ ClockKnown (program_view catalog.now) (node_view scope.now)
        (declaration_view declaration.now) }
{
    match &declaration.clock {
        None => true,
        Some(c) => {
            is_variable(scope, c.variable.as_str()) && pattern_is_known(catalog, &c.pattern)
        }
    }
}

/// Whether the names of a declaration are known.
pub fn declaration_is_known(catalog: &Catalog, scope: &Scope, declaration: &Declaration) -> bool
    ensures { IsTrue result ↔ DeclarationKnown (program_view catalog.now) (node_view scope.now)
        (declaration_view declaration.now) }
{
    type_is_known(catalog, declaration) && clock_is_known(catalog, scope, declaration)
}
