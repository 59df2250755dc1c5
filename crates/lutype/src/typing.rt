//! The types of expressions.

ghost use Rattle.std.specs.Prelude.{◌≡◌, ◌↔◌, ◌∷◌, [], List, Option, Some, IsTrue, map, option_map};
ghost use Rattle.lutree.specs.declared.program.Kind.{Kind};
ghost use Rattle.lutree.specs.Tree.{view, views, trees_of, node_view, program_view, equation_view, declarations_view};
ghost use Rattle.lustat_rules.specs.Scope.{node_called, kind_of};
ghost use Rattle.lustat_rules.specs.Typing.{type_of, types_of, agreed_all, arguments_fit, call_kinds, only, IsWellTyped};

use crate::calls::call_in;
use crate::{agreed_kind, is_of_kind, kind_of_binary, kind_of_choice, kind_of_unary, kind_with};
use lubase::Name;
use lustat_rules::{Catalog, Scope};
use lutree::{Declaration, Equation, Expr, Infix, Kind, Prefix};

/// The type of a node's one output.
pub fn only_kind(outputs: &[Declaration]) -> Option<Kind>
    ensures { result ≡ only (Some (map (λ d. d.kind) (declarations_view outputs.now))) }
{
    match outputs {
        [d] => Some(d.kind),
        _ => None,
    }
}

/// The type of an expression in a node, or none where it has none.
#[cycle(types)]
pub fn kind_of_expr(catalog: &Catalog, scope: &Scope, e: &Expr) -> Option<Kind>
    ensures { result ≡ type_of (program_view catalog.now) (node_view scope.now) (view e.now) }
{
    match e {
        Expr::Number(_) => Some(Kind::Int),
        Expr::Truth(_) => Some(Kind::Bool),
        Expr::Label(l) => Some(l.kind),
        Expr::Variable(x) | Expr::Current(x) => scope.kind(x.as_str()),
        Expr::Unary(Prefix::Data(op), a) => agreed_kind(
            Some(kind_of_unary(*op)),
            kind_of_expr(catalog, scope, a),
        ),
        Expr::Unary(Prefix::Pre, a) | Expr::When(a, _) => kind_of_expr(catalog, scope, a),
        Expr::Binary(Infix::Data(op), a, b) => kind_of_binary(
            *op,
            kind_of_expr(catalog, scope, a),
            kind_of_expr(catalog, scope, b),
        ),
        Expr::Binary(Infix::Arrow | Infix::FollowedBy, a, b) => agreed_kind(
            kind_of_expr(catalog, scope, a),
            kind_of_expr(catalog, scope, b),
        ),
        Expr::If(c, a, b) => kind_of_choice(
            kind_of_expr(catalog, scope, c),
            kind_of_expr(catalog, scope, a),
            kind_of_expr(catalog, scope, b),
        ),
        Expr::Merge(_, _, branches) => kind_of_branches(catalog, scope, branches),
        Expr::Call(f, arguments) => kind_of_call(catalog, scope, f.as_str(), arguments),
    }
}

/// The type that all branches of a merge have.
#[cycle(types)]
fn kind_of_branches(catalog: &Catalog, scope: &Scope, branches: &[Expr]) -> Option<Kind>
    ensures { result ≡ agreed_all (types_of (program_view catalog.now) (node_view scope.now)
        (trees_of (views branches.now))) }
{
    let mut all = None;
    for (i, e) in branches.iter().enumerate() {
        let kind = kind_of_expr(catalog, scope, e);
        all = kind_with(i, all, kind);
    }
    all
}

/// The type of a call.
#[cycle(types)]
fn kind_of_call(catalog: &Catalog, scope: &Scope, f: &str, arguments: &[Expr]) -> Option<Kind>
    ensures { result ≡ only (call_kinds (node_called (program_view catalog.now) f.now)
        (types_of (program_view catalog.now) (node_view scope.now)
        (trees_of (views arguments.now)))) }
{
    match catalog.find(f) {
        None => None,
        Some(called) => {
            let node = called.node();
            if arguments_have_kinds(catalog, scope, arguments, node.inputs.as_slice()) {
                only_kind(node.outputs.as_slice())
            } else {
                None
            }
        }
    }
}

/// Whether the arguments of a call are those that a node takes.
#[cycle(types)]
fn arguments_have_kinds(
    catalog: &Catalog,
    scope: &Scope,
    arguments: &[Expr],
    inputs: &[Declaration],
) -> bool
    ensures { result ≡ arguments_fit (types_of (program_view catalog.now) (node_view scope.now)
        (trees_of (views arguments.now))) (declarations_view inputs.now) }
{
    for (i, a) in arguments.iter().enumerate() {
        if i >= inputs.len() || !is_of_kind(kind_of_expr(catalog, scope, a), inputs[i].kind) {
            return false;
        }
    }
    arguments.len() == inputs.len()
}

/// Whether the variables of a left side have the types of outputs.
fn left_has_kinds(scope: &Scope, left: &[Name], outputs: &[Declaration]) -> bool
    ensures { result ≡ arguments_fit (map (kind_of (node_view scope.now)) left.now)
        (declarations_view outputs.now) }
{
    for (i, x) in left.iter().enumerate() {
        if i >= outputs.len() || !is_of_kind(scope.kind(x.as_str()), outputs[i].kind) {
            return false;
        }
    }
    left.len() == outputs.len()
}

/// Whether the variables of a left side are what a call gives.
fn call_is_well_typed(
    catalog: &Catalog,
    scope: &Scope,
    left: &[Name],
    f: &str,
    arguments: &[Expr],
) -> bool
    ensures { IsTrue result ↔ ((kinds : List Kind) × (call_kinds
        (node_called (program_view catalog.now) f.now)
        (types_of (program_view catalog.now) (node_view scope.now)
        (trees_of (views arguments.now))) ≡ Some kinds)
        × (map (kind_of (node_view scope.now)) left.now ≡ map Some kinds)) }
{
    match catalog.find(f) {
        None => false,
        Some(called) => {
            let node = called.node();
            arguments_have_kinds(catalog, scope, arguments, node.inputs.as_slice())
                && left_has_kinds(scope, left, node.outputs.as_slice())
        }
    }
}

/// Whether a left side is one variable of a type.
fn value_is_well_typed(scope: &Scope, left: &[Name], kind: Option<Kind>) -> bool
    ensures { IsTrue result ↔ ((kinds : List Kind) × (option_map (λ k. k ∷ []) kind ≡ Some kinds)
        × (map (kind_of (node_view scope.now)) left.now ≡ map Some kinds)) }
{
    match kind {
        None => false,
        Some(kind) => match left {
            [x] => is_of_kind(scope.kind(x.as_str()), kind),
            _ => false,
        },
    }
}

/// Whether the right side of an equation has the types of the variables on the left.
pub fn is_well_typed(catalog: &Catalog, scope: &Scope, equation: &Equation) -> bool
    ensures { IsTrue result ↔ IsWellTyped (program_view catalog.now) (node_view scope.now)
        (equation_view equation.now) }
{
    let left = equation.left.as_slice();
    match call_in(&equation.right) {
        None => value_is_well_typed(scope, left, kind_of_expr(catalog, scope, &equation.right)),
        Some((f, arguments)) => call_is_well_typed(catalog, scope, left, f.as_str(), arguments),
    }
}
