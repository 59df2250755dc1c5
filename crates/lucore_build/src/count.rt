//! The counts of expressions and of one node.

ghost use Rattle.std.specs.Prelude.{◌≡◌, ◌+◌, ◌-◌};
ghost use Rattle.lutree.specs.Tree.{view, views, trees_of, node_view, program_view};
ghost use Rattle.lucore_laws.specs.Sizes.{size_of, root_size, made_size, all_size, node_size};
ghost use Rattle.lucore_build.specs.Counted.{capped, further};

use lustat_rules::Catalog;
use lutree::{Expr, Infix, Node};

/// The most that is counted: one more than the most flows that a flat list may have.
const MOST: usize = 4097;

/// The sum of two numbers, up to 4,097.
fn capped_sum(a: usize, b: usize) -> usize
    ensures { result ≡ capped (a + b) }
{
    a.saturating_add(b).min(MOST)
}

/// The count of the node that a name means, given the counts of all nodes; 0 where it means none.
pub fn count_of(catalog: &Catalog, counts: &[usize], name: &str) -> usize
    ensures { result ≡ size_of (program_view catalog.now) counts.now name.now }
{
    match catalog.place(name) {
        Some(place) if place < counts.len() => counts[place],
        _ => 0,
    }
}

/// How many flows the root of an expression is: none for a variable and a call, one for any other.
fn root(e: &Expr) -> usize
    ensures { result ≡ root_size (view e.now) }
{
    match e {
        Expr::Variable(_) | Expr::Call(_, _) => 0,
        _ => 1,
    }
}

/// How many flows an operator makes between its operands and its own flow: `a fby b` makes `pre b`.
fn further(op: Infix) -> usize
    ensures { result ≡ further op }
{
    match op {
        Infix::FollowedBy => 1,
        Infix::Data(_) | Infix::Arrow => 0,
    }
}

/// What an expression makes, up to 4,097: its inner flows, of which the count is given, and its root.
fn with_root(inner: usize, e: &Expr) -> usize
    ensures { result ≡ capped (inner + root_size (view e.now)) }
{
    capped_sum(inner, root(e))
}

/// How many flows an expression makes before its root, up to 4,097, given the counts of all nodes.
#[cycle(made)]
fn inner(catalog: &Catalog, counts: &[usize], e: &Expr) -> usize
    ensures { result ≡ capped (made_size (program_view catalog.now) counts.now (view e.now) -
        root_size (view e.now)) }
{
    match e {
        Expr::Number(_) | Expr::Truth(_) | Expr::Label(_) | Expr::Variable(_) | Expr::Current(_) =>
            0,
        Expr::Unary(_, a) | Expr::When(a, _) => with_root(inner(catalog, counts, a), a),
        Expr::Binary(op, a, b) => {
            let left = with_root(inner(catalog, counts, a), a);
            let right = with_root(inner(catalog, counts, b), b);
            capped_sum(capped_sum(left, right), further(*op))
        }
        Expr::Merge(_, _, branches) => all_made(catalog, counts, branches),
        Expr::If(c, a, b) => {
            let condition = with_root(inner(catalog, counts, c), c);
            let left = with_root(inner(catalog, counts, a), a);
            let right = with_root(inner(catalog, counts, b), b);
            capped_sum(capped_sum(condition, left), right)
        }
        Expr::Call(f, arguments) => {
            let made = all_made(catalog, counts, arguments);
            capped_sum(made, count_of(catalog, counts, f.as_str()))
        }
    }
}

/// How many flows the arguments of a call, or the branches of a merge, make, up to 4,097.
#[cycle(made)]
fn all_made(catalog: &Catalog, counts: &[usize], arguments: &[Expr]) -> usize
    ensures { result ≡ capped (all_size (program_view catalog.now) counts.now
        (trees_of (views arguments.now))) }
{
    let mut count = 0;
    for a in arguments {
        let made = with_root(inner(catalog, counts, a), a);
        count = capped_sum(count, made);
    }
    count
}

/// How many flows the open list of a node has, its variables and the inner flows of its equations, up to
/// 4,097, given the counts of all nodes.
pub fn node_count(catalog: &Catalog, counts: &[usize], node: &Node) -> usize
    ensures { result ≡ capped (node_size (program_view catalog.now) counts.now
        (node_view node.now)) }
{
    let inputs = node.inputs.as_slice().len();
    let outputs = node.outputs.as_slice().len();
    let locals = node.locals.as_slice().len();
    let mut count = capped_sum(capped_sum(inputs, outputs), locals);
    for equation in node.equations.as_slice() {
        count = capped_sum(count, inner(catalog, counts, &equation.right));
    }
    count
}
