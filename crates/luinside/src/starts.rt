//! Where the instances of a node's calls begin in its list.

ghost use Rattle.std.specs.Prelude.{◌≡◌, ◌≤◌, ◌+◌, ◌++◌, IfOk, OnOk};
ghost use Rattle.lutree.specs.Tree.{view, views, trees_of, node_view, program_view};
ghost use Rattle.lucore_laws.specs.Sizes.{root_size, made_size, all_size, node_size};
ghost use Rattle.luinside.specs.Starts.{own_size, starts, all_starts, node_starts};

use lucore_build::count_of;
use lustat_rules::Catalog;
use lutree::{Expr, Infix, Node};
use std::alloc::{AllocError, Global};

/// A call in a node.
#[derive(Clone, Copy)]
pub struct CallStart {
    /// The place of the called node in the program's text, counted from 0; none where the call means no node.
    pub node: Option<usize>,
    /// The place in the node's list of the first variable of the call's instance.
    pub at: usize,
}

/// How many flows the root of an expression is: none for a variable and a call, one for any other.
fn root(e: &Expr) -> usize
    ensures { result ≡ root_size (view e.now) }
{
    match e {
        Expr::Variable(_) | Expr::Call(_, _) => 0,
        _ => 1,
    }
}

/// How many flows an operator between two operands makes.
fn made(op: Infix) -> usize
    ensures { result ≡ own_size op }
{
    match op {
        Infix::FollowedBy => 2,
        Infix::Data(_) | Infix::Arrow => 1,
    }
}

/// Puts the calls of an expression, of which the first flow has a place, behind those before, and gives the
/// place behind its flows.
#[cycle(starts)]
fn push_starts(
    catalog: &Catalog,
    counts: &[usize],
    e: &Expr,
    at: usize,
    found: &mut Vec<CallStart>,
) -> Result<usize, AllocError>
    requires { at + made_size (program_view catalog.now) counts.now (view e.now) ≤ 4097 }
    ensures behind { IfOk result (λ behind. behind ≡ at + made_size (program_view catalog.now)
        counts.now (view e.now)) }
    ensures found { OnOk result (found.new.items ≡ found.old.items
        ++ starts (program_view catalog.now) counts.now (view e.now) at) }
{
    match e {
        Expr::Number(_) | Expr::Truth(_) | Expr::Label(_) | Expr::Current(_) => Ok(at + 1),
        Expr::Variable(_) => Ok(at),
        Expr::Unary(_, a) | Expr::When(a, _) => {
            let behind = push_starts(catalog, counts, a, at, found)?;
            Ok(behind + 1)
        }
        Expr::Binary(op, a, b) => {
            let middle = push_starts(catalog, counts, a, at, found)?;
            let behind = push_starts(catalog, counts, b, middle, found)?;
            Ok(behind + made(*op))
        }
        Expr::If(c, a, b) => {
            let first = push_starts(catalog, counts, c, at, found)?;
            let second = push_starts(catalog, counts, a, first, found)?;
            let behind = push_starts(catalog, counts, b, second, found)?;
            Ok(behind + 1)
        }
        Expr::Merge(_, _, branches) => {
            let behind = push_all(catalog, counts, branches, at, found)?;
            Ok(behind + 1)
        }
        Expr::Call(f, arguments) => {
            let start = push_all(catalog, counts, arguments, at, found)?;
            found.push(CallStart {
                node: catalog.place(f.as_str()),
                at: start,
            })?;
            Ok(start + count_of(catalog, counts, f.as_str()))
        }
    }
}

/// The same of the arguments of a call, or the branches of a merge.
#[cycle(starts)]
fn push_all(
    catalog: &Catalog,
    counts: &[usize],
    arguments: &[Expr],
    at: usize,
    found: &mut Vec<CallStart>,
) -> Result<usize, AllocError>
    requires { at + all_size (program_view catalog.now) counts.now
        (trees_of (views arguments.now)) ≤ 4097 }
    ensures behind { IfOk result (λ behind. behind ≡ at + all_size (program_view catalog.now)
        counts.now (trees_of (views arguments.now))) }
    ensures found { OnOk result (found.new.items ≡ found.old.items
        ++ all_starts (program_view catalog.now) counts.now (trees_of (views arguments.now)) at) }
{
    let mut behind = at;
    for a in arguments {
        behind = push_starts(catalog, counts, a, behind, found)?;
    }
    Ok(behind)
}

/// The calls of a node, in order of their numbers, given the counts of all nodes.
///
/// # Errors
///
/// An error means that memory ran out.
pub fn call_starts(
    alloc: Global,
    catalog: &Catalog,
    counts: &[usize],
    node: &Node,
) -> Result<Vec<CallStart>, AllocError>
    requires { node_size (program_view catalog.now) counts.now (node_view node.now) ≤ 4096 }
    ensures { IfOk result (λ found. found.items ≡ node_starts (program_view catalog.now)
        counts.now (node_view node.now)) }
{
    let inputs = node.inputs.as_slice().len();
    let outputs = node.outputs.as_slice().len();
    let locals = node.locals.as_slice().len();
    let mut at = inputs + outputs + locals;
    let mut found = Vec::new(alloc);
    for equation in node.equations.as_slice() {
        let behind = push_starts(catalog, counts, &equation.right, at, &mut found)?;
        at = behind - root(&equation.right);
    }
    Ok(found)
}
