//! The least classes.

ghost use Rattle.std.specs.Prelude.{◌≡◌, ◌≤◌, ◌<◌, ◌+◌, ◌++◌, ◌^◌, length, IfOk, OnOk, map};
ghost use Rattle.lutree.specs.Tree.{view, equation_view, node_view};
ghost use Rattle.lustat_rules.specs.Classes.{IsLeast};
ghost use Rattle.lustat_init.specs.Assigned.{place_of, assigned, LeftsKnown, IsCaused};
ghost use Rattle.lustat_init.specs.Linked.{read_link, write_link, reads_in, writes_in, links_in, AreStarts};

use crate::class::is_one;
use lubase::{Link, Name, reached};
use lustat_rules::Scope;
use lutree::{Equation, Expr, Infix, Prefix};
use std::alloc::{AllocError, Global};

/// A link from a variable to an equation.
fn push_read(
    links: &mut Vec<Link>,
    scope: &Scope,
    name: &str,
    equation: usize,
) -> Result<(), AllocError>
    ensures { OnOk result (links.new.items ≡ links.old.items
        ++ read_link (place_of (node_view scope.now) name.now) equation) }
{
    if let Some(v) = scope.place(name) {
        links.push(Link {
            from: v,
            to: equation,
        })?;
    }
    Ok(())
}

/// Links to an equation from the variables that its right side takes its class from.
fn push_reads(
    links: &mut Vec<Link>,
    scope: &Scope,
    e: &Expr,
    equation: usize,
) -> Result<(), AllocError>
    ensures { OnOk result (links.new.items ≡ links.old.items
        ++ reads_in (node_view scope.now) equation (view e.now)) }
{
    match e {
        Expr::Variable(x) => push_read(links, scope, x.as_str(), equation),
        Expr::Unary(Prefix::Data(_), a) => push_reads(links, scope, a, equation),
        Expr::Binary(Infix::Data(_), a, b) => {
            push_reads(links, scope, a, equation)?;
            push_reads(links, scope, b, equation)
        }
        Expr::Binary(Infix::Arrow, a, _) => push_reads(links, scope, a, equation),
        Expr::Binary(Infix::FollowedBy, a, _) => push_reads(links, scope, a, equation),
        Expr::If(c, a, b) => {
            push_reads(links, scope, c, equation)?;
            push_reads(links, scope, a, equation)?;
            push_reads(links, scope, b, equation)
        }
        Expr::When(a, _) => push_reads(links, scope, a, equation),
        _ => Ok(()),
    }
}

/// A link from an equation to a variable.
fn push_write(
    links: &mut Vec<Link>,
    scope: &Scope,
    name: &str,
    equation: usize,
) -> Result<(), AllocError>
    ensures { OnOk result (links.new.items ≡ links.old.items
        ++ write_link equation (place_of (node_view scope.now) name.now)) }
{
    if let Some(v) = scope.place(name) {
        links.push(Link {
            from: equation,
            to: v,
        })?;
    }
    Ok(())
}

/// Links from an equation to the variables that it defines.
fn push_writes(
    links: &mut Vec<Link>,
    scope: &Scope,
    names: &[Name],
    equation: usize,
) -> Result<(), AllocError>
    ensures { OnOk result (links.new.items ≡ links.old.items
        ++ writes_in (node_view scope.now) equation names.now) }
{
    for x in names {
        push_write(links, scope, x.as_str(), equation)?;
    }
    Ok(())
}

/// The links of one equation.
fn push_equation(
    links: &mut Vec<Link>,
    scope: &Scope,
    equation: &Equation,
    number: usize,
) -> Result<(), AllocError>
    ensures { OnOk result (links.new.items ≡ links.old.items
        ++ (reads_in (node_view scope.now) number (view equation.now.right)
        ++ writes_in (node_view scope.now) number equation.now.left)) }
{
    push_reads(links, scope, &equation.right, number)?;
    push_writes(links, scope, equation.left.as_slice(), number)
}

/// The links of equations, known by the numbers from `first` on.
fn links_of(
    alloc: Global,
    scope: &Scope,
    first: usize,
    equations: &[Equation],
) -> Result<Vec<Link>, AllocError>
    requires { first + length equations.now < 2 ^ 64 }
    ensures { IfOk result (λ links. links.items ≡ links_in (node_view scope.now) first
        (map equation_view equations.now)) }
{
    let mut links = Vec::new(alloc);
    for (i, q) in equations.iter().enumerate() {
        push_equation(&mut links, scope, q, first + i)?;
    }
    Ok(links)
}

/// The equations that are of class 1 by themselves, known by the numbers from `first` on.
fn starts_of(
    alloc: Global,
    scope: &Scope,
    first: usize,
    equations: &[Equation],
) -> Result<Vec<usize>, AllocError>
    requires { first + length equations.now < 2 ^ 64 }
    ensures { IfOk result (λ starts. AreStarts (map equation_view equations.now) first
        (length equations.now) starts.items) }
{
    let mut starts = Vec::new(alloc);
    for (i, q) in equations.iter().enumerate() {
        if is_one(scope, &[], &q.right) {
            starts.push(first + i)?;
        }
    }
    Ok(starts)
}

/// The least classes of a node's variables that aren't below those of their right sides, by place of
/// declaration: true is class 1. Behind them stand the classes of the right sides, by place of equation. The
/// time grows with the length of the node.
///
/// # Errors
///
/// An error means that memory ran out.
pub fn least_classes(alloc: Global, scope: &Scope) -> Result<Vec<bool>, AllocError>
    requires { LeftsKnown (node_view scope.now) }
    ensures least { IfOk result (λ marks. IsLeast (assigned (node_view scope.now) marks.items)
        (node_view scope.now)) }
    ensures caused { IfOk result (λ marks. IsCaused (assigned (node_view scope.now) marks.items)
        (node_view scope.now)) }
{
    let variables = scope.declarations().len();
    let equations = scope.node().equations.as_slice();
    let starts = starts_of(alloc, scope, variables, equations)?;
    let links = links_of(alloc, scope, variables, equations)?;
    reached(alloc, variables + equations.len(), &starts, &links)
}
