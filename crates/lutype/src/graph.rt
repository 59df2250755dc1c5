//! The graph of a program's calls.

ghost use Rattle.std.specs.Prelude.{◌≡◌, ◌++◌, ◌∷◌, [], IfOk, OnOk};
ghost use Rattle.std.specs.List.{filter_map};
ghost use Rattle.lutree.specs.Tree.{view, views, trees_of, node_view, program_view};
ghost use Rattle.lustat_rules.specs.Naming.{node_place};
ghost use Rattle.lutype.specs.CallGraph.{names_called, all_names_called, places_called, IsCallGraph};

use lustat_rules::Catalog;
use lutree::{Expr, Node};
use std::alloc::{AllocError, Global};

/// The place of the node that a name means, if it means one, behind those before.
fn push_call(catalog: &Catalog, name: &str, row: &mut Vec<usize>) -> Result<(), AllocError>
    ensures { OnOk result (row.new.items ≡ row.old.items
        ++ filter_map (node_place (program_view catalog.now)) (name.now ∷ [])) }
{
    if let Some(place) = catalog.place(name) {
        row.push(place)?;
    }
    Ok(())
}

/// The places of the nodes that an expression calls, behind those before.
#[cycle(calls)]
fn push_calls(catalog: &Catalog, e: &Expr, row: &mut Vec<usize>) -> Result<(), AllocError>
    ensures { OnOk result (row.new.items ≡ row.old.items
        ++ filter_map (node_place (program_view catalog.now)) (names_called (view e.now))) }
{
    match e {
        Expr::Number(_) | Expr::Truth(_) | Expr::Label(_) | Expr::Variable(_) | Expr::Current(_) =>
            Ok(()),
        Expr::Unary(_, a) | Expr::When(a, _) => push_calls(catalog, a, row),
        Expr::Binary(_, a, b) => {
            push_calls(catalog, a, row)?;
            push_calls(catalog, b, row)
        }
        Expr::Merge(_, _, branches) => push_all_calls(catalog, branches, row),
        Expr::If(c, a, b) => {
            push_calls(catalog, c, row)?;
            push_calls(catalog, a, row)?;
            push_calls(catalog, b, row)
        }
        Expr::Call(f, arguments) => {
            push_all_calls(catalog, arguments, row)?;
            push_call(catalog, f.as_str(), row)
        }
    }
}

/// Puts the nodes that all arguments of a call or branches of a merge call behind others.
#[cycle(calls)]
fn push_all_calls(
    catalog: &Catalog,
    arguments: &[Expr],
    row: &mut Vec<usize>,
) -> Result<(), AllocError>
    ensures { OnOk result (row.new.items ≡ row.old.items
        ++ filter_map (node_place (program_view catalog.now))
        (all_names_called (trees_of (views arguments.now)))) }
{
    for a in arguments {
        push_calls(catalog, a, row)?;
    }
    Ok(())
}

/// The places of the nodes that a node calls.
fn calls_of(alloc: Global, catalog: &Catalog, node: &Node) -> Result<Vec<usize>, AllocError>
    ensures { IfOk result (λ row. row.items ≡ places_called (program_view catalog.now)
        (node_view node.now)) }
{
    let mut row = Vec::new(alloc);
    for q in node.equations.as_slice() {
        push_calls(catalog, &q.right, &mut row)?;
    }
    Ok(row)
}

/// The graph of the calls: a vertex for each node in order of text, with edges to the nodes that it calls.
pub fn graph_of(alloc: Global, catalog: &Catalog) -> Result<Vec<Vec<usize>>, AllocError>
    ensures { IfOk result (λ graph. IsCallGraph (program_view catalog.now) graph.items) }
{
    let nodes = catalog.program().nodes.as_slice();
    let mut graph = Vec::with_capacity(alloc, nodes.len())?;
    for node in nodes {
        graph.push(calls_of(alloc, catalog, node)?)?;
    }
    Ok(graph)
}
