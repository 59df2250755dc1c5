//! Which nodes the main node reaches by calls.

ghost use Rattle.std.specs.Prelude.{◌≡◌, ◌<◌, ◌++◌, length, map, IfOk, OnOk};
ghost use Rattle.lutree.specs.Tree.{program_view};
ghost use Rattle.lubase.specs.Search.{Has};
ghost use Rattle.lubase.specs.Reach.{link};
ghost use Rattle.lucore_build.specs.Listed.{links_from, AreClosed};

use lubase::{Link, reached};
use lustat_rules::Catalog;
use lutype::graph_of;
use std::alloc::{AllocError, Global};

/// Puts the links from a vertex behind those before.
fn push_links(links: &mut Vec<Link>, from: usize, row: &[usize]) -> Result<(), AllocError>
    ensures { OnOk result (links.new.items ≡ links.old.items ++ map (link from) row.now) }
{
    for to in row {
        links.push(Link { from, to: *to })?;
    }
    Ok(())
}

/// The links of a graph's edges.
fn links_of(alloc: Global, graph: &[Vec<usize>]) -> Result<Vec<Link>, AllocError>
    ensures { IfOk result (λ links. links.items ≡ links_from 0 graph.now) }
{
    let mut links = Vec::new(alloc);
    for (from, row) in graph.iter().enumerate() {
        push_links(&mut links, from, row.as_slice())?;
    }
    Ok(links)
}

/// For each node by its place in the text whether the node of this place is it, or reaches it by calls.
///
/// # Errors
///
/// An error means that memory ran out.
pub fn needed_by(alloc: Global, catalog: &Catalog, place: usize) -> Result<Vec<bool>, AllocError>
    requires { place < length (program_view catalog.now).nodes }
    ensures start { IfOk result (λ marks. Has marks.items place) }
    ensures closed { IfOk result (λ marks. AreClosed (program_view catalog.now) marks.items) }
{
    let graph = graph_of(alloc, catalog)?;
    let links = links_of(alloc, &graph)?;
    let marks = reached(alloc, graph.len(), &[place], &links)?;
    Ok(marks)
}
