//! The least place that reads itself through a chain of reads.

ghost use Rattle.std.specs.Prelude.{◌≡◌, ℕ, IfOk, map};
ghost use Rattle.luflow.specs.Rank.{Chain};
ghost use Rattle.lucore_laws.specs.Rank.{AreClosed, IsLeastOnCycle};

use lubase::{Order, Row, order_of};
use std::alloc::{AllocError, Global};

/// The same rows as a graph.
fn graph_of(alloc: Global, rows: &[Row<usize>]) -> Result<Vec<Vec<usize>>, AllocError>
    ensures { IfOk result (λ graph. map (λ list. list.items) graph.items ≡ rows.now) }
{
    let mut graph = Vec::with_capacity(alloc, rows.len())?;
    for reads in rows {
        graph.push(Vec::from_slice(alloc, reads.as_slice())?)?;
    }
    Ok(graph)
}

/// The least place that reads itself through a chain of reads, where one does. The time grows with the number
/// of places and reads.
pub fn least_on_cycle(alloc: Global, rows: &[Row<usize>]) -> Result<usize, AllocError>
    requires closed { AreClosed rows.now }
    requires cycle { (x : ℕ) × Chain rows.now x x }
    ensures { IfOk result (IsLeastOnCycle rows.now) }
{
    let graph = graph_of(alloc, rows)?;
    match order_of(alloc, &graph)? {
        Order::Cyclic(place) => Ok(place),
        Order::Sorted(_) => unreachable!(),
    }
}
