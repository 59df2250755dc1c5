//! Orders, cycles, chains and what is reached: the tests of `lubase`.

ghost use Rattle.std.specs.Prelude.{◌≡◌};

use lubase::{Link, Order, cycles_of, order_of, reached};
use std::alloc::{AllocError, Global};
use std::test::Fail;

/// A graph from its lists.
fn graph_of(alloc: Global, rows: &[&[usize]]) -> Result<Vec<Vec<usize>>, AllocError> {
    let mut graph = Vec::with_capacity(alloc, rows.len())?;
    for row in rows {
        graph.push(Vec::from_slice(alloc, row)?)?;
    }
    Ok(graph)
}

/// A graph in which each vertex points to all before it.
fn all_before(alloc: Global, count: usize) -> Result<Vec<Vec<usize>>, AllocError> {
    let mut graph = Vec::with_capacity(alloc, count)?;
    for vertex in 0..count {
        graph.push((0..vertex).collect(alloc)?)?;
    }
    Ok(graph)
}

/// Whether this order is found, or the first vertex that is marked.
fn is_found(order: &Order, sorted: &[usize], marks: &[bool]) -> bool {
    match order {
        Order::Sorted(places) => places.as_slice() == sorted,
        Order::Cyclic(vertex) => marks.iter().position(|mark| *mark) == Some(*vertex),
    }
}

/// Whether a graph has this order, if no vertex is marked, and the marked vertices alone reach themselves.
fn is_so(
    alloc: Global,
    graph: &[Vec<usize>],
    sorted: &[usize],
    marks: &[bool],
) -> Result<bool, AllocError> {
    Ok(
        is_found(&order_of(alloc, graph)?, sorted, marks)
            && cycles_of(alloc, graph)?.as_slice() == marks,
    )
}

/// A graph, its order where it has one, and which vertices reach themselves.
type Case = (
    &'static [&'static [usize]],
    &'static [usize],
    &'static [bool],
);

const GRAPHS: &[Case] = &[
    (
        &[&[2, 1, 9], &[], &[1, 3, 3], &[]],
        &[1, 3, 2, 0],
        &[false, false, false, false],
    ),
    // A graph of nothing has an order.
    (&[], &[], &[]),
    (
        &[&[3], &[2], &[3, 1], &[4], &[3]],
        &[],
        &[false, true, true, true, true],
    ),
    (&[&[], &[0, 1]], &[], &[false, true]),
    // 0 leads to the cycle 1, 2, 3, that to 4, and that to 5, which points to itself and to 6.
    (
        &[&[1], &[2, 9], &[3, 4], &[2, 1], &[5], &[6, 5], &[]],
        &[],
        &[false, true, true, true, false, true, false],
    ),
    // Two cycles with an edge between them, and one vertex between two cycles.
    (
        &[&[1], &[0, 2], &[3], &[4], &[3]],
        &[],
        &[true, true, false, true, true],
    ),
];

/// Whether order and cycles are these, of a graph by its lists.
fn are_so(
    alloc: Global,
    rows: &[&[usize]],
    sorted: &[usize],
    marks: &[bool],
) -> Result<bool, AllocError> {
    let graph = graph_of(alloc, rows)?;
    is_so(alloc, &graph, sorted, marks)
}

#[test]
fn graphs_have_orders_or_cycles(rt: HostRuntime) -> Result<(), Fail> {
    for (rows, sorted, marks) in GRAPHS {
        assert!(rt; are_so(rt.alloc(), rows, sorted, marks)?, "{rows:?}");
    }
    Ok(())
}

/// Whether vertices that each point to all before them stand in their own order.
fn is_counted(alloc: Global, count: usize) -> Result<bool, AllocError> {
    match order_of(alloc, &all_before(alloc, count)?)? {
        Order::Sorted(places) => Ok(places.iter().copied().eq(0..count)),
        Order::Cyclic(_) => Ok(false),
    }
}

#[test]
fn many_vertices_that_point_to_all_before_them_stand_in_order(rt: HostRuntime) -> Result<(), Fail> {
    assert!(rt; is_counted(rt.alloc(), 256)?);
    Ok(())
}

fn link(from: usize, to: usize) -> Link
    ensures { result ≡ record { from = from; to = to } }
{
    Link { from, to }
}

#[test]
fn what_links_lead_to_is_marked(rt: HostRuntime) -> Result<(), Fail> {
    let links = [link(2, 0), link(0, 3), link(1, 2), link(3, 3)];
    let marks = reached(rt.alloc(), 5, &[2], &links)?;
    let none = reached(rt.alloc(), 5, &[], &links)?;
    assert!(rt; marks.as_slice() == [true, false, true, true, false].as_slice());
    assert!(rt; none.as_slice() == [false; 5].as_slice());
    Ok(())
}
