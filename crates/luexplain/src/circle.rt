//! The way from a vertex of a graph back to itself.

use std::alloc::{AllocError, Global};

/// Notes for each vertex that one points to from where it was reached first, unless it is known already.
/// Answers whether it points to the start.
fn look_along(
    row: &[usize],
    from: usize,
    start: usize,
    before: &mut Vec<Option<usize>>,
    queue: &mut Vec<usize>,
) -> Result<bool, AllocError> {
    for vertex in row {
        if *vertex == start {
            return Ok(true);
        }
        if *vertex < before.len() && before[*vertex].is_none() {
            before[*vertex] = Some(from);
            queue.push(*vertex)?;
        }
    }
    Ok(false)
}

/// The way to a vertex from the start, both among it, by the vertices from which each was reached first.
fn way_to(
    alloc: Global,
    before: &[Option<usize>],
    start: usize,
    last: usize,
) -> Result<Vec<usize>, AllocError> {
    let mut way = Vec::new(alloc);
    let mut at = last;
    for _ in 0..before.len() {
        if at == start {
            break;
        }
        way.push(at)?;
        match before.get(at) {
            Some(Some(vertex)) => at = *vertex,
            _ => break,
        }
    }
    way.push(start)?;
    way.reverse();
    Ok(way)
}

/// A shortest way of a graph from a vertex back to itself: the vertices from the start on, each pointing to
/// the next, and the last to the first. Empty where there is none. The time grows with the number of vertices
/// and edges.
pub(crate) fn circle(
    alloc: Global,
    graph: &[Vec<usize>],
    start: usize,
) -> Result<Vec<usize>, AllocError> {
    let mut before = vec![in alloc; None; graph.len()]?;
    let mut queue = Vec::new(alloc);
    queue.push(start)?;
    for next in 0..graph.len() {
        let Some(from) = queue.get(next).copied() else {
            break;
        };
        let Some(row) = graph.get(from) else {
            break;
        };
        if look_along(row, from, start, &mut before, &mut queue)? {
            return way_to(alloc, &before, start, from);
        }
    }
    Ok(Vec::new(alloc))
}
