//! An order of a graph, or a cycle.

ghost use Rattle.std.specs.Prelude.{◌≡◌, ◌<◌, ℕ, length, IfOk, IfSome, IfNone};
ghost use Rattle.lubase.specs.Graph.{IsOrder, IsCycle, MarksCycles};
ghost use Rattle.lubase.specs.Search.{Has, Lacks};
ghost use Rattle.lubase.specs.Answer.{IfSorted, IfCyclic};

use crate::groups::Groups;
use crate::search::Search;
use std::alloc::{AllocError, Global};

/// What [`order_of`] finds.
#[derive(Drop)]
pub enum Order {
    /// All vertices, each once, and each behind those that it points to.
    Sorted(Vec<usize>),
    /// The least vertex that reaches itself, by one edge or more.
    Cyclic(usize),
}

/// The first place with a mark.
fn first_marked(marks: &[bool]) -> Option<usize>
    ensures marked { IfSome result (λ v. v < length marks.now) }
    ensures has { IfSome result (Has marks.now) }
    ensures first { IfSome result (λ v. (u : ℕ) → u < v → Lacks marks.now u) }
    ensures none { IfNone result ((u : ℕ) → u < length marks.now → Lacks marks.now u) }
{
    for (place, mark) in marks.iter().enumerate() {
        if *mark {
            return Some(place);
        }
    }
    None
}

/// The least vertex that reaches itself, where one is known.
fn least_cycle(alloc: Global, graph: &[Vec<usize>], known: usize) -> Result<usize, AllocError>
    requires { IsCycle graph.now known }
    ensures cycle { IfOk result (IsCycle graph.now) }
    ensures least { IfOk result (λ v. (u : ℕ) → u < v → ¬ IsCycle graph.now u) }
{
    let marks = cycles_of(alloc, graph)?;
    match first_marked(&marks) {
        Some(vertex) => Ok(vertex),
        None => Ok(known),
    }
}

/// An order of a graph's vertices, or the least vertex that reaches itself.
///
/// The vertices are the places of `graph`, from 0. The list at a place has the vertices that it points to, in
/// any order and any number of times. A number there that is no place of `graph` is passed over. There is an
/// order exactly where no vertex reaches itself. The time grows with the number of vertices and edges, and
/// memory is asked for before each of the two searches, never within them.
///
/// # Errors
///
/// An error means that memory ran out; nothing is kept of the search.
pub fn order_of(alloc: Global, graph: &[Vec<usize>]) -> Result<Order, AllocError>
    ensures order { IfOk result (λ o. IfSorted o (IsOrder graph.now)) }
    ensures cycle { IfOk result (λ o. IfCyclic o (IsCycle graph.now)) }
    ensures least { IfOk result (λ o. IfCyclic o (λ v. (u : ℕ) → u < v → ¬ IsCycle graph.now u)) }
{
    let mut search = Search::new(alloc, graph)?;
    for start in 0..graph.len() {
        if let Some(vertex) = search.explore(graph, start)? {
            let least = least_cycle(alloc, graph, vertex)?;
            return Ok(Order::Cyclic(least));
        }
    }
    Ok(Order::Sorted(search.order))
}

/// Which vertices reach themselves, by one edge or more.
///
/// The vertices and edges are those of [`order_of`]. The result has a mark for each vertex, true exactly
/// where it reaches itself. The time grows with the number of vertices and edges, and all memory is asked for
/// at the start.
///
/// # Errors
///
/// An error means that memory ran out; nothing is kept of the search.
pub fn cycles_of(alloc: Global, graph: &[Vec<usize>]) -> Result<Vec<bool>, AllocError>
    ensures long { IfOk result (λ marks. length marks.items ≡ length graph.now) }
    ensures marks { IfOk result (λ marks. MarksCycles graph.now marks.items) }
{
    let mut groups = Groups::new(alloc, graph)?;
    for start in 0..graph.len() {
        groups.explore(graph, start)?;
    }
    Ok(groups.looped)
}
