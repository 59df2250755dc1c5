//! A search in depth that puts vertices in order.

ghost use Rattle.std.specs.Prelude.{◌≡◌, ◌<◌, ◌≤◌, ◌++◌, ◌∷◌, [], ℕ, Bool, false, IsTrue, length, slice_get, slice_index, IfOk, IfNone, IfSome, MatchOption};
ghost use Rattle.lubase.specs.Graph.{row_of, IsCycle};
ghost use Rattle.lubase.specs.States.{IsSearching, IsVisiting};
ghost use Rattle.lubase.specs.Search.{Has, Lacks, IsPassed, steps_left, Keeps};

use std::alloc::{AllocError, Global};

/// A vertex on the way, and the place in its list from which edges are still to be looked at.
#[derive(Clone, Copy)]
pub struct Visit {
    pub vertex: usize,
    pub next: usize,
}

/// A search: which vertices it has entered, which of them it has placed, those that it is on the way through,
/// and the order so far.
#[derive(Drop)]
pub struct Search {
    pub entered: Vec<bool>,
    pub placed: Vec<bool>,
    pub path: Vec<Visit>,
    pub order: Vec<usize>,
}

/// The list of a vertex.
pub fn row_at(graph: &[Vec<usize>], vertex: usize) -> &[usize]
    requires { vertex < length graph.now }
    ensures { result.now ≡ row_of graph.now vertex }
{
    graph[vertex].as_slice()
}

/// The first place of a row, at `from` or later, with a vertex that isn't placed.
fn first_waiting(row: &[usize], placed: &[bool], from: usize) -> Option<usize>
    ensures none { IfNone result ((k : ℕ) → from ≤ k → k < length row.now
        → IsPassed placed.now row.now k) }
    ensures passed { IfSome result (λ i. (k : ℕ) → from ≤ k → k < i
        → IsPassed placed.now row.now k) }
    ensures within { IfSome result (λ i. i < length row.now) }
    ensures vertex { IfSome result (λ i. slice_index row.now i < length placed.now) }
    ensures waiting { IfSome result (λ i. Lacks placed.now (slice_index row.now i)) }
{
    for i in from..row.len() {
        let vertex = row[i];
        if vertex < placed.len() && !placed[vertex] {
            return Some(i);
        }
    }
    None
}

impl Search {
    /// A search that has entered nothing, with room for all vertices.
    pub fn new(alloc: Global, graph: &[Vec<usize>]) -> Result<Search, AllocError>
        ensures sound { IfOk result (IsSearching graph.now) }
        ensures empty { IfOk result (λ s. s.path.items ≡ []) }
    {
        let entered = vec![in alloc; false; graph.len()]?;
        let placed = vec![in alloc; false; graph.len()]?;
        let path = Vec::with_capacity(alloc, graph.len())?;
        let order = Vec::with_capacity(alloc, graph.len())?;
        Ok(Search {
            entered,
            placed,
            path,
            order,
        })
    }

    /// The last visit of the way goes on: its vertex is placed, or one that it points to is entered, or that
    /// one reaches itself.
    fn advance(&mut self, graph: &[Vec<usize>], visit: Visit) -> Result<Option<usize>, AllocError>
        requires { IsVisiting graph.now self.old visit }
        ensures sound { IfOk result (λ o. IfNone o (IsSearching graph.now self.new)) }
        ensures less { IfOk result (λ o. IfNone o (steps_left self.new.entered.items
            self.new.placed.items < steps_left self.old.entered.items self.old.placed.items)) }
        ensures kept { IfOk result (λ o. IfNone o (Keeps self.old.entered.items
            self.new.entered.items)) }
        ensures cycle { IfOk result (λ o. IfSome o (IsCycle graph.now)) }
    {
        let vertex = visit.vertex;
        let row = row_at(graph, vertex);
        if let Some(edge) = first_waiting(row, &self.placed, visit.next) {
            let next = row[edge];
            if self.entered[next] {
                return Ok(Some(next));
            }
            self.entered[next] = true;
            self.path.push(Visit { vertex, next: edge })?;
            self.path.push(Visit {
                vertex: next,
                next: 0,
            })?;
        } else {
            self.placed[vertex] = true;
            self.order.push(vertex)?;
        }
        Ok(None)
    }

    /// Goes on from a vertex until all that it reaches is placed, or a vertex is found that reaches itself.
    pub fn explore(
        &mut self,
        graph: &[Vec<usize>],
        start: usize,
    ) -> Result<Option<usize>, AllocError>
        requires start { start < length graph.now }
        requires sound { IsSearching graph.now self.old }
        requires empty { self.old.path.items ≡ [] }
        ensures sound { IfOk result (λ o. IfNone o (IsSearching graph.now self.new)) }
        ensures empty { IfOk result (λ o. IfNone o (self.new.path.items ≡ [])) }
        ensures kept { IfOk result (λ o. IfNone o (Keeps self.old.entered.items
            self.new.entered.items)) }
        ensures entered { IfOk result (λ o. IfNone o (Has self.new.entered.items start)) }
        ensures cycle { IfOk result (λ o. IfSome o (IsCycle graph.now)) }
    {
        if self.entered[start] {
            return Ok(None);
        }
        self.entered[start] = true;
        self.path.push(Visit {
            vertex: start,
            next: 0,
        })?;
        while let Some(visit) = self.path.pop() {
            if let Some(vertex) = self.advance(graph, visit)? {
                return Ok(Some(vertex));
            }
        }
        Ok(None)
    }
}
