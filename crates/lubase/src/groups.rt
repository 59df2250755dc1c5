//! A search in depth that says which vertices reach themselves.
//!
//! The vertices that were entered and not left stand on a stack. It is cut into groups, at the places where
//! they begin; the vertices of a group reach each other. An edge back into a group joins all groups from
//! there on. A group is left when all edges of its vertices have been looked at.

ghost use Rattle.std.specs.Prelude.{◌≡◌, ◌<◌, ◌≤◌, ◌++◌, ◌∷◌, ◌⊎◌, ◌+◌, ◌↔◌, [], ℕ, IsTrue, Bool, true, false, length, slice_index, slice_set, take, unwrap_or, All, Contains, IfOk, OnOk, IfNone, IfSome};
ghost use Rattle.std.specs.Bool.{OnTrue, OnFalse};
ghost use Rattle.lubase.specs.Graph.{row_of};
ghost use Rattle.lubase.specs.Search.{Has, Lacks, Keeps};
ghost use Rattle.lubase.specs.Grouped.{IsRising, IsLow, IsLooked, IsLeft, IsFlagged, frames_left};
ghost use Rattle.lubase.specs.States.{IsGroups, IsFramed};

use crate::search::row_at;
use std::alloc::{AllocError, Global};

/// A place of the stack, and the place in its vertex's list from which edges are still to be looked at.
#[derive(Clone, Copy)]
pub struct Frame {
    pub place: usize,
    pub next: usize,
}

/// What a look along a list found: the least place of the stack that an edge leads back to, and the first
/// edge to a vertex that isn't entered.
#[derive(Clone, Copy)]
struct Scan {
    low: usize,
    edge: Option<usize>,
}

/// Looks along a list, up to the first vertex that isn't entered.
fn look_along(
    row: &[usize],
    entered: &[bool],
    left: &[bool],
    places: &[usize],
    frame: Frame,
) -> Scan
    requires left_long { length left.now ≡ length entered.now }
    requires places_long { length places.now ≡ length entered.now }
    ensures least { result.low ≤ frame.place }
    ensures low { IsLow entered.now left.now places.now row.now frame.place result.low }
    ensures looked { IsLooked entered.now left.now places.now row.now frame.next
        (unwrap_or result.edge (length row.now)) result.low }
    ensures within { IfSome result.edge (λ k. k < length row.now) }
    ensures vertex { IfSome result.edge (λ k. slice_index row.now k < length entered.now) }
    ensures fresh { IfSome result.edge (λ k. Lacks entered.now (slice_index row.now k)) }
{
    let mut low = frame.place;
    for k in frame.next..row.len() {
        let vertex = row[k];
        if vertex >= entered.len() {
            continue;
        }
        if !entered[vertex] {
            return Scan { low, edge: Some(k) };
        }
        if !left[vertex] && places[vertex] < low {
            low = places[vertex];
        }
    }
    Scan { low, edge: None }
}

/// Drops all bounds above a place.
fn cut(bounds: &mut Vec<usize>, low: usize) -> Result<(), AllocError>
    requires { IsRising bounds.old.items }
    ensures rising { OnOk result (IsRising bounds.new.items) }
    ensures fewer { OnOk result ((b : ℕ) → Contains bounds.new.items b
        → Contains bounds.old.items b) }
    ensures below { OnOk result ((b : ℕ) → Contains bounds.new.items b → b ≤ low) }
    ensures kept { OnOk result ((b : ℕ) → Contains bounds.old.items b → b ≤ low
        → Contains bounds.new.items b) }
{
    while let Some(last) = bounds.pop() {
        if last <= low {
            bounds.push(last)?;
            return Ok(());
        }
    }
    Ok(())
}

/// Drops the last bound, if it is a place that no bound is above.
fn drop_bound(bounds: &mut Vec<usize>, place: usize) -> Result<bool, AllocError>
    requires rising { IsRising bounds.old.items }
    requires below { (b : ℕ) → Contains bounds.old.items b → b ≤ place }
    ensures dropped { IfOk result (λ t. OnTrue t (bounds.old.items ≡ bounds.new.items
        ++ place ∷ [])) }
    ensures same { IfOk result (λ t. OnFalse t (bounds.new.items ≡ bounds.old.items)) }
    ensures none { IfOk result (λ t. OnFalse t (¬ Contains bounds.old.items place)) }
{
    if let Some(last) = bounds.pop() {
        if last == place {
            return Ok(true);
        }
        bounds.push(last)?;
    }
    Ok(false)
}

/// Whether a list has a vertex.
fn has_vertex(row: &[usize], vertex: usize) -> bool
    ensures { IsTrue result ↔ Contains row.now vertex }
{
    row.contains(&vertex)
}

/// Marks the vertices of the last group as left, and those that reach themselves.
fn mark_group(
    graph: &[Vec<usize>],
    stack: &[usize],
    from: usize,
    left: &mut Vec<bool>,
    looped: &mut Vec<bool>,
)
    requires from { from < length stack.now }
    requires inside { (j : ℕ) → j < length stack.now → slice_index stack.now j < length graph.now }
    requires left_long { length left.old.items ≡ length graph.now }
    requires looped_long { length looped.old.items ≡ length graph.now }
    ensures left { IsLeft left.old.items left.new.items stack.now from (length stack.now) }
    ensures looped { IsFlagged graph.now looped.old.items looped.new.items stack.now from
        (length stack.now) }
{
    let many = from + 1 < stack.len();
    for place in from..stack.len() {
        let vertex = stack[place];
        left[vertex] = true;
        if many || has_vertex(row_at(graph, vertex), vertex) {
            looped[vertex] = true;
        }
    }
}

/// A search: which vertices it has entered, which of them it has left, which of those reach themselves, the
/// stack with the place of each vertex on it, the places where groups begin, and the frames.
#[derive(Drop)]
pub struct Groups {
    pub entered: Vec<bool>,
    pub left: Vec<bool>,
    pub looped: Vec<bool>,
    pub places: Vec<usize>,
    pub stack: Vec<usize>,
    pub bounds: Vec<usize>,
    pub frames: Vec<Frame>,
}

impl Groups {
    /// A search that has entered nothing, with room for all vertices.
    pub fn new(alloc: Global, graph: &[Vec<usize>]) -> Result<Groups, AllocError>
        ensures sound { IfOk result (IsGroups graph.now) }
        ensures empty { IfOk result (λ s. s.frames.items ≡ []) }
    {
        let entered = vec![in alloc; false; graph.len()]?;
        let left = vec![in alloc; false; graph.len()]?;
        let looped = vec![in alloc; false; graph.len()]?;
        let places = vec![in alloc; 0; graph.len()]?;
        let stack = Vec::with_capacity(alloc, graph.len())?;
        let bounds = Vec::with_capacity(alloc, graph.len())?;
        let frames = Vec::with_capacity(alloc, graph.len())?;
        Ok(Groups {
            entered,
            left,
            looped,
            places,
            stack,
            bounds,
            frames,
        })
    }

    /// Enters a vertex that all on the stack reach; it begins a group.
    fn enter(&mut self, vertex: usize) -> Result<(), AllocError>
        requires room { vertex < length self.old.entered.items }
        requires places { vertex < length self.old.places.items }
        ensures entered { OnOk result (self.new.entered.items
            ≡ slice_set self.old.entered.items vertex true) }
        ensures left { OnOk result (self.new.left.items ≡ self.old.left.items) }
        ensures looped { OnOk result (self.new.looped.items ≡ self.old.looped.items) }
        ensures places { OnOk result (self.new.places.items
            ≡ slice_set self.old.places.items vertex (length self.old.stack.items)) }
        ensures stack { OnOk result (self.new.stack.items ≡ self.old.stack.items ++ vertex ∷ []) }
        ensures bounds { OnOk result (self.new.bounds.items ≡ self.old.bounds.items
            ++ length self.old.stack.items ∷ []) }
        ensures frames { OnOk result (self.new.frames.items ≡ self.old.frames.items
            ++ (record { place = length self.old.stack.items; next = 0 }) ∷ []) }
    {
        let place = self.stack.len();
        self.entered[vertex] = true;
        self.places[vertex] = place;
        self.bounds.push(place)?;
        self.frames.push(Frame { place, next: 0 })?;
        self.stack.push(vertex)?;
        Ok(())
    }

    /// The last frame goes on: a vertex that it points to is entered, or it is done, and its group is left if
    /// it began there.
    fn advance(&mut self, graph: &[Vec<usize>], frame: Frame) -> Result<(), AllocError>
        requires { IsFramed graph.now self.old frame }
        ensures sound { OnOk result (IsGroups graph.now self.new) }
        ensures less { OnOk result (frames_left self.new.entered.items self.new.frames.items
            ≤ frames_left self.old.entered.items self.old.frames.items) }
        ensures kept { OnOk result (Keeps self.old.entered.items self.new.entered.items) }
    {
        let row = row_at(graph, self.stack[frame.place]);
        let found = look_along(row, &self.entered, &self.left, &self.places, frame);
        cut(&mut self.bounds, found.low)?;
        if let Some(edge) = found.edge {
            self.frames.push(Frame {
                place: frame.place,
                next: edge,
            })?;
            self.enter(row[edge])?;
        } else if drop_bound(&mut self.bounds, frame.place)? {
            mark_group(
                graph,
                &self.stack,
                frame.place,
                &mut self.left,
                &mut self.looped,
            );
            self.stack.truncate(frame.place);
        }
        Ok(())
    }

    /// Goes on from a vertex until all that it reaches is left.
    pub fn explore(&mut self, graph: &[Vec<usize>], start: usize) -> Result<(), AllocError>
        requires start { start < length graph.now }
        requires sound { IsGroups graph.now self.old }
        requires empty { self.old.frames.items ≡ [] }
        ensures sound { OnOk result (IsGroups graph.now self.new) }
        ensures empty { OnOk result (self.new.frames.items ≡ []) }
        ensures kept { OnOk result (Keeps self.old.entered.items self.new.entered.items) }
        ensures entered { OnOk result (Has self.new.entered.items start) }
    {
        if self.entered[start] {
            return Ok(());
        }
        self.enter(start)?;
        while let Some(frame) = self.frames.pop() {
            self.advance(graph, frame)?;
        }
        Ok(())
    }
}
