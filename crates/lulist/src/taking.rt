//! The steps of a site at the receiving ends of its links.

ghost use Rattle.std.specs.Prelude.{◌≡◌, ◌<◌, true, ℕ, length, Some, slice_get, slice_set};
ghost use Rattle.lulist.specs.declared.ends.Source.{Source as AnySource};
ghost use Rattle.luworld.specs.Turns.{IfGoes};
ghost use Rattle.lulist.specs.Steps.{HasComeAt, HasComeTo};
ghost use Rattle.lulist.specs.Lists.{IsListing, IsSameRun};

use crate::ends::{Came, Source, take_one};
use crate::site::{ListSite, number_at, show};
use lueval_lines::{Cell, cell_of, is_on};
use luworld::Turn;

/// Takes the next message of a receiving end, if it is there; then it has those of all instants before the
/// next one.
#[inline(always)]
fn take_from(source: &mut Source, next: u32) -> Came
    ensures { HasComeTo next result source.old source.new }
{
    let came = take_one(&mut source.rx);
    if let Came::Value(_) = came {
        source.done = next;
    }
    came
}

/// The same of receiving end e.
#[inline(always)]
fn take_at(sources: &mut Vec<Source>, e: usize, next: u32) -> Came
    requires { e < length sources.old.items }
    ensures { HasComeAt e next result sources.old.items sources.new.items }
{
    let source = &mut sources[e];
    take_from(source, next)
}

/// Receiving end e has the messages of all instants before the next one.
#[inline(always)]
fn skip_at(sources: &mut Vec<Source>, e: usize, next: u32)
    requires { e < length sources.old.items }
    ensures { (x : AnySource) → slice_get sources.old.items e ≡ Some x
        → sources.new.items ≡ slice_set sources.old.items e (record x { done = next }) }
{
    let source = &mut sources[e];
    source.done = next;
}

/// Receiving end e has taken the close.
fn close_at(sources: &mut Vec<Source>, e: usize)
    requires { e < length sources.old.items }
    ensures { (x : AnySource) → slice_get sources.old.items e ≡ Some x
        → sources.new.items ≡ slice_set sources.old.items e (record x { closed = true }) }
{
    let source = &mut sources[e];
    source.closed = true;
}

impl ListSite {
    /// Takes the message of the flow at hand, which a link brings, if it is present. It is over where the
    /// link has none any more.
    pub fn take_row(&mut self) -> Turn
        requires going { IsListing self.old }
        requires early { self.old.t < self.old.inputs.job.inputs.instants }
        requires within { self.old.at < length self.old.flows.lines.rows.items }
        ensures going { IfGoes result (IsListing self.new) }
        ensures same { IsSameRun self.old self.new }
    {
        let row = &self.flows.lines.rows[self.at];
        let e = number_at(&self.row_sources, self.at);
        if row.own || self.sources.len() <= e {
            return Turn::Over;
        }
        let source = &self.sources[e];
        if source.row != self.at || source.done != self.t || source.closed {
            return Turn::Over;
        }
        let next = self.t + 1;
        if !is_on(&self.shown, row.line.clock) {
            skip_at(&mut self.sources, e, next);
            show(&mut self.shown, self.at, Cell::Absent);
            self.at += 1;
            return Turn::Moved;
        }
        match take_at(&mut self.sources, e, next) {
            Came::Value(datum) => {
                show(&mut self.shown, self.at, cell_of(datum));
                self.at += 1;
                Turn::Moved
            }
            Came::Nothing => Turn::Blocked,
            Came::Close | Came::Lost => Turn::Over,
        }
    }

    /// Takes the close of the flow at hand behind the last instant, if a link brings the flow.
    pub fn close_row(&mut self) -> Turn
        requires going { IsListing self.old }
        requires late { self.old.t ≡ self.old.inputs.job.inputs.instants }
        requires within { self.old.at < length self.old.flows.lines.rows.items }
        ensures going { IfGoes result (IsListing self.new) }
        ensures same { IsSameRun self.old self.new }
    {
        let row = &self.flows.lines.rows[self.at];
        let e = number_at(&self.row_sources, self.at);
        if row.own {
            self.at += 1;
            return Turn::Moved;
        }
        if self.sources.len() <= e {
            return Turn::Over;
        }
        match take_at(&mut self.sources, e, self.t) {
            Came::Close => {
                close_at(&mut self.sources, e);
                self.at += 1;
                Turn::Moved
            }
            Came::Nothing => Turn::Blocked,
            Came::Value(_) | Came::Lost => Turn::Over,
        }
    }
}
