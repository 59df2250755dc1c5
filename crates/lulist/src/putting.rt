//! The steps of a site at the sending ends of its links.

ghost use Rattle.std.specs.Prelude.{◌≡◌, ◌<◌, true, ◌+◌, ℕ, length, Some, slice_get, slice_set};
ghost use Rattle.lulist.specs.declared.ends.Outlet.{Outlet as AnyOutlet};
ghost use Rattle.lulink.specs.Views.{IsNextToPut};
ghost use Rattle.luworld.specs.Turns.{IfGoes};
ghost use Rattle.lulist.specs.Steps.{HasGoneAt, HasGoneFrom};
ghost use Rattle.lulist.specs.Lists.{IsListing, IsSameRun};

use crate::ends::{Outlet, put_one};
use crate::site::{ListSite, datum_of};
use luflow::{Body, Msg};
use luworld::Turn;

/// Puts the next message of a sending end, if there is room; then it has put those of all instants before the
/// next one.
#[inline(always)]
fn put_to(outlet: &mut Outlet, msg: Msg, next: u32, number: u32) -> Turn
    requires next { IsNextToPut outlet.old.tx msg }
    requires number { number ≡ outlet.old.number + 1 }
    ensures { HasGoneFrom next result msg outlet.old outlet.new }
{
    let turn = put_one(&mut outlet.tx, msg);
    if let Turn::Moved = turn {
        outlet.done = next;
        outlet.number = number;
    }
    turn
}

/// The same of sending end e.
#[inline(always)]
fn put_at(outlets: &mut Vec<Outlet>, e: usize, msg: Msg, next: u32, number: u32) -> Turn
    requires within { e < length outlets.old.items }
    requires next { (x : AnyOutlet) → slice_get outlets.old.items e ≡ Some x
        → IsNextToPut x.tx msg }
    requires number { (x : AnyOutlet) → slice_get outlets.old.items e ≡ Some x
        → number ≡ x.number + 1 }
    ensures { HasGoneAt e next result msg outlets.old.items outlets.new.items }
{
    let outlet = &mut outlets[e];
    put_to(outlet, msg, next, number)
}

/// Sending end e has put the messages of all instants before the next one.
#[inline(always)]
fn skip_at(outlets: &mut Vec<Outlet>, e: usize, next: u32)
    requires { e < length outlets.old.items }
    ensures { (x : AnyOutlet) → slice_get outlets.old.items e ≡ Some x
        → outlets.new.items ≡ slice_set outlets.old.items e (record x { done = next }) }
{
    let outlet = &mut outlets[e];
    outlet.done = next;
}

/// Sending end e has put the close.
fn close_at(outlets: &mut Vec<Outlet>, e: usize)
    requires { e < length outlets.old.items }
    ensures { (x : AnyOutlet) → slice_get outlets.old.items e ≡ Some x
        → outlets.new.items ≡ slice_set outlets.old.items e (record x { closed = true }) }
{
    let outlet = &mut outlets[e];
    outlet.closed = true;
}

impl ListSite {
    /// Puts the message of a sending end, if its flow is present, which has been worked out. It is over where
    /// the receiver has left a full link.
    pub fn put_step(&mut self, e: usize) -> Turn
        requires going { IsListing self.old }
        requires early { self.old.t < self.old.inputs.job.inputs.instants }
        ensures going { IfGoes result (IsListing self.new) }
        ensures same { IsSameRun self.old self.new }
    {
        if self.outlets.len() <= e {
            return Turn::Over;
        }
        let outlet = &self.outlets[e];
        let row = outlet.row;
        let no = outlet.number;
        if outlet.closed || outlet.done != self.t || row >= self.at || row >= self.shown.len() {
            return Turn::Over;
        }
        let next = self.t + 1;
        let Some(datum) = datum_of(self.shown[row]) else {
            skip_at(&mut self.outlets, e, next);
            self.out = self.out.saturating_add(1);
            return Turn::Moved;
        };
        let Some(number) = no.checked_add(1) else {
            return Turn::Over;
        };
        let msg = Msg {
            no,
            body: Body::Value(datum),
        };
        match put_at(&mut self.outlets, e, msg, next, number) {
            Turn::Moved => {
                self.out = self.out.saturating_add(1);
                Turn::Moved
            }
            Turn::Blocked => Turn::Blocked,
            Turn::Over => Turn::Over,
        }
    }

    /// Puts the close of a sending end behind the last instant.
    pub fn put_close(&mut self, e: usize) -> Turn
        requires going { IsListing self.old }
        requires late { self.old.t ≡ self.old.inputs.job.inputs.instants }
        ensures going { IfGoes result (IsListing self.new) }
        ensures same { IsSameRun self.old self.new }
    {
        if self.outlets.len() <= e {
            return Turn::Over;
        }
        let outlet = &self.outlets[e];
        let no = outlet.number;
        if outlet.closed || outlet.done != self.t || outlet.row >= self.flows.places.len() {
            return Turn::Over;
        }
        let Some(number) = no.checked_add(1) else {
            return Turn::Over;
        };
        let msg = Msg {
            no,
            body: Body::Close,
        };
        match put_at(&mut self.outlets, e, msg, self.t, number) {
            Turn::Moved => {
                close_at(&mut self.outlets, e);
                self.out = self.out.saturating_add(1);
                Turn::Moved
            }
            Turn::Blocked => Turn::Blocked,
            Turn::Over => Turn::Over,
        }
    }
}
