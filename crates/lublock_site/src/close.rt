//! Behind the last block: the closes of all links.

ghost use Rattle.std.specs.Prelude.{◌≡◌, ◌<◌, length, Some, slice_get};
ghost use Rattle.lublock_site.specs.Going.{HasSentAt, IsGoing, IsLaterAt, IsSameRun, MayCloseAt};
ghost use Rattle.luworld.specs.Turns.{IfGoes};

use crate::outlets::{Outlet, put_close};
use crate::site::RowSite;
use crate::sources::{Source, take_close};
use luflow::Flat;
use luworld::Turn;

/// Takes the close of receiving end k, as `take_close` does.
fn take_close_at(sources: &mut Vec<Source>, k: usize) -> Turn
    requires { k < length sources.old.items }
    ensures { IfGoes result (IsLaterAt k sources.old.items sources.new.items) }
{
    let source = &mut sources[k];
    take_close(source)
}

/// Puts the close of sending end k, as `put_close` does.
fn put_close_at(flat: &Flat, outlets: &mut Vec<Outlet>, k: usize) -> Turn
    requires within { k < length outlets.old.items }
    requires may { MayCloseAt flat.now k outlets.old.items }
    ensures { IfGoes result (HasSentAt flat.now k outlets.old.items outlets.new.items) }
{
    let outlet = &mut outlets[k];
    put_close(flat, outlet)
}

impl RowSite {
    /// Takes the close of receiving end k.
    pub fn take_close_step(&mut self, k: usize) -> Turn
        requires { IsGoing self.old }
        ensures going { IfGoes result (IsGoing self.new) }
        ensures same { IsSameRun self.old self.new }
    {
        if self.sources.len() <= k {
            return Turn::Over;
        }
        take_close_at(&mut self.sources, k)
    }

    /// Puts the close of sending end k, if all instants lie behind.
    pub fn put_close_step(&mut self, k: usize) -> Turn
        requires { IsGoing self.old }
        ensures going { IfGoes result (IsGoing self.new) }
        ensures same { IsSameRun self.old self.new }
    {
        if self.outlets.len() <= k || self.t != self.frame.instants {
            return Turn::Over;
        }
        let outlet = &self.outlets[k];
        if outlet.closed || outlet.sent != 0 {
            return Turn::Over;
        }
        let flat = &*self.frame.code.flat;
        put_close_at(flat, &mut self.outlets, k)
    }
}
