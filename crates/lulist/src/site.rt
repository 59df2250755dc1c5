//! A site that goes through its flows once an instant.

ghost use Rattle.std.specs.Prelude.{◌≡◌, ◌<◌, length, slice_set};
ghost use Rattle.lueval_lines.specs.Cells.{held};

use crate::ends::{Outlet, Source};
use crate::flows::OrderedFlows;
use lueval_lines::{Cell, status};
use luflow::{Datum, Status};
use luplace::SiteInputs;

/// A site in the middle of an instant.
#[derive(Drop)]
pub struct ListSite {
    pub inputs: SiteInputs,
    pub flows: OrderedFlows,
    /// What each flow shows at this instant, by number; of those before the one at hand.
    pub shown: Vec<Cell>,
    /// The last values before this instant of those that are kept; absent before the first.
    pub lasts: Vec<Cell>,
    pub sources: Vec<Source>,
    pub outlets: Vec<Outlet>,
    /// The numbers of the flows that the site reports, and the statuses of each so far.
    pub noted: Vec<usize>,
    pub logs: Vec<Vec<Status>>,
    /// The sending ends in order of their flows.
    pub queue: Vec<usize>,
    /// By number of a flow, the receiving end that brings it, and behind which flow those end that can be
    /// worked out at once with it.
    pub row_sources: Vec<usize>,
    pub row_runs: Vec<usize>,
    /// The instant, the number of the flow at hand, and how many sending ends of the queue have put their
    /// message.
    pub t: u32,
    pub at: usize,
    pub out: usize,
}

/// Flow k shows this now.
#[inline(always)]
pub fn show(shown: &mut Vec<Cell>, k: usize, cell: Cell)
    requires { k < length shown.old.items }
    ensures { shown.new.items ≡ slice_set shown.old.items k cell }
{
    shown[k] = cell;
}

/// The datum that a cell holds; none where it is absent.
#[inline(always)]
pub fn datum_of(cell: Cell) -> Option<Datum>
    ensures { result ≡ held cell }
{
    match status(cell) {
        Status::Present(datum) => Some(datum),
        Status::Absent => None,
    }
}

/// The number that stands at k; 0 where there is none.
#[inline(always)]
pub fn number_at(numbers: &[usize], k: usize) -> usize {
    match numbers.get(k) {
        Some(number) => *number,
        None => 0,
    }
}
