//! What is left of a site's script, were every flow present that it hasn't passed.

ghost use Rattle.std.specs.Prelude.{◌≡◌, ◌≤◌, drop, false, is_some, length, true};
ghost use Rattle.luworld.specs.Outline.{left_after};
ghost use Rattle.luworld.specs.Jobs.{IsJobView, outline, streams_of};
ghost use Rattle.lusite.specs.Machine.{IsSet, StandsAt, IsReadyAt, in_cell, is_faulted, done_of};
ghost use Rattle.lusite_program.specs.Programs.{places_of, rank_at};
ghost use Rattle.lusite.specs.Widths.{widths, most_width, most_left};

use crate::state::SiteState;
use lusite_program::SiteFlow;

/// How many items a flow has where it is present: at an instant of the table, or at the close.
fn width(site_flow: &SiteFlow, early: bool) -> usize
    ensures { result ≡ in_cell true site_flow.now.own early site_flow.now.outs (is_some site_flow.now.from) }
{
    let outs = site_flow.outs as usize;
    if site_flow.own {
        if early { outs + 1 } else { outs }
    } else if site_flow.from.is_some() {
        1
    } else {
        0
    }
}

impl SiteState {
    /// How many items all flows from number `row` of the site's on have where they are present.
    fn widths(&self, row: usize, early: bool) -> u64
        requires run { IsJobView self.now.inputs.job }
        requires set { IsSet self.now }
        requires within { row ≤ length (places_of self.now.program.plan self.now.program.site) }
        ensures sum { result ≡ widths self.now.program early
            (drop (rank_at self.now.program row) self.now.program.plan.flat.order) }
        ensures few { result ≤ most_width }
    {
        let (site_flows, _, _) = self.program.code();
        let mut total = 0;
        for k in row..site_flows.len() {
            total += width(&site_flows[k], early) as u64;
        }
        total
    }

    /// The items left after those done.
    pub fn left(&self) -> u64
        requires run { IsJobView self.now.inputs.job }
        requires set { IsSet self.now }
        requires stands { StandsAt self.now }
        requires going { is_faulted self.now ≡ false }
        requires ready { IsReadyAt self.now }
        ensures left { result ≡ left_after (outline self.now.inputs.job
            (streams_of self.now.inputs.job)) self.now.inputs.site (done_of self.now) }
        ensures few { result ≤ most_left }
    {
        let instants = self.inputs.instants();
        if self.instant < instants {
            let here = self.widths(self.row, true) - self.step as u64;
            let whole = (instants - self.instant - 1) as u64 * self.widths(0, true);
            here + whole + self.widths(0, false)
        } else {
            self.widths(self.row, false) - self.step as u64
        }
    }
}
