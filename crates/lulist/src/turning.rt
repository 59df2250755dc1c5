//! The end of an instant, and which step of a site is next.

ghost use Rattle.std.specs.Prelude.{◌≡◌, ◌<◌, ◌≤◌, ℕ, true, All, length, map, Some, slice_get, slice_set};
ghost use Rattle.lueval_lines.specs.declared.cell.Cell.{Cell as AnyCell};
ghost use Rattle.lueval_lines.specs.Cells.{newest};
ghost use Rattle.lusite_program.specs.Logs.{log_view};
ghost use Rattle.luworld.specs.Turns.{IfGoes};
ghost use Rattle.lulist.specs.Turns.{AreAged, AreNotedTo};
ghost use Rattle.lulist.specs.Lists.{IsListing, IsSameRun};

use crate::site::{ListSite, number_at};
use lueval_lines::{Cell, Lent, is_absent, status, work_all};
use luflow::Status;
use lusite_program::note;
use luworld::Turn;

/// The last value of flow k, one instant later.
#[inline(always)]
fn renew(lasts: &mut [Cell], k: usize, cell: Cell)
    requires { k < length lasts.old }
    ensures { (y : AnyCell) → slice_get lasts.old k ≡ Some y
        → lasts.new ≡ slice_set lasts.old k (newest cell y) }
{
    if is_absent(cell) {
        return;
    }
    lasts[k] = cell;
}

/// The last values of these flows, one instant later.
fn age(kept: &[usize], shown: &[Cell], lasts: &mut [Cell])
    requires inside { All (λ k. k < length shown.now) kept.now }
    requires len { length lasts.old ≡ length shown.now }
    ensures aged { AreAged kept.now shown.now lasts.old lasts.new }
    ensures len { length lasts.new ≡ length lasts.old }
{
    for j in 0..kept.len() {
        let k = kept[j];
        renew(lasts, k, shown[k]);
    }
}

/// The same of a whole vector.
fn age_all(kept: &[usize], shown: &[Cell], lasts: &mut Vec<Cell>)
    requires inside { All (λ k. k < length shown.now) kept.now }
    requires len { length lasts.old.items ≡ length shown.now }
    ensures aged { AreAged kept.now shown.now lasts.old.items lasts.new.items }
    ensures len { length lasts.new.items ≡ length lasts.old.items }
{
    age(kept, shown, lasts.as_mut_slice());
}

/// Notes what these flows show, each in its log. False where one isn't there, or there is no room.
fn note_all(noted: &[usize], shown: &[Cell], logs: &mut Vec<Vec<Status>>) -> bool
    ensures { result ≡ true
        → AreNotedTo noted.now shown.now (map log_view logs.old.items)
        (map log_view logs.new.items) (length noted.now) }
{
    for j in 0..noted.len() {
        let k = noted[j];
        if shown.len() <= k || logs.len() <= j || logs[j].len() >= logs[j].capacity() {
            return false;
        }
        note(logs, true, j, status(shown[k]));
    }
    true
}

impl ListSite {
    /// Goes on to the next instant. It is over where something is missing.
    fn end_instant(&mut self) -> Turn
        requires going { IsListing self.old }
        requires early { self.old.t < self.old.inputs.job.inputs.instants }
        requires all { length self.old.flows.lines.rows.items ≤ self.old.at }
        ensures going { IfGoes result (IsListing self.new) }
        ensures same { IsSameRun self.old self.new }
    {
        if !note_all(&self.noted, &self.shown, &mut self.logs) {
            return Turn::Over;
        }
        age_all(&self.flows.kept, &self.shown, &mut self.lasts);
        self.t += 1;
        self.at = self.flows.fixed;
        self.out = 0;
        Turn::Moved
    }

    /// Works out flows that are computed here, one behind the other, up to this number.
    fn work_rows(&mut self, to: usize) -> Turn
        requires going { IsListing self.old }
        requires early { self.old.t < self.old.inputs.job.inputs.instants }
        ensures going { IfGoes result (IsListing self.new) }
        ensures same { IsSameRun self.old self.new }
    {
        let from = self.at;
        let count = self.flows.lines.rows.len();
        let end = if to < count { to } else { count };
        let come = work_all(
            &self.flows.lines,
            Lent::Own(self.inputs.columns()),
            self.t,
            &self.lasts,
            &mut self.shown,
            from,
            end,
        );
        self.at = come;
        if come < end { Turn::Over } else { Turn::Moved }
    }

    /// The flow at hand, and those that can be worked out at once with it.
    fn rows_step(&mut self) -> Turn
        requires going { IsListing self.old }
        requires early { self.old.t < self.old.inputs.job.inputs.instants }
        requires within { self.old.at < length self.old.flows.lines.rows.items }
        ensures going { IfGoes result (IsListing self.new) }
        ensures same { IsSameRun self.old self.new }
    {
        if self.flows.lines.rows[self.at].own {
            let run = number_at(&self.row_runs, self.at);
            return self.work_rows(run);
        }
        self.take_row()
    }

    /// The next sending end, if its flow lies behind.
    fn next_out(&self) -> Option<usize> {
        let e = *self.queue.as_slice().get(self.out)?;
        let outlet = self.outlets.as_slice().get(e)?;
        if outlet.row < self.at { Some(e) } else { None }
    }

    /// Does what is next at an instant of the table.
    fn early_step(&mut self) -> Turn
        requires going { IsListing self.old }
        requires early { self.old.t < self.old.inputs.job.inputs.instants }
        ensures going { IfGoes result (IsListing self.new) }
        ensures same { IsSameRun self.old self.new }
    {
        if let Some(e) = self.next_out() {
            return self.put_step(e);
        }
        if self.at < self.flows.lines.rows.len() {
            return self.rows_step();
        }
        self.end_instant()
    }

    /// Does what is next behind the last instant.
    fn late_step(&mut self) -> Turn
        requires going { IsListing self.old }
        requires late { self.old.t ≡ self.old.inputs.job.inputs.instants }
        ensures going { IfGoes result (IsListing self.new) }
        ensures same { IsSameRun self.old self.new }
    {
        if let Some(e) = self.next_out() {
            return self.put_close(e);
        }
        if self.at < self.flows.lines.rows.len() {
            return self.close_row();
        }
        Turn::Over
    }

    /// Whether the site has ended: all instants lie behind, and all closes were passed.
    pub fn has_ended(&self) -> bool
        requires { IsListing self.now }
        ensures { result ≡ true → self.now.t ≡ self.now.inputs.job.inputs.instants }
    {
        self.t == self.inputs.instants()
            && self.flows.lines.rows.len() <= self.at
            && self.queue.len() <= self.out
    }

    /// Does what is next. Where it is over the site can't go on.
    pub fn go(&mut self) -> Turn
        requires { IsListing self.old }
        ensures going { IfGoes result (IsListing self.new) }
        ensures same { IsSameRun self.old self.new }
    {
        if self.t < self.inputs.instants() {
            return self.early_step();
        }
        self.late_step()
    }
}
