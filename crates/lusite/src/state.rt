//! The machine of one site in plain fields: a place in the script, and what is known there.

ghost use Rattle.std.specs.Prelude.{◌≡◌, ◌≢◌, ℕ, ◌+◌, ◌<◌, ◌≤◌, ◌||◌, ◌&&◌, ◌==◌, not, nat_lt, is_some, List, length, map, true, false, Option, Some, slice_get, slice_set, slice_index, unwrap_or, vec_capacity};
ghost use Rattle.std.specs.Option.{ForSome};
ghost use Rattle.luflow.specs.Program.{flow_at, column_of};
ghost use Rattle.luworld.specs.Needs.{stands};
ghost use Rattle.luworld.specs.Jobs.{outputs_of};
ghost use Rattle.luflow.specs.declared.data.Status.{Status as AnyStatus};
ghost use Rattle.lueval_lines.specs.Cells.{status_of, statuses, held, outcome_of, clock_of};
ghost use Rattle.lueval_lines.specs.Frames.{clock_in};
ghost use Rattle.lueval_lines.specs.Operations.{form_of};
ghost use Rattle.lusite_program.specs.Logs.{IsNoted, log_view};
ghost use Rattle.lusite_program.specs.Programs.{clock_at_rank, part_at, places_of, ranks_of, IsSiteFlow};
ghost use Rattle.lusite.specs.Logs.{is_noted, log_at, reported_at};
ghost use Rattle.lusite.specs.Machine.{is_faulted, shown_of, IsOpenBefore, IsShutBefore, IsSet, IsSameRun, IsReadyAt, ReportsFault, Computes, done_of, rest_of, cell_size, in_cell, offered_own, offered, with_body, IsLocalNext, IsPutNext, IsTakeNext};
ghost use Rattle.lusite.specs.States.{IsGoing, IsInOrder, GoesOn};

use crate::kept::age;
use crate::next::{Fault, Next};
use lueval_lines::{
    Answer, Cell, Line, cell_at, cell_of, column_of, is_datum, is_on, status, value_with,
};
use luflow::{Body, Datum, Form, Msg, Status};
use luplace::SiteInputs;
use lusite_program::{LinkNo, SiteFlow, SiteProgram, link_of, note};
use std::snapshot::Snapshot;

/// The machine of one site.
#[derive(Drop)]
pub struct SiteState {
    pub program: SiteProgram,
    pub inputs: SiteInputs,
    /// What each flow that the site knows shows now, by its number among these; of those that it has passed.
    pub shown: Vec<Cell>,
    /// The last value before this instant of each that is kept; absent before the first.
    pub lasts: Vec<Cell>,
    /// At how many instants before this one each that is kept was present.
    pub counts: Vec<u32>,
    /// The numbers of those of which the last value and the count are kept.
    pub kept: Vec<usize>,
    /// The statuses so far of each of them that the site reports.
    pub logs: Vec<Vec<Status>>,
    pub instant: u32,
    /// The number of the flow at hand among those that the site computes or takes.
    pub row: usize,
    /// The rank of the flow at hand, for contracts alone.
    pub place: Snapshot<usize>,
    /// How many of that flow's items are done at this instant.
    pub step: usize,
    pub fault: Option<Fault>,
}

/// Whether an item is left after those done, of a flow that is present or closes.
#[inline(always)]
fn is_left(done: usize, early: bool, own: bool, outs: usize, into: bool) -> bool
    ensures { result ≡ nat_lt done (in_cell true own early outs into) }
{
    if own {
        if early {
            return done <= outs;
        }
        return done < outs;
    }
    into && done == 0
}

/// A flow that had nothing to do is absent.
#[inline(always)]
fn clear(shown: &mut Vec<Cell>, i: usize, step: usize)
    requires within { i < length shown.old.items }
    ensures cleared { step ≡ 0 → statuses shown.new.items ≡ slice_set (statuses shown.old.items) i
        AnyStatus.Absent }
    ensures left { 0 < step → statuses shown.new.items ≡ statuses shown.old.items }
    ensures len { length shown.new.items ≡ length shown.old.items }
{
    if step == 0 {
        shown[i] = Cell::Absent;
    }
}

fn count_at(counts: &[u32], i: usize) -> u32
    ensures { result ≡ unwrap_or (slice_get counts.now i) 0 }
{
    match counts.get(i) {
        Some(count) => *count,
        None => 0,
    }
}

/// The datum that a cell holds, and nil where it holds none.
fn datum_of(cell: Cell) -> Datum
    ensures { result ≡ unwrap_or (held cell) Datum.Nil }
{
    if is_datum(cell) {
        return match cell {
            Cell::Number(n) => Datum::Int(n),
            Cell::Truth(b) => Datum::Bool(b),
            Cell::Name(n) => Datum::Name(n),
            _ => Datum::Nil,
        };
    }
    Datum::Nil
}

/// The flow of number i shows this now.
#[inline(always)]
fn show(shown: &mut Vec<Cell>, i: usize, cell: Cell)
    requires { i < length shown.old.items }
    ensures shown { statuses shown.new.items ≡ slice_set (statuses shown.old.items) i
        (status_of cell) }
    ensures len { length shown.new.items ≡ length shown.old.items }
{
    shown[i] = cell;
}

/// Adds the status of a cell to log i, if it is wanted.
#[inline(always)]
fn note_cell(logs: &mut Vec<Vec<Status>>, wanted: bool, i: usize, cell: Cell)
    requires within { wanted ≡ true → i < length logs.old.items }
    requires room { wanted ≡ true → ForSome (slice_get logs.old.items i)
        (λ x. length x.items < vec_capacity x) }
    ensures left { wanted ≡ false → logs.new.items ≡ logs.old.items }
    ensures noted { wanted ≡ true → ForSome (slice_get logs.old.items i)
        (λ x. IsNoted (map log_view logs.old.items) i (log_view x) (status_of cell)
        (map log_view logs.new.items)) }
    ensures len { length logs.new.items ≡ length logs.old.items }
{
    if wanted {
        note(logs, true, i, status(cell));
    }
}

fn show_body(shown: &mut Vec<Cell>, i: usize, body: Body)
    requires { i < length shown.old.items }
    ensures shown { statuses shown.new.items ≡ with_body (statuses shown.old.items) i body }
    ensures len { length shown.new.items ≡ length shown.old.items }
{
    match body {
        Body::Value(d) => show(shown, i, cell_of(d)),
        Body::Close => {}
    }
}

impl SiteState {
    /// The flow at hand, with the lists of all branches and of all links out.
    #[inline(always)]
    fn here(&self) -> (&SiteFlow, &[u16], &[LinkNo])
        requires set { IsSet self.now }
        requires within { self.now.row < length (places_of self.now.program.plan
            self.now.program.site) }
        ensures { IsSiteFlow self.now.program.plan self.now.program.site result.1.now result.2.now
            self.now.place.value result.0.now }
    {
        let (site_flows, branches, links) = self.program.code();
        (&site_flows[self.row], branches, links)
    }

    /// The flow at hand.
    #[inline(always)]
    fn site_flow(&self) -> &SiteFlow
        requires set { IsSet self.now }
        requires within { self.now.row < length (places_of self.now.program.plan
            self.now.program.site) }
        ensures { (branches : List ℕ) × (links : List ℕ) × IsSiteFlow self.now.program.plan
            self.now.program.site branches links self.now.place.value result.now }
    {
        let (site_flow, _, _) = self.here();
        site_flow
    }

    /// Whether the site reports the flow at hand.
    #[inline(always)]
    fn reported_here(&self) -> bool
        requires set { IsSet self.now }
        requires within { self.now.row < length (places_of self.now.program.plan
            self.now.program.site) }
        ensures { result ≡ (part_at self.now.program (slice_index
            self.now.program.plan.flat.order self.now.place.value)).reported }
    {
        self.site_flow().reported
    }

    /// Whether the status of the flow at hand is to be reported at this instant.
    #[inline(always)]
    fn noted(&self) -> bool
        requires set { IsSet self.now }
        requires within { self.now.row < length (places_of self.now.program.plan
            self.now.program.site) }
        ensures { result ≡ is_noted self.now (slice_index self.now.program.plan.flat.order
            self.now.place.value) }
    {
        self.instant < self.inputs.instants() && self.reported_here()
    }

    /// Whether the flow at hand, whose items are all done, is to be reported as absent.
    #[inline(always)]
    fn absent_noted(&self) -> bool
        requires set { IsSet self.now }
        requires within { self.now.row < length (places_of self.now.program.plan
            self.now.program.site) }
        ensures { result ≡ (self.now.step == 0 && is_noted self.now (slice_index
            self.now.program.plan.flat.order self.now.place.value)) }
    {
        self.step == 0 && self.noted()
    }

    /// The statuses so far of output k; nothing where another site reports it.
    pub fn output(&self, k: usize) -> &[Status]
        requires { IsSet self.now }
        ensures { result.now ≡ log_at self.now (slice_get (outputs_of self.now.program.plan) k) }
    {
        let Some(number) = self.program.reported_flow(k) else {
            return &[];
        };
        match self.logs.get(number) {
            Some(row) => row.as_slice(),
            None => &[],
        }
    }

    /// Whether a line's clock is true, or the table is over.
    #[inline(always)]
    fn is_open(&self, line: &Line, early: bool) -> bool
        ensures { result ≡ (not early || unwrap_or (clock_in (statuses self.now.shown.items)
            (clock_of line.now.clock)) false) }
    {
        if early {
            return is_on(&self.shown, line.clock);
        }
        true
    }

    /// Whether a flow of which nothing is done has an item at this instant.
    #[inline(always)]
    fn has_first(&self, site_flow: &SiteFlow, early: bool) -> bool
        ensures { result ≡ nat_lt 0 (in_cell (not early || unwrap_or (clock_in
            (statuses self.now.shown.items) (clock_of site_flow.now.line.clock)) false)
            site_flow.now.own early site_flow.now.outs (is_some site_flow.now.from)) }
    {
        if self.is_open(&site_flow.line, early) {
            return is_left(
                0,
                early,
                site_flow.own,
                site_flow.outs as usize,
                site_flow.from.is_some(),
            );
        }
        false
    }

    /// Whether an item of the flow at hand is left at this instant.
    #[inline(always)]
    fn has_item(&self) -> bool
        requires set { IsSet self.now }
        requires within { self.now.row < length (places_of self.now.program.plan
            self.now.program.site) }
        requires begun { 0 < self.now.step → self.now.step ≤ cell_size self.now (slice_index
            self.now.program.plan.flat.order self.now.place.value) }
        ensures { result ≡ nat_lt self.now.step (cell_size self.now (slice_index
            self.now.program.plan.flat.order self.now.place.value)) }
    {
        let site_flow = self.site_flow();
        let early = self.instant < self.inputs.instants();
        if self.step == 0 {
            return self.has_first(site_flow, early);
        }
        is_left(
            self.step,
            early,
            site_flow.own,
            site_flow.outs as usize,
            site_flow.from.is_some(),
        )
    }

    /// From a flow whose items are all done to the next one.
    #[inline(always)]
    fn pass(&mut self)
        requires going { IsGoing self.old }
        requires row { self.old.row < length (places_of self.old.program.plan
            self.old.program.site) }
        requires within { self.old.place.value < length self.old.program.plan.flat.order }
        requires all { self.old.step ≡ cell_size self.old (slice_index
            self.old.program.plan.flat.order self.old.place.value) }
        ensures goes_on { GoesOn self.old self.new }
        ensures done { done_of self.new ≡ done_of self.old }
        ensures less { rest_of self.new < rest_of self.old }
        ensures instant { self.new.instant ≡ self.old.instant }
        ensures row { self.new.row ≡ self.old.row + 1 }
        ensures first { self.new.step ≡ 0 }
        ensures shown { 0 < self.old.step → shown_of self.new ≡ shown_of self.old }
    {
        let wanted = self.absent_noted();
        clear(&mut self.shown, self.row, self.step);
        note(&mut self.logs, wanted, self.row, Status::Absent);
        self.row += 1;
        let rank = self.program.rank(self.row);
        self.place = Snapshot::of(&rank);
        self.step = 0;
    }

    /// Whether the flow at hand, whose items are all done, has none at this instant of the table.
    #[inline(always)]
    fn is_shut(&self) -> bool
        ensures { result ≡ true → (self.now.step ≡ 0)
            × (self.now.instant < self.now.inputs.job.inputs.instants) }
    {
        self.step == 0 && self.instant < self.inputs.instants()
    }

    /// Whether the flow at hand has the clock of the one before it.
    #[inline(always)]
    fn follows(&self) -> bool
        requires { IsSet self.now }
        ensures within { result ≡ true → self.now.row < length (places_of self.now.program.plan
            self.now.program.site) }
        ensures same { result ≡ true → (k p q : ℕ) → k + 1 ≡ self.now.row
            → slice_get (ranks_of self.now.program.plan self.now.program.site) k ≡ Some p
            → slice_get (ranks_of self.now.program.plan self.now.program.site) self.now.row
            ≡ Some q → clock_at_rank self.now.program.plan p
            ≡ clock_at_rank self.now.program.plan q }
    {
        if self.row >= self.program.places().len() {
            return false;
        }
        let (site_flows, _, _) = self.program.code();
        site_flows[self.row].same
    }

    /// Past flows that have the clock of the one before, which is absent: so they are.
    fn pass_same(&mut self)
        requires going { IsGoing self.old }
        requires early { self.old.instant < self.old.inputs.job.inputs.instants }
        requires first { self.old.step ≡ 0 }
        requires shut { IsShutBefore self.old }
        ensures goes_on { GoesOn self.old self.new }
        ensures done { done_of self.new ≡ done_of self.old }
        ensures less { rest_of self.new ≤ rest_of self.old }
    {
        'same: while self.follows() {
            self.pass();
        }
    }

    /// From a flow whose items are all done to the next one, and past those that are absent with it.
    fn pass_all(&mut self)
        requires going { IsGoing self.old }
        requires row { self.old.row < length (places_of self.old.program.plan
            self.old.program.site) }
        requires within { self.old.place.value < length self.old.program.plan.flat.order }
        requires all { self.old.step ≡ cell_size self.old (slice_index
            self.old.program.plan.flat.order self.old.place.value) }
        ensures goes_on { GoesOn self.old self.new }
        ensures done { done_of self.new ≡ done_of self.old }
        ensures less { rest_of self.new < rest_of self.old }
    {
        let shut = self.is_shut();
        self.pass();
        if shut {
            self.pass_same();
        }
    }

    /// From the last flow of an instant to the next instant.
    fn tick(&mut self)
        requires going { IsGoing self.old }
        requires last { self.old.place.value ≡ length self.old.program.plan.flat.order }
        requires early { self.old.instant < self.old.inputs.job.inputs.instants }
        ensures goes_on { GoesOn self.old self.new }
        ensures done { done_of self.new ≡ done_of self.old }
        ensures less { rest_of self.new < rest_of self.old }
    {
        age(
            &self.kept,
            &self.shown,
            &mut self.lasts,
            &mut self.counts,
            self.instant,
        );
        self.instant += 1;
        self.row = 0;
        let rank = self.program.rank(0);
        self.place = Snapshot::of(&rank);
        self.step = 0;
    }

    /// One move over what does nothing. False where an item is at hand or the script is over.
    #[inline(always)]
    fn advance(&mut self) -> bool
        requires { IsGoing self.old }
        ensures goes_on { GoesOn self.old self.new }
        ensures done { done_of self.new ≡ done_of self.old }
        ensures ready { result ≡ false → IsReadyAt self.new }
        ensures less { result ≡ true → rest_of self.new < rest_of self.old }
    {
        if self.row < self.program.places().len() {
            if self.has_item() {
                return false;
            }
            self.pass_all();
            return true;
        }
        if self.instant < self.inputs.instants() {
            self.tick();
            return true;
        }
        false
    }

    /// On from a flow that is begun, if no item of it is left.
    #[inline(always)]
    fn leave(&mut self)
        requires { IsGoing self.old }
        ensures goes_on { GoesOn self.old self.new }
        ensures done { done_of self.new ≡ done_of self.old }
    {
        if self.step > 0 {
            self.advance();
        }
    }

    /// Whether the site sends the flow at hand nowhere.
    #[inline(always)]
    pub fn is_unsent(&self) -> bool
        requires set { IsSet self.now }
        requires within { self.now.row < length (places_of self.now.program.plan
            self.now.program.site) }
        ensures { result ≡ true → length (part_at self.now.program (slice_index
            self.now.program.plan.flat.order self.now.place.value)).to ≡ 0 }
    {
        self.site_flow().outs == 0
    }

    /// On from a flow of which one item is done, where the site doesn't send it.
    #[inline(always)]
    fn leave_unsent(&mut self, unsent: bool)
        requires going { IsGoing self.old }
        requires row { self.old.row < length (places_of self.old.program.plan
            self.old.program.site) }
        requires first { self.old.step ≡ 1 }
        requires early { self.old.instant < self.old.inputs.job.inputs.instants }
        requires unsent { unsent ≡ true → length (part_at self.old.program (slice_index
            self.old.program.plan.flat.order self.old.place.value)).to ≡ 0 }
        ensures goes_on { GoesOn self.old self.new }
        ensures done { done_of self.new ≡ done_of self.old }
        ensures instant { self.new.instant ≡ self.old.instant }
        ensures follows { unsent ≡ true → IsOpenBefore self.new }
    {
        if unsent {
            self.pass();
        }
    }

    /// Whether the next item is a computation.
    #[inline(always)]
    fn is_local(&self) -> bool
        requires { IsGoing self.now }
        ensures local { result ≡ true → offered self.now ≡ Next.Local }
        ensures within { result ≡ true → self.now.row < length (places_of self.now.program.plan
            self.now.program.site) }
    {
        if self.row >= self.program.places().len() {
            return false;
        }
        if self.instant < self.inputs.instants() && self.step == 0 {
            return self.site_flow().own;
        }
        false
    }

    /// Whether the flow at hand is computed next, at an instant of the table. Where it follows one that is
    /// present, a clock that is the same isn't looked at.
    #[inline(always)]
    fn starts(&self, follows: bool) -> bool
        requires going { IsGoing self.now }
        requires early { self.now.instant < self.now.inputs.job.inputs.instants }
        requires follows { follows ≡ true → IsOpenBefore self.now }
        ensures ready { result ≡ true → IsReadyAt self.now }
        ensures local { result ≡ true → offered self.now ≡ Next.Local }
    {
        if self.row >= self.program.places().len() {
            return false;
        }
        let (site_flows, _, _) = self.program.code();
        let site_flow = &site_flows[self.row];
        if self.step == 0 && site_flow.own {
            if follows && site_flow.same {
                return true;
            }
            return self.has_first(site_flow, true);
        }
        false
    }

    /// On to the next item, or to the end. True only where that item is a computation.
    pub fn settle(&mut self) -> bool
        requires { IsGoing self.old }
        ensures goes_on { GoesOn self.old self.new }
        ensures done { done_of self.new ≡ done_of self.old }
        ensures ready { IsReadyAt self.new }
        ensures local { result ≡ true → offered self.new ≡ Next.Local }
    {
        self.leave();
        'on: while self.advance() {}
        self.is_local()
    }

    /// The same behind the computation of a flow, which is its last item where the flow isn't sent.
    #[inline(always)]
    pub fn settle_computed(&mut self, unsent: bool) -> bool
        requires going { IsGoing self.old }
        requires row { self.old.row < length (places_of self.old.program.plan
            self.old.program.site) }
        requires first { self.old.step ≡ 1 }
        requires early { self.old.instant < self.old.inputs.job.inputs.instants }
        requires unsent { unsent ≡ true → length (part_at self.old.program (slice_index
            self.old.program.plan.flat.order self.old.place.value)).to ≡ 0 }
        ensures goes_on { GoesOn self.old self.new }
        ensures done { done_of self.new ≡ done_of self.old }
        ensures ready { IsReadyAt self.new }
        ensures local { result ≡ true → offered self.new ≡ Next.Local }
    {
        self.leave_unsent(unsent);
        if self.starts(unsent) {
            return true;
        }
        self.settle()
    }

    /// What the table gives a line now, where it is an input of the site's; absent where it gives nothing.
    #[inline(always)]
    fn given(&self, line: &Line) -> Cell
        ensures { (branches : List ℕ) (c : ℕ) → form_of branches line.now.operation ≡ Form.Input c
            → stands self.now.inputs.job.plan c self.now.inputs.site ≡ true → held result
            ≡ slice_get (column_of self.now.inputs.job.inputs c) self.now.instant }
    {
        let Some(c) = column_of(line) else {
            return Cell::Absent;
        };
        match self.inputs.given(c as usize, self.instant) {
            Some(d) => cell_of(d),
            None => Cell::Absent,
        }
    }

    /// The value of the flow at hand now.
    #[inline(always)]
    fn compute(&self) -> Answer
        requires set { IsSet self.now }
        requires within { self.now.row < length (places_of self.now.program.plan
            self.now.program.site) }
        requires own { stands self.now.inputs.job.plan (slice_index
            self.now.inputs.job.plan.flat.order self.now.place.value) self.now.inputs.site ≡ true }
        ensures { Computes self.now (slice_index self.now.program.plan.flat.order self.now.place.value)
            (flow_at self.now.program.plan.flat (slice_index self.now.program.plan.flat.order
            self.now.place.value)) (outcome_of result) }
    {
        let (site_flow, branches, _) = self.here();
        value_with(
            &site_flow.line,
            branches,
            self.given(&site_flow.line),
            &self.shown,
            &self.lasts,
        )
    }

    /// What the machine offers next.
    #[inline(always)]
    pub fn offer(&self) -> Next
        requires { IsSet self.now }
        ensures { result ≡ offered self.now }
    {
        if self.fault.is_some() {
            return Next::Faulted;
        }
        if self.row >= self.program.places().len() {
            return Next::Ended;
        }
        let (site_flow, _, links) = self.here();
        if site_flow.own {
            self.offer_own(site_flow, links)
        } else {
            Next::Take(site_flow.from.unwrap_or(0))
        }
    }

    #[inline(always)]
    fn offer_own(&self, site_flow: &SiteFlow, links: &[LinkNo]) -> Next
        requires set { IsSet self.now }
        requires within { self.now.row < length (places_of self.now.program.plan
            self.now.program.site) }
        requires site_flow { (branches : List ℕ) × IsSiteFlow self.now.program.plan
            self.now.program.site branches links.now self.now.place.value site_flow.now }
        ensures { result ≡ offered_own self.now (slice_index self.now.program.plan.flat.order
            self.now.place.value) (part_at self.now.program (slice_index
            self.now.program.plan.flat.order self.now.place.value)).to }
    {
        if self.instant < self.inputs.instants() {
            if self.step == 0 {
                return Next::Local;
            }
            return self.offer_value(site_flow, links);
        }
        self.offer_close(site_flow, links)
    }

    /// The put at hand of a value.
    fn offer_value(&self, site_flow: &SiteFlow, links: &[LinkNo]) -> Next
        requires set { IsSet self.now }
        requires within { self.now.row < length (places_of self.now.program.plan
            self.now.program.site) }
        requires site_flow { (branches : List ℕ) × IsSiteFlow self.now.program.plan
            self.now.program.site branches links.now self.now.place.value site_flow.now }
        requires early { self.now.instant < self.now.inputs.job.inputs.instants }
        requires some { 0 < self.now.step }
        ensures { result ≡ offered_own self.now (slice_index self.now.program.plan.flat.order
            self.now.place.value) (part_at self.now.program (slice_index
            self.now.program.plan.flat.order self.now.place.value)).to }
    {
        let link = link_of(site_flow, links, self.step - 1);
        let no = count_at(&self.counts, self.row);
        let body = Body::Value(datum_of(cell_at(&self.shown, site_flow.line.place)));
        Next::Put(link, Msg { no, body })
    }

    /// The put at hand of the close.
    fn offer_close(&self, site_flow: &SiteFlow, links: &[LinkNo]) -> Next
        requires set { IsSet self.now }
        requires within { self.now.row < length (places_of self.now.program.plan
            self.now.program.site) }
        requires site_flow { (branches : List ℕ) × IsSiteFlow self.now.program.plan
            self.now.program.site branches links.now self.now.place.value site_flow.now }
        requires late { self.now.inputs.job.inputs.instants ≤ self.now.instant }
        ensures { result ≡ offered_own self.now (slice_index self.now.program.plan.flat.order
            self.now.place.value) (part_at self.now.program (slice_index
            self.now.program.plan.flat.order self.now.place.value)).to }
    {
        let link = link_of(site_flow, links, self.step);
        let no = count_at(&self.counts, self.row);
        Next::Put(
            link,
            Msg {
                no,
                body: Body::Close,
            },
        )
    }

    /// Computes the flow at hand. False where that was a fault.
    #[inline(always)]
    pub fn work(&mut self) -> bool
        requires going { IsGoing self.old }
        requires ready { IsReadyAt self.old }
        requires next { IsLocalNext self.old.inputs.job self.old.inputs.site (done_of self.old) }
        ensures same { IsSameRun self.old self.new }
        ensures in_order { IsInOrder self.new }
        ensures tells { ReportsFault self.new }
        ensures done { done_of self.new ≡ done_of self.old + 1 }
        ensures row { self.new.row ≡ self.old.row }
        ensures place { self.new.place.value ≡ self.old.place.value }
        ensures first { self.new.step ≡ 1 }
        ensures early { result ≡ true → self.new.instant < self.new.inputs.job.inputs.instants }
        ensures goes { result ≡ true → is_faulted self.new ≡ false }
        ensures stops { result ≡ false → is_faulted self.new ≡ true }
    {
        let answer = self.compute();
        match answer {
            Answer::Gives(cell) => {
                let wanted = self.reported_here();
                show(&mut self.shown, self.row, cell);
                note_cell(&mut self.logs, wanted, self.row, cell);
                self.step = 1;
                true
            }
            Answer::Faults(kind) => {
                self.step = 1;
                let variable = self.site_flow().owner;
                self.fault = Some(Fault {
                    variable,
                    instant: self.instant,
                    kind,
                });
                false
            }
            Answer::Stuck => unreachable!(),
        }
    }

    /// Goes on behind the put at hand, which is done.
    pub fn sent(&mut self)
        requires going { IsGoing self.old }
        requires ready { IsReadyAt self.old }
        requires next { IsPutNext self.old.inputs.job self.old.inputs.site (done_of self.old) }
        ensures goes_on { GoesOn self.old self.new }
        ensures done { done_of self.new ≡ done_of self.old + 1 }
    {
        self.step += 1;
    }

    /// The take at hand gave this message.
    pub fn given_message(&mut self, msg: Msg)
        requires going { IsGoing self.old }
        requires ready { IsReadyAt self.old }
        requires next { IsTakeNext self.old.inputs.job self.old.inputs.site (done_of self.old) msg }
        ensures goes_on { GoesOn self.old self.new }
        ensures done { done_of self.new ≡ done_of self.old + 1 }
    {
        show_body(&mut self.shown, self.row, msg.body);
        self.step = 1;
    }
}
