//! A site in rows: what stays, where it stands, and its steps.

ghost use Rattle.std.specs.Prelude.{◌≡◌, ◌<◌, ◌≤◌, ◌+◌, ℕ, true, false, length, List, Some, slice_get, slice_set};
ghost use Rattle.lublock_kernels.specs.Machine.{ticks_of};
ghost use Rattle.luworld.specs.Turns.{IfGoes};
ghost use Rattle.lublock_site.specs.Going.{IsGoing, IsSameRun, HasBroughtAt, MaySendAt, HasSentAt};

use crate::code::SiteCode;
use crate::columns::own_column;
use crate::outlets::{Outlet, put_all};
use crate::parts::is_marked;
use crate::sources::{Source, take_all};
use crate::sure::admit;
use lublock::Board;
use lublock_kernels::forms::upto_at;
use lublock_kernels::span::Span;
use lublock_plan::Cycle;
use luflow::{Flat, Inputs, Msg, Status, Values};
use luplace::Job;
use luworld::Turn;
use std::alloc::Global;
use std::snapshot::Snapshot;

/// What of a site in rows stays: its code, and the columns of own inputs.
#[derive(Drop)]
pub struct Frame {
    pub alloc: Global,
    pub code: SiteCode,
    pub given: Vec<Option<Values>>,
    /// A table without columns.
    pub none: Inputs,
    pub instants: usize,
}

/// A site in rows: the block of `len` instants from `t` on, and the step at hand.
#[derive(Drop)]
pub struct RowSite {
    pub job: Snapshot<Job>,
    pub site: u8,
    pub frame: Frame,
    pub cycles: Vec<Cycle>,
    pub board: Board,
    pub sure: Vec<bool>,
    pub sources: Vec<Source>,
    pub outlets: Vec<Outlet>,
    /// Room for the messages that are put or taken at once.
    pub run: Vec<Msg>,
    pub columns: Vec<Vec<Status>>,
    pub t: usize,
    pub len: usize,
    pub at: usize,
}

/// The ticks of a flow in the block.
pub fn ticks_at(spans: &[Span], i: usize) -> usize
    ensures { result ≡ ticks_of spans.now i }
{
    match spans.get(i) {
        Some(span) => span.ticks,
        None => 0,
    }
}

/// Takes messages of receiving end k, as `take_all` does.
fn take_at(
    flat: &Flat,
    board: &mut Board,
    sources: &mut Vec<Source>,
    run: &mut Vec<Msg>,
    k: usize,
    ticks: usize,
) -> Turn
    requires { k < length sources.old.items }
    ensures { IfGoes result
        (HasBroughtAt flat.now k board.old sources.old.items board.new sources.new.items) }
{
    let source = &mut sources[k];
    take_all(flat, board, source, run, ticks)
}

/// Puts messages of sending end k, as `put_all` does.
fn put_at(
    flat: &Flat,
    rows: &[Vec<i64>],
    spans: &[Span],
    outlets: &mut Vec<Outlet>,
    run: &mut Vec<Msg>,
    k: usize,
    to: usize,
) -> Turn
    requires within { k < length outlets.old.items }
    requires may { MaySendAt flat.now rows.now spans.now k outlets.old.items to }
    ensures { IfGoes result (HasSentAt flat.now k outlets.old.items outlets.new.items) }
{
    let outlet = &mut outlets[k];
    put_all(flat, rows, spans, outlet, run, to)
}

impl RowSite {
    /// Finds all words of own flow i, which has the clock of flow `like`.
    pub fn column_step(&mut self, i: usize, like: usize) -> Turn
        requires { IsGoing self.old }
        ensures going { IfGoes result (IsGoing self.new) }
        ensures same { IsSameRun self.old self.new }
    {
        let frame = &self.frame;
        let given = frame.given.as_slice();
        let flat = &*frame.code.flat;
        let board = &mut self.board;
        if own_column(
            frame.alloc,
            flat,
            given,
            &frame.none,
            board,
            self.t,
            self.len,
            i,
            like,
        ) {
            return Turn::Over;
        }
        Turn::Moved
    }

    /// Goes through cycle k, and supposes what its `pre`s give.
    pub fn cycle_step(&mut self, k: usize) -> Turn
        requires { IsGoing self.old }
        ensures going { IfGoes result (IsGoing self.new) }
        ensures same { IsSameRun self.old self.new }
    {
        if self.cycles.len() <= k {
            return Turn::Over;
        }
        let flat = &*self.frame.code.flat;
        if self.board.cycle(flat, self.len, &mut self.cycles[k]) {
            return Turn::Over;
        }
        Turn::Moved
    }

    /// Looks whether these members are found, so that they are sure.
    pub fn sure_step(&mut self, from: usize, to: usize) -> Turn
        requires { IsGoing self.old }
        ensures going { IfGoes result (IsGoing self.new) }
        ensures same { IsSameRun self.old self.new }
    {
        let frame = &self.frame;
        let Some(flows) = frame.code.order.members.as_slice().get(from..to) else {
            return Turn::Over;
        };
        let flat = &*frame.code.flat;
        if admit(
            flat,
            frame.code.marks.own.as_slice(),
            &mut self.board,
            &mut self.sure,
            flows,
        ) {
            return Turn::Over;
        }
        Turn::Moved
    }

    /// Takes messages of receiving end k into the row of flow i, which has the clock of flow `like`.
    pub fn take_step(&mut self, k: usize, i: usize, like: usize) -> Turn
        requires { IsGoing self.old }
        ensures going { IfGoes result (IsGoing self.new) }
        ensures same { IsSameRun self.old self.new }
    {
        let flat = &*self.frame.code.flat;
        if self.sources.len() <= k || self.board.count(flat, self.len, i, like) {
            return Turn::Over;
        }
        let source = &self.sources[k];
        let got = upto_at(self.board.spans.as_slice(), i);
        if source.closed || source.flow != i || source.got != got {
            return Turn::Over;
        }
        if is_marked(self.frame.code.marks.own.as_slice(), i) {
            return Turn::Over;
        }
        let ticks = ticks_at(self.board.spans.as_slice(), i);
        let run = &mut self.run;
        take_at(flat, &mut self.board, &mut self.sources, run, k, ticks)
    }

    /// Puts messages of sending end k.
    pub fn put_step(&mut self, k: usize) -> Turn
        requires { IsGoing self.old }
        ensures going { IfGoes result (IsGoing self.new) }
        ensures same { IsSameRun self.old self.new }
    {
        if self.outlets.len() <= k {
            return Turn::Over;
        }
        let outlet = &self.outlets[k];
        if outlet.closed || !is_marked(self.sure.as_slice(), outlet.flow) {
            return Turn::Over;
        }
        let flat = &*self.frame.code.flat;
        let spans = self.board.spans.as_slice();
        let to = ticks_at(spans, outlet.flow);
        let rows = self.board.rows.as_slice();
        put_at(flat, rows, spans, &mut self.outlets, &mut self.run, k, to)
    }
}
