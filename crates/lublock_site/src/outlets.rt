//! The sending ends of a site in rows: rows go out as messages. Nothing here waits.

ghost use Rattle.std.specs.Prelude.{◌≡◌, ◌<◌, ◌≤◌, ◌+◌, true, length};
ghost use Rattle.lublock_kernels.specs.Machine.{ticks_of};
ghost use Rattle.luworld.specs.Turns.{IfGoes};
ghost use Rattle.lublock_site.specs.Stations.{AreMessagesOut, HasSent, MayClose, MaySend};

use crate::steps::{fill_run, number_after};
use crate::turns::moved_if;
use lublock::row_at;
use lublock_kernels::forms::kind_at;
use lublock_kernels::span::Span;
use luflow::{Body, Flat, Msg};
use lulink::{Offer, Tx};
use luworld::Turn;

/// The sending end of a link, the flow that it carries, how many of its ticks in the block it has sent, and
/// the number of its next message.
#[derive(Drop)]
pub struct Outlet {
    pub tx: Tx,
    pub flow: usize,
    pub sent: usize,
    pub number: u32,
    /// Whether it has put the close.
    pub closed: bool,
}

/// Fills a run with the messages of the end's next ticks, up to tick `to`. False where one of them has no
/// datum or no number.
fn fill(
    flat: &Flat,
    rows: &[Vec<i64>],
    spans: &[Span],
    outlet: &Outlet,
    run: &mut Vec<Msg>,
    to: usize,
) -> bool
    requires ticks { to ≡ ticks_of spans.now outlet.now.flow }
    requires few { outlet.now.sent < to }
    ensures filled { result ≡ true
        → AreMessagesOut flat.now rows.now spans.now outlet.now run.new.items }
    ensures within { result ≡ true → outlet.now.sent + length run.new.items ≤ to }
{
    let Some(kind) = kind_at(flat, outlet.flow) else {
        return false;
    };
    let row = row_at(rows, outlet.flow);
    if row.len() <= to {
        return false;
    }
    fill_run(kind, row, outlet.sent, outlet.number, run, to - outlet.sent)
}

/// Puts the messages of the end's next ticks, as many as there is room for and no more than one run. It is
/// over where a message has no datum or no number.
fn offer_some(
    flat: &Flat,
    rows: &[Vec<i64>],
    spans: &[Span],
    outlet: &mut Outlet,
    run: &mut Vec<Msg>,
    to: usize,
) -> Turn
    requires may { MaySend flat.now rows.now spans.now outlet.old }
    requires ticks { to ≡ ticks_of spans.now outlet.old.flow }
    requires few { outlet.old.sent < to }
    ensures sent { IfGoes result (HasSent flat.now outlet.old outlet.new) }
    ensures closed { outlet.new.closed ≡ outlet.old.closed }
{
    if !fill(flat, rows, spans, outlet, run, to) {
        return Turn::Over;
    }
    let put = outlet.tx.offer_run(run.as_slice());
    let Some(number) = number_after(outlet.number, put) else {
        return Turn::Over;
    };
    outlet.sent += put;
    outlet.number = number;
    moved_if(put == run.len())
}

/// Puts the messages of the end's next ticks, as many as there is room for and no more than one run. It is
/// over where the receiver has left a full link, or a message has no datum or no number.
fn put_some(
    flat: &Flat,
    rows: &[Vec<i64>],
    spans: &[Span],
    outlet: &mut Outlet,
    run: &mut Vec<Msg>,
    to: usize,
) -> Turn
    requires may { MaySend flat.now rows.now spans.now outlet.old }
    requires ticks { to ≡ ticks_of spans.now outlet.old.flow }
    requires few { outlet.old.sent < to }
    ensures sent { IfGoes result (HasSent flat.now outlet.old outlet.new) }
    ensures closed { outlet.new.closed ≡ outlet.old.closed }
{
    match offer_some(flat, rows, spans, outlet, run, to) {
        Turn::Moved => Turn::Moved,
        Turn::Over => Turn::Over,
        Turn::Blocked => {
            if outlet.tx.gone() {
                return Turn::Over;
            }
            Turn::Blocked
        }
    }
}

/// Puts the messages of the end's ticks up to tick `to`, or until the link is full.
pub fn put_all(
    flat: &Flat,
    rows: &[Vec<i64>],
    spans: &[Span],
    outlet: &mut Outlet,
    run: &mut Vec<Msg>,
    to: usize,
) -> Turn
    requires may { MaySend flat.now rows.now spans.now outlet.old }
    requires ticks { to ≡ ticks_of spans.now outlet.old.flow }
    ensures { IfGoes result (HasSent flat.now outlet.old outlet.new) }
{
    for _n in outlet.sent..to {
        if outlet.sent >= to {
            return Turn::Moved;
        }
        match put_some(flat, rows, spans, outlet, run, to) {
            Turn::Moved => {}
            Turn::Blocked => return Turn::Blocked,
            Turn::Over => return Turn::Over,
        }
    }
    Turn::Moved
}

/// Puts the close of a link, if there is room. It is over where the receiver has left a full link.
pub fn put_close(flat: &Flat, outlet: &mut Outlet) -> Turn
    requires { MayClose flat.now outlet.old }
    ensures { IfGoes result (HasSent flat.now outlet.old outlet.new) }
{
    flat.recall_invariant();
    let msg = Msg {
        no: outlet.number,
        body: Body::Close,
    };
    match outlet.tx.offer(msg) {
        Offer::Done => {
            outlet.closed = true;
            Turn::Moved
        }
        Offer::Full(_) => {
            if outlet.tx.gone() {
                return Turn::Over;
            }
            Turn::Blocked
        }
    }
}
