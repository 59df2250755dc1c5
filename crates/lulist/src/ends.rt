//! The ends of a site's links: one message is taken, or put. Nothing here waits.

ghost use Rattle.lulink.specs.Views.{IsNextToPut, TakenOrNot};
ghost use Rattle.lulist.specs.Ends.{HasCome, HasGone};

use luflow::{Body, Datum, Msg};
use lulink::{Offer, Rx, Tx};
use luworld::Turn;

/// The receiving end of a link, the number of the flow that it brings, and the messages of how many instants
/// it has taken.
#[derive(Drop)]
pub struct Source {
    pub rx: Rx,
    pub row: usize,
    pub done: u32,
    /// Whether it has taken the close.
    pub closed: bool,
}

/// The sending end of a link, the number of the flow that it sends, the messages of how many instants it has
/// put, and the number of the next.
#[derive(Drop)]
pub struct Outlet {
    pub tx: Tx,
    pub row: usize,
    pub done: u32,
    pub number: u32,
    /// Whether it has put the close.
    pub closed: bool,
}

/// What a receiving end brought.
#[derive(Clone, Copy, Drop)]
pub enum Came {
    /// A value.
    Value(Datum),
    /// The close.
    Close,
    /// Nothing is there yet.
    Nothing,
    /// Nothing is there, and the sender has left.
    Lost,
}

/// Takes the next message of a link, if it is there.
#[inline(always)]
fn look(rx: &mut Rx) -> Came
    ensures { HasCome result rx.old rx.new }
{
    match rx.poll() {
        Some(msg) => match msg.body {
            Body::Value(datum) => Came::Value(datum),
            Body::Close => Came::Close,
        },
        None => Came::Nothing,
    }
}

/// Takes the next message of a link, if it is there, once more where its sender has left, since all that it
/// put was there before.
pub fn take_one(rx: &mut Rx) -> Came
    ensures { HasCome result rx.old rx.new }
{
    match look(rx) {
        Came::Nothing => {
            if !rx.gone() {
                return Came::Nothing;
            }
            match look(rx) {
                Came::Nothing => Came::Lost,
                came => came,
            }
        }
        came => came,
    }
}

/// Puts the next message of a link, if there is room. It is over where the receiver has left a full link.
pub fn put_one(tx: &mut Tx, msg: Msg) -> Turn
    requires { IsNextToPut tx.old msg }
    ensures { HasGone result msg tx.old tx.new }
{
    match tx.offer(msg) {
        Offer::Done => Turn::Moved,
        Offer::Full(_) => {
            if tx.gone() {
                return Turn::Over;
            }
            Turn::Blocked
        }
    }
}
