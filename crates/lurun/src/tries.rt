//! A site's items over the ends of its links, with no wait.
#![tactic(auto, using(std::proofs::lemmas::Grind::elements))]

ghost use Rattle.std.specs.Prelude.{◌≡◌, ◌+◌, ◌<◌, false, length, List, slice_get, None, Some};
ghost use Rattle.std.specs.Option.{ForSome};
ghost use Rattle.lulink.specs.Views.{SenderView, ReceiverView, IsNextToPut};
ghost use Rattle.lusite.specs.Machine.{IsNext};
ghost use Rattle.luworld.specs.declared.turn.Turn.TheVariants.{Over};
ghost use Rattle.luworld.specs.Turns.{has_moved};
ghost use Rattle.lurun.specs.Cuts.{FoundReceiverGone, FoundSenderGone, IsCutAtPut, IsCutAtTake};
ghost use Rattle.lurun.specs.Items.{AreSenders, AreReceivers, IsSameSite, Moves, IsPutAt, IsTakenAt, PutAs, TakenAs};

use crate::ends::{receiver_place, sender_place};
use luflow::Msg;
use lulink::{Offer, Rx, Tx};
use lusite::{LinkNo, Next, Site};
use luworld::Turn;

/// Puts the next message of a link, if there is room.
fn offer_end(tx: &mut Tx, msg: Msg) -> Turn
    requires { IsNextToPut tx.old msg }
    ensures put { PutAs (has_moved result) msg tx.old tx.new }
    ensures gone { result ≡ Over → FoundReceiverGone tx.new }
{
    match tx.offer(msg) {
        Offer::Done => Turn::Moved,
        Offer::Full(_) => { if tx.gone() { Turn::Over } else { Turn::Blocked } }
    }
}

/// Takes the next message of a link, if it is there; and whether one may come yet, where it isn't.
fn poll_end(rx: &mut Rx) -> (Option<Msg>, bool)
    ensures taken { TakenAs result.0 rx.old rx.new }
    ensures gone { result.0 ≡ None → result.1 ≡ false → FoundSenderGone rx.new }
{
    match rx.poll() {
        Some(msg) => (Some(msg), true),
        None => {
            if rx.gone() {
                (rx.poll(), false)
            } else {
                (None, true)
            }
        }
    }
}

fn offer_at(txs: &mut Vec<Tx>, i: usize, msg: Msg) -> Turn
    requires within { i < length txs.old.items }
    requires next { (t : SenderView) → slice_get txs.old.items i ≡ Some t → IsNextToPut t msg }
    ensures put { IsPutAt txs.old.items i (has_moved result) msg txs.new.items }
    ensures gone { result ≡ Over → ForSome (slice_get txs.new.items i) FoundReceiverGone }
{
    let tx = &mut txs[i];
    offer_end(tx, msg)
}

fn poll_at(rxs: &mut Vec<Rx>, i: usize) -> (Option<Msg>, bool)
    requires { i < length rxs.old.items }
    ensures taken { IsTakenAt rxs.old.items i result.0 rxs.new.items }
    ensures gone { result.0 ≡ None → result.1 ≡ false
        → ForSome (slice_get rxs.new.items i) FoundSenderGone }
{
    let rx = &mut rxs[i];
    poll_end(rx)
}

/// Tries the put at hand. It is done where the answer says so, and else nothing has changed.
pub fn offer_one(site: &mut Site, txs: &mut Vec<Tx>, link: LinkNo, msg: Msg) -> Turn
    requires senders { AreSenders site.old txs.old.items }
    requires next { IsNext site.old.job site.old.site site.old.done (Next.Put link msg) }
    ensures senders { AreSenders site.new txs.new.items }
    ensures receivers { (rxs : List ReceiverView) → AreReceivers site.old rxs
        → AreReceivers site.new rxs }
    ensures moved { Moves (has_moved result) site.old site.new }
    ensures site { IsSameSite site.old site.new }
    ensures over { result ≡ Over → IsCutAtPut txs.new.items link }
    ensures next { result ≡ Over → site.new ≡ site.old }
{
    site.recall_invariant();
    match sender_place(txs, link) {
        Some(i) => {
            match offer_at(txs, i, msg) {
                Turn::Moved => {
                    site.sent();
                    Turn::Moved
                }
                Turn::Blocked => Turn::Blocked,
                Turn::Over => Turn::Over,
            }
        }
        None => unreachable!(),
    }
}

/// Tries the take at hand. It is done where the answer says so, and else nothing has changed.
pub fn poll_one(site: &mut Site, rxs: &mut Vec<Rx>, link: LinkNo) -> Turn
    requires receivers { AreReceivers site.old rxs.old.items }
    requires next { IsNext site.old.job site.old.site site.old.done (Next.Take link) }
    ensures receivers { AreReceivers site.new rxs.new.items }
    ensures senders { (txs : List SenderView) → AreSenders site.old txs → AreSenders site.new txs }
    ensures moved { Moves (has_moved result) site.old site.new }
    ensures site { IsSameSite site.old site.new }
    ensures over { result ≡ Over → IsCutAtTake rxs.new.items link }
    ensures next { result ≡ Over → site.new ≡ site.old }
{
    site.recall_invariant();
    match receiver_place(rxs, link) {
        Some(i) => {
            let (found, there) = poll_at(rxs, i);
            match found {
                Some(msg) => {
                    site.given(msg);
                    Turn::Moved
                }
                None => { if there { Turn::Blocked } else { Turn::Over } }
            }
        }
        None => unreachable!(),
    }
}

/// Does the computation at hand.
pub fn work_one(site: &mut Site)
    requires { IsNext site.old.job site.old.site site.old.done Next.Local }
    ensures done { site.new.done ≡ site.old.done + 1 }
    ensures senders { (txs : List SenderView) → AreSenders site.old txs → AreSenders site.new txs }
    ensures receivers { (rxs : List ReceiverView) → AreReceivers site.old rxs
        → AreReceivers site.new rxs }
    ensures site { IsSameSite site.old site.new }
{
    site.work();
}
