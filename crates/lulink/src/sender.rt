//! The sender's end.

ghost use Rattle.std.specs.Prelude.{◌≡◌, ◌+◌, ◌≤◌, ℕ, [], length, take, IfOk, IfErr};
ghost use Rattle.std.specs.Arc.{arc_value};
ghost use Rattle.luworld.specs.WorldViews.{IsPrefixOf};
ghost use Rattle.lulink.specs.Lists.{list_of};
ghost use Rattle.lulink.specs.Words.{has_left, IsFinal};
ghost use Rattle.lulink.specs.Counts.{uncounted, CountsOnce};
ghost use Rattle.lulink.specs.Views.{IsNextToPut, AreNextToPut, HasPut, HasPutAll, HasPutNothing, PutOrBack};
ghost use Rattle.lulink.specs.declared.rule.Role.TheVariants.{Producer};
ghost use Rattle.lulink.specs.Insides.{IsRing, IsNewSeat};
ghost use Rattle.lulink.specs.Seen.{put_none, Offered, OfferedRun, FoundRoom, FoundFullAndGone};

use crate::counts::{Counts, End, EndTally, Tally};
use crate::opening::LinkNo;
use crate::put_side::PutSide;
use crate::rule::{Ring, RingSeat};
use crate::word::pause;
use luflow::Msg;
use std::marker::Model;
use std::sync::{Arc, Wait};

/// Whether the message was put. Where the link was full, it comes back.
#[derive(Clone, Copy, Debug, Drop, PartialEq, Eq)]
pub enum Offer {
    Done,
    Full(Msg),
}

/// The link was full, and then the receiver had left. The message comes back.
#[derive(Clone, Copy, Debug, Drop, PartialEq, Eq, thiserror::Error)]
pub enum PutError {
    #[error("Gone")]
    Gone(Msg),
}

/// The sender's end. A contract sees its job and link, the capacity, which ring it is of, what was put, the
/// receiver's words that its loads gave, and what it counted at them. An end that is dropped leaves.
pub struct Tx {
    pub(crate) ring: Arc<Ring>,
    pub(crate) side: PutSide,
    pub(crate) link: LinkNo,
    pub(crate) counts: Counts,
}

impl Model for Tx {
    ghost use Rattle.lulink.specs.Views.{SenderView};

    ghost Value = { SenderView };

    ghost use Rattle.lulink.specs.Insides.{sender_view, IsSender};

    ghost view = { sender_view };

    ghost invariant = { IsSender };
}

impl Tx {
    /// The end of the link's ring that has this seat, before its first step.
    pub(crate) fn new(ring: Arc<Ring>, seat: RingSeat, link: LinkNo) -> Tx
        requires number { link ≡ (arc_value ring).shared.key.link }
        requires ring { IsRing (arc_value ring).shared.table_id (arc_value ring).shared.key }
        requires seat { IsNewSeat Producer (arc_value ring).shared.table_id
            (arc_value ring).shared.key seat }
        ensures job { result.job ≡ (arc_value ring).shared.key.job.value }
        ensures link { result.link ≡ link }
        ensures capacity { result.capacity ≡ (arc_value ring).shared.key.capacity }
        ensures ring { result.ring ≡ (arc_value ring).shared.table_id }
        ensures put { result.put ≡ [] }
        ensures seen { result.seen ≡ [] }
        ensures counts { result.counts ≡ uncounted }
    {
        Tx {
            ring,
            side: PutSide {
                seat,
                count: 0,
                slot: 0,
                word: 0,
                held: 0,
            },
            link,
            counts: Counts::new(),
        }
    }

    /// The number of the link. Takes no memory.
    pub fn link(&self) -> LinkNo
        ensures { result ≡ self.now.link }
    {
        self.link
    }

    /// Puts the next message of the link's list, if there is room. `Full` hands it back: nothing was put.
    /// Looks at the receiver's word once, or not at all where the word that it saw last shows room; so `Full`
    /// is as of this call. Never waits, and takes no memory.
    pub fn offer(&mut self, msg: Msg) -> Offer
        requires { IsNextToPut self.old msg }
        ensures put { PutOrBack result msg self.old self.new }
        ensures seen { (w : ℕ) × Offered result msg self.old w self.new × IsFinal self.old.seen w }
    {
        let ring = &*self.ring;
        if !self.side.has_room(ring, &mut self.counts) {
            return Offer::Full(msg);
        }
        self.side.put(ring, msg);
        Offer::Done
    }

    /// Puts as many of these messages, the next ones of the link's list, as there is room for, in order, and
    /// says how many: the receiver sees them all at once. Looks at the receiver's word once, or not at all
    /// where an earlier look showed room for all of them; so where fewer were put, the link was full as of
    /// this call. An empty run looks once, and puts nothing. Never waits, and takes no memory.
    pub fn offer_run(&mut self, msgs: &[Msg]) -> usize
        requires { AreNextToPut self.old msgs.now }
        ensures within { result ≤ length msgs.now }
        ensures put { HasPutAll (take result msgs.now) self.old self.new }
        ensures seen { (w : ℕ) × OfferedRun (length msgs.now) result self.old w self.new
            × IsFinal self.old.seen w }
    {
        let ring = &*self.ring;
        self.side.put_run(ring, msgs, &mut self.counts)
    }

    /// Whether the receiver has left. Never waits, and takes no memory.
    pub fn gone(&mut self) -> bool
        ensures put { HasPutNothing self.old self.new }
        ensures seen { (w : ℕ) × (self.new ≡ put_none self.old w) × (result ≡ has_left w)
            × IsFinal self.old.seen w }
    {
        let ring = &*self.ring;
        self.side.sees_gone(ring)
    }

    /// Puts the next message of the link's list. Waits while the link is full and the receiver is there; a
    /// link with room takes the message also where the receiver has left. `Gone` hands the message back:
    /// nothing was put. The link was full at one look, and the receiver had left at the next; what it took
    /// between the two has made room, which an `offer` reports. Takes no memory.
    pub fn put<R: Wait>(&mut self, rt: &R, msg: Msg) -> Result<(), PutError>
        requires { IsNextToPut self.old msg }
        ensures put { IfOk result (λ _. HasPut msg self.old self.new) }
        ensures gone { IfErr result
            (λ e. (e ≡ PutError.Gone msg) × HasPutNothing self.old self.new) }
        ensures room { IfOk result (λ _. FoundRoom self.old self.new) }
        ensures full { IfErr result (λ _. FoundFullAndGone self.old self.new) }
        ensures counts { CountsOnce (length self.old.put) self.old.counts self.new.counts }
    {
        let mut tries = 0;
        for _ in rt.forever() {
            match self.offer(msg) {
                Offer::Done => return Ok(()),
                Offer::Full(_) => {
                    if self.gone() {
                        return Err(PutError::Gone(msg));
                    }
                }
            }
            tries = pause(tries);
        }
        unreachable!()
    }

    /// How many messages were put, how many found the link full, and how many were in it at most, by this
    /// end's looks. Takes no memory.
    pub fn tally(&self) -> Tally
        ensures passed { result.passed ≡ length self.now.put }
        ensures waited { result.waited ≡ self.now.counts.waited }
        ensures few { result.waited ≤ length self.now.put + 1 }
        ensures most { result.most ≡ self.now.counts.most }
        ensures room { result.most ≤ self.now.capacity }
    {
        Tally {
            passed: self.side.count,
            waited: self.counts.waited,
            most: self.counts.most,
        }
    }

    /// The same, with which end of which link this is. Takes no memory.
    pub fn end_tally(&self) -> EndTally
        ensures link { result.link ≡ self.now.link }
        ensures end { result.end ≡ End.Sender }
        ensures passed { result.tally.passed ≡ length self.now.put }
        ensures waited { result.tally.waited ≡ self.now.counts.waited }
        ensures few { result.tally.waited ≤ length self.now.put + 1 }
        ensures most { result.tally.most ≡ self.now.counts.most }
        ensures room { result.tally.most ≤ self.now.capacity }
    {
        EndTally {
            link: self.link(),
            end: End::Sender,
            tally: self.tally(),
        }
    }

    /// What was put is a prefix of the link's list.
    pub fn put_begins_law(&self)
        ensures { IsPrefixOf self.now.put (list_of self.now.job self.now.link) }
    {
        let _side = &self.side;
    }

    /// Ends the use of this end, as dropping it does: the receiver's `gone` is true from then on. Takes no
    /// memory.
    pub fn leave(self) {}
}

impl Drop for Tx {
    fn drop(self) {
        let Tx {
            ring,
            mut side,
            link: _,
            counts: _,
        } = self;
        let ring = &*ring;
        side.leave(ring);
    }
}
