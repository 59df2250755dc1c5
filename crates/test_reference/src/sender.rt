//! The sender's end.

ghost use Rattle.std.specs.Prelude.{◌≡◌, IfOk, IfErr};
ghost use Rattle.luworld.specs.WorldViews.{IsPrefixOf};
ghost use Rattle.lulink.specs.Lists.{list_of};
ghost use Rattle.lulink.specs.Views.{IsNextToPut, HasPut, HasPutNothing, PutOrBack};

use crate::doors::Doors;
use crate::rule::{LinkPass, Puts, Receives, Sends};
use luflow::Msg;
use lulink::{LinkNo, Offer, PutError};
use luplace::Job;
use std::marker::Model;
use std::snapshot::Snapshot;
use std::sync::{Arc, Wait};
use std::thread;

/// The sender's end. A contract sees its job and link, the capacity, and what was put. An end that is dropped
/// leaves.
pub struct Tx {
    pub(crate) end: Sends,
    pub(crate) link_pass: LinkPass,
    pub(crate) job: Snapshot<Job>,
    pub(crate) link: LinkNo,
    pub(crate) doors: Arc<Doors>,
    /// Keeps the channel open where the receiver has left. Nothing is received by it.
    pub(crate) spare: Receives,
}

impl Model for Tx {
    ghost use Rattle.lulink.specs.Views.{SenderView};

    ghost Value = { SenderView };

    ghost use Rattle.test_reference.specs.Insides.{sender_view, IsSender};

    ghost view = { sender_view };

    ghost invariant = { IsSender };
}

impl Tx {
    /// The number of the link. Takes no memory.
    pub fn link(&self) -> LinkNo
        ensures { result ≡ self.now.link }
    {
        self.link
    }

    /// Puts the next message of the link's list, if there is room. `Full` hands it back: nothing was put.
    /// Tries once. Takes no memory.
    pub fn offer<R: Wait>(&mut self, rt: &R, msg: Msg) -> Offer
        requires { IsNextToPut self.old msg }
        ensures put { PutOrBack result msg self.old self.new }
    {
        match self
            .end
            .try_send_as::<Puts, R>(rt, &mut self.link_pass, msg)
        {
            Ok(()) => Offer::Done,
            Err(e) => Offer::Full(e.into_inner()),
        }
    }

    /// Whether the receiver has left. Never waits, and takes no memory.
    pub fn gone(&mut self) -> bool
        ensures put { HasPutNothing self.old self.new }
    {
        self.doors.receiver_left()
    }

    /// Puts the next message of the link's list. Waits while the link is full and the receiver is there; a
    /// link with room takes the message also where the receiver has left. `Gone` hands the message back:
    /// nothing was put. The link was full at one look, and the receiver had left at the next; what it took
    /// between the two has made room, which an `offer` reports. Takes no memory.
    pub fn put<R: Wait>(&mut self, rt: &R, msg: Msg) -> Result<(), PutError>
        requires { IsNextToPut self.old msg }
        ensures put { IfOk result (λ _. HasPut msg self.old self.new) }
        ensures gone { IfErr result
            (λ e. (e ≡ PutError.Gone msg) × HasPutNothing self.old self.new) }
    {
        for _ in rt.forever() {
            match self.offer(rt, msg) {
                Offer::Done => return Ok(()),
                Offer::Full(_) => {
                    if self.gone() {
                        return Err(PutError::Gone(msg));
                    }
                }
            }
            thread::yield_now();
        }
        unreachable!()
    }

    /// What was put is a prefix of the link's list.
    pub fn put_begins_law(&self)
        ensures { IsPrefixOf self.now.put (list_of self.now.job self.now.link) }
    {
        let _link = self.link;
    }

    /// Ends the use of this end, as dropping it does: the receiver's `gone` is true from then on. Takes no
    /// memory.
    pub fn leave(self) {}
}

impl Drop for Tx {
    fn drop(self) {
        let Tx {
            end: _,
            link_pass: _,
            job: _,
            link: _,
            doors,
            spare: _,
        } = self;
        let doors = &*doors;
        doors.sender_leaves();
    }
}
