//! The receiver's end.

ghost use Rattle.std.specs.Prelude.{◌≡◌, IfOk, IfErr, IfSome};
ghost use Rattle.luworld.specs.WorldViews.{IsPrefixOf};
ghost use Rattle.lulink.specs.Lists.{list_of};
ghost use Rattle.lulink.specs.Views.{IsNextToTake, IsWholeAt, HasTaken, HasTakenNothing, TakenOrNot};

use crate::doors::Doors;
use crate::rule::{LinkPass, Receives, Takes};
use luflow::Msg;
use lulink::{LinkNo, TakeError};
use luplace::Job;
use std::marker::Model;
use std::snapshot::Snapshot;
use std::sync::{Arc, Wait};
use std::thread;

/// The receiver's end. A contract sees its job and link, the capacity, and what was taken. An end that is
/// dropped leaves.
pub struct Rx {
    pub(crate) end: Receives,
    pub(crate) link_pass: LinkPass,
    pub(crate) job: Snapshot<Job>,
    pub(crate) link: LinkNo,
    pub(crate) doors: Arc<Doors>,
}

impl Model for Rx {
    ghost use Rattle.lulink.specs.Views.{ReceiverView};

    ghost Value = { ReceiverView };

    ghost use Rattle.test_reference.specs.Insides.{receiver_view, IsReceiver};

    ghost view = { receiver_view };

    ghost invariant = { IsReceiver };
}

impl Rx {
    /// The number of the link. Takes no memory.
    pub fn link(&self) -> LinkNo
        ensures { result ≡ self.now.link }
    {
        self.link
    }

    /// Takes the next message of the link's list, if it is there. `None`: nothing was taken. Tries once.
    /// Takes no memory.
    pub fn poll<R: Wait>(&mut self, rt: &R) -> Option<Msg>
        ensures taken { TakenOrNot result self.old self.new }
        ensures whole { IfSome result (λ m. IsWholeAt m self.new) }
    {
        match self.end.try_recv_as::<Takes, R>(rt, &mut self.link_pass) {
            Ok(msg) => Some(msg),
            Err(_) => None,
        }
    }

    /// Whether the sender has left. Never waits, and takes no memory.
    pub fn gone(&mut self) -> bool
        ensures taken { HasTakenNothing self.old self.new }
    {
        self.doors.sender_left()
    }

    /// Takes the next message of the link's list. Waits while the link is empty and the sender is there.
    /// `Gone`: nothing was taken. Takes no memory.
    pub fn take<R: Wait>(&mut self, rt: &R) -> Result<Msg, TakeError>
        ensures taken { IfOk result (λ m. HasTaken m self.old self.new × IsNextToTake self.old m) }
        ensures whole { IfOk result (λ m. IsWholeAt m self.new) }
        ensures gone { IfErr result (λ _. HasTakenNothing self.old self.new) }
    {
        for _ in rt.forever() {
            if let Some(msg) = self.poll(rt) {
                return Ok(msg);
            }
            if self.gone() {
                return match self.poll(rt) {
                    Some(msg) => Ok(msg),
                    None => Err(TakeError::Gone),
                };
            }
            thread::yield_now();
        }
        unreachable!()
    }

    /// What was taken is a prefix of the link's list.
    pub fn taken_begins_law(&self)
        ensures { IsPrefixOf self.now.taken (list_of self.now.job self.now.link) }
    {
        let _link = self.link;
    }

    /// Ends the use of this end, as dropping it does: the sender's `gone` is true from then on. Takes no
    /// memory.
    pub fn leave(self) {}
}

impl Drop for Rx {
    fn drop(self) {
        let Rx {
            end: _,
            link_pass: _,
            job: _,
            link: _,
            doors,
        } = self;
        let doors = &*doors;
        doors.receiver_leaves();
    }
}
