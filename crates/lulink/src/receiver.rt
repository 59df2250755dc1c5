//! The receiver's end.

ghost use Rattle.std.specs.Prelude.{◌≡◌, ◌+◌, ◌≤◌, ℕ, [], length, vec_capacity, IfOk, IfErr, IfSome};
ghost use Rattle.std.specs.Arc.{arc_value};
ghost use Rattle.luworld.specs.WorldViews.{IsPrefixOf};
ghost use Rattle.lulink.specs.Lists.{list_of};
ghost use Rattle.lulink.specs.Words.{has_left, IsFinal};
ghost use Rattle.lulink.specs.Counts.{uncounted, CountsOnce};
ghost use Rattle.lulink.specs.Views.{IsNextToTake, IsWholeAt, IsWholeAtClose, IsRunTaken, HasTaken, HasTakenNothing, TakenOrNot};
ghost use Rattle.lulink.specs.declared.rule.Role.TheVariants.{Consumer};
ghost use Rattle.lulink.specs.Insides.{IsRing, IsNewSeat};
ghost use Rattle.lulink.specs.Seen.{took_none, Polled, PolledRun, FoundOne, FoundNothingLeft};

use crate::counts::{Counts, End, EndTally, Tally};
use crate::opening::LinkNo;
use crate::rule::{Ring, RingSeat};
use crate::take_side::TakeSide;
use crate::word::pause;
use luflow::Msg;
use std::marker::Model;
use std::sync::{Arc, Wait};

/// The sender has left, and nothing is left to take.
#[derive(Clone, Copy, Debug, Drop, PartialEq, Eq, thiserror::Error)]
pub enum TakeError {
    #[error("Gone")]
    Gone,
}

/// The receiver's end. A contract sees its job and link, the capacity, which ring it is of, what was taken,
/// the sender's words that its loads gave, and what it counted at them. An end that is dropped leaves.
pub struct Rx {
    pub(crate) ring: Arc<Ring>,
    pub(crate) side: TakeSide,
    pub(crate) link: LinkNo,
    pub(crate) counts: Counts,
}

impl Model for Rx {
    ghost use Rattle.lulink.specs.Views.{ReceiverView};

    ghost Value = { ReceiverView };

    ghost use Rattle.lulink.specs.Insides.{receiver_view, IsReceiver};

    ghost view = { receiver_view };

    ghost invariant = { IsReceiver };
}

impl Rx {
    /// The end of the link's ring that has this seat, before its first step.
    pub(crate) fn new(ring: Arc<Ring>, seat: RingSeat, link: LinkNo) -> Rx
        requires number { link ≡ (arc_value ring).shared.key.link }
        requires ring { IsRing (arc_value ring).shared.table_id (arc_value ring).shared.key }
        requires seat { IsNewSeat Consumer (arc_value ring).shared.table_id
            (arc_value ring).shared.key seat }
        ensures job { result.job ≡ (arc_value ring).shared.key.job.value }
        ensures link { result.link ≡ link }
        ensures capacity { result.capacity ≡ (arc_value ring).shared.key.capacity }
        ensures ring { result.ring ≡ (arc_value ring).shared.table_id }
        ensures taken { result.taken ≡ [] }
        ensures seen { result.seen ≡ [] }
        ensures counts { result.counts ≡ uncounted }
    {
        Rx {
            ring,
            side: TakeSide {
                seat,
                count: 0,
                slot: 0,
                word: 0,
                held: 0,
            },
            link,
            counts: Counts::new(),
        }
    }

    /// The number of the link. Takes no memory.
    pub fn link(&self) -> LinkNo
        ensures { result ≡ self.now.link }
    {
        self.link
    }

    /// Takes the next message of the link's list, if it is there. `None`: nothing was taken. Looks at the
    /// sender's word once, or not at all where the word that it saw last shows a message; so `None` is as of
    /// this call. Never waits, and takes no memory.
    pub fn poll(&mut self) -> Option<Msg>
        ensures taken { TakenOrNot result self.old self.new }
        ensures whole { IfSome result (λ m. IsWholeAt m self.new) }
        ensures seen { (w : ℕ) × Polled result self.old w self.new × IsFinal self.old.seen w }
    {
        let ring = &*self.ring;
        if !self.side.has_message(ring, &mut self.counts) {
            return None;
        }
        self.side.take(ring)
    }

    /// Takes as many messages as are there, at most so many, puts them behind those of the buffer, in order,
    /// and says how many: the sender sees all of that room at once. Looks at the sender's word once, or not
    /// at all where an earlier look showed as many messages; so where fewer were taken, the link was empty as
    /// of this call. Where none is asked for, it looks once, and takes nothing. Never waits, and takes no
    /// memory: the buffer has room for all that is asked for.
    pub fn poll_run(&mut self, most: usize, into: &mut Vec<Msg>) -> usize
        requires { length into.old.items + most ≤ vec_capacity into.old }
        ensures within { result ≤ most }
        ensures taken { IsRunTaken result into.old.items into.new.items self.old self.new }
        ensures whole { IsWholeAtClose self.new }
        ensures seen { (w : ℕ) × PolledRun most result self.old w self.new × IsFinal self.old.seen w }
        ensures buffer { vec_capacity into.new ≡ vec_capacity into.old }
    {
        let ring = &*self.ring;
        self.side.take_run(ring, most, into, &mut self.counts)
    }

    /// Whether the sender has left. Never waits, and takes no memory.
    pub fn gone(&mut self) -> bool
        ensures taken { HasTakenNothing self.old self.new }
        ensures seen { (w : ℕ) × (self.new ≡ took_none self.old w) × (result ≡ has_left w)
            × IsFinal self.old.seen w }
    {
        let ring = &*self.ring;
        self.side.sees_gone(ring)
    }

    /// Takes the next message of the link's list. Waits while the link is empty and the sender is there.
    /// `Gone`: nothing was taken, and all that was put has been. Takes no memory.
    pub fn take<R: Wait>(&mut self, rt: &R) -> Result<Msg, TakeError>
        ensures taken { IfOk result (λ m. HasTaken m self.old self.new × IsNextToTake self.old m) }
        ensures whole { IfOk result (λ m. IsWholeAt m self.new) }
        ensures gone { IfErr result (λ _. HasTakenNothing self.old self.new) }
        ensures one { IfOk result (λ _. FoundOne self.old self.new) }
        ensures none { IfErr result (λ _. FoundNothingLeft self.old self.new) }
        ensures counts { CountsOnce (length self.old.taken) self.old.counts self.new.counts }
    {
        let mut tries = 0;
        for _ in rt.forever() {
            if let Some(msg) = self.poll() {
                return Ok(msg);
            }
            if self.gone() {
                return match self.poll() {
                    Some(msg) => Ok(msg),
                    None => Err(TakeError::Gone),
                };
            }
            tries = pause(tries);
        }
        unreachable!()
    }

    /// How many messages were taken, how many found the link empty, and how many were in it at most, by this
    /// end's looks. Takes no memory.
    pub fn tally(&self) -> Tally
        ensures passed { result.passed ≡ length self.now.taken }
        ensures waited { result.waited ≡ self.now.counts.waited }
        ensures few { result.waited ≤ length self.now.taken + 1 }
        ensures most { result.most ≡ self.now.counts.most }
        ensures room { result.most ≤ self.now.capacity }
    {
        Tally {
            passed: self.side.count,
            waited: self.counts.waited,
            most: self.counts.most,
        }
    }

    /// The same, with which end of which link this is. Takes no memory.
    pub fn end_tally(&self) -> EndTally
        ensures link { result.link ≡ self.now.link }
        ensures end { result.end ≡ End.Receiver }
        ensures passed { result.tally.passed ≡ length self.now.taken }
        ensures waited { result.tally.waited ≡ self.now.counts.waited }
        ensures few { result.tally.waited ≤ length self.now.taken + 1 }
        ensures most { result.tally.most ≡ self.now.counts.most }
        ensures room { result.tally.most ≤ self.now.capacity }
    {
        EndTally {
            link: self.link(),
            end: End::Receiver,
            tally: self.tally(),
        }
    }

    /// What was taken is a prefix of the link's list.
    pub fn taken_begins_law(&self)
        ensures { IsPrefixOf self.now.taken (list_of self.now.job self.now.link) }
    {
        let _side = &self.side;
    }

    /// Ends the use of this end, as dropping it does: the sender's `gone` is true from then on. Takes no
    /// memory.
    pub fn leave(self) {}
}

impl Drop for Rx {
    fn drop(self) {
        let Rx {
            ring,
            mut side,
            link: _,
            counts: _,
        } = self;
        let ring = &*ring;
        side.leave(ring);
    }
}
