//! The rule of a link's channel: what was put is what was taken and then what the channel holds, and it is a
//! prefix of the link's list.

ghost use Rattle.std.specs.Prelude.{◌≡◌, []};
ghost use Rattle.test_reference.specs.Links.{fresh, sender, receiver};
ghost use Rattle.crossbeam_channel.specs.Claims.{view, IsSeatAt};
ghost use Rattle.crossbeam_channel.specs.Ends.{sends_on};
ghost use Rattle.lulink.specs.Lists.{list_of};

use crossbeam_channel::protocol::{Lesson, Outcome, Protocol, Split};
use crossbeam_channel::{Pass, RuledReceiver, RuledSender};
use luflow::Msg;
use luplace::Job;
use std::collections::LinkedList;
use std::marker::{Brand, PhantomData};

/// Whose pass it is: that of the call that opens the link, before it is cut, or one of the two ends.
pub enum Role {
    Opener,
    Producer,
    Consumer,
}

/// What a pass knows: its role, the channel's capacity, the link's list, and what its end has put or taken.
/// No value of it is made.
pub struct PassState {
    pub role: Role,
    pub room: u64,
    pub list: LinkedList<Msg>,
    pub done: LinkedList<Msg>,
}

pub struct InOrder;

impl Protocol<Msg, PassState> for InOrder {
    ghost use Rattle.test_reference.specs.Links.{fresh, Linked};

    ghost holds = { Linked };

    ghost first = { fresh };
}

pub type Sends = RuledSender<Msg, PassState, InOrder>;

pub type Receives = RuledReceiver<Msg, PassState, InOrder>;

pub type LinkPass = Pass<Msg, PassState>;

/// The list of one link, and the capacity. Each call that opens a link picks them.
pub trait Terms {
    ghost use Rattle.std.specs.Prelude.{List, ℕ};
    ghost use Rattle.luflow.specs.declared.message.Msg.{Msg};

    ghost list: { List Msg };

    ghost room: { ℕ };
}

impl Terms for Brand {
    ghost use Rattle.std.specs.Prelude.{[]};

    ghost list = { [] };

    ghost room = { 0 };
}

pub struct TwoEnds<J> {
    of: PhantomData<J>,
}

impl<J: Terms> Split<PassState> for TwoEnds<J> {
    ghost use Rattle.std.specs.Prelude.{[]};
    ghost use Rattle.test_reference.specs.Links.{sender, receiver};

    ghost left = { λ v. sender J.room J.list [] };

    ghost right = { λ v. receiver J.room J.list [] };
}

/// Cuts the opener's pass into the sender's and the receiver's, which know the link's list.
pub fn part<J: Terms>(
    end: &Sends,
    first: &mut LinkPass,
    job: &Job,
    link: usize,
    capacity: usize,
) -> LinkPass
    requires channel { IsSeatAt (sends_on end.now) first.old × (view first.old ≡ fresh) }
    requires terms { (J.list ≡ list_of job.now link) × (J.room ≡ capacity) }
    ensures sender { IsSeatAt (sends_on end.now) first.new
        × (view first.new ≡ sender capacity (list_of job.now link) []) }
    ensures receiver { IsSeatAt (sends_on end.now) result
        × (view result ≡ receiver capacity (list_of job.now link) []) }
{
    end.another::<TwoEnds<J>>(first)
}

/// A send adds its message to what was put.
pub struct Puts;

impl Outcome<Msg, PassState> for Puts {
    ghost use Rattle.test_reference.specs.Links.{HasSent};

    ghost then = { HasSent };
}

impl Lesson<Msg, PassState> for Puts {
    ghost fact = { λ v items. Unit {0} };
}

/// A receive adds its message, which is the list's next, to what was taken.
pub struct Takes;

impl Outcome<Msg, PassState> for Takes {
    ghost use Rattle.test_reference.specs.Links.{HasReceived};

    ghost then = { HasReceived };
}

impl Lesson<Msg, PassState> for Takes {
    ghost fact = { λ v items. Unit {0} };
}
