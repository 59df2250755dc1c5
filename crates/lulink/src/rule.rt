//! The rule of a link's ring, which holds between any two steps of its ends, and what each kind of step shows
//! its own end.

use atomic_table::{Play, Seat as TableSeat, Split, Table, TableRule};
use luflow::Msg;
use luplace::Job;
use std::alloc::Global;
use std::collections::LinkedList;
use std::snapshot::Snapshot;

/// What a ring is given when it is made.
#[derive(Drop)]
pub struct Terms {
    pub job: Snapshot<Job>,
    pub link: usize,
    pub capacity: usize,
}

/// Whose seat it is: that of the call that opens the link, before it is cut, or one of the two ends.
pub enum Role {
    Opener,
    Producer,
    Consumer,
}

/// What a seat knows: its role, the ring's number of slots and list, how many messages its end has passed,
/// the words that its loads gave, the last of them (0 before the first), how many slots of its next messages
/// it has, and whether its end has left. No value of it is made.
pub struct EndState {
    pub role: Role,
    pub room: u64,
    pub list: LinkedList<Msg>,
    pub count: u64,
    pub seen: LinkedList<u64>,
    pub last: u64,
    pub held: u64,
    pub left: bool,
}

pub struct RingRule;

impl TableRule<Option<Msg>, EndState, Terms> for RingRule {
    ghost use Rattle.lulink.specs.Lists.{list_of};
    ghost use Rattle.lulink.specs.Rings.{Linked, fresh};

    ghost holds = { λ k. Linked k.capacity (list_of k.job.value k.link) };

    ghost first = { λ k. fresh k.capacity (list_of k.job.value k.link) };
}

pub type Ring = Table<Option<Msg>, EndState, Terms, RingRule, Global>;

pub type RingSeat = TableSeat<Option<Msg>, EndState>;

/// The opener's seat is cut into the producer's and the consumer's.
pub struct TwoEnds;

impl Split<EndState> for TwoEnds {
    ghost use Rattle.lulink.specs.Rings.{seated};
    ghost use Rattle.lulink.specs.declared.rule.Role.TheVariants.{Producer, Consumer};

    ghost left = { seated Producer };

    ghost right = { seated Consumer };
}

/// The producer loads the head, and has the slots of as many of its next messages as there is room for.
pub struct LoadHead;

impl Play<Option<Msg>, EndState> for LoadHead {
    ghost use Rattle.lulink.specs.Rings.{SawHead};
    ghost use Rattle.lulink.specs.Words.{IsFinal};

    ghost then = { λ s m n w. SawHead m n w × IsFinal m.0.seen n };
}

/// The consumer loads the tail, and has the slots of all messages that were put.
pub struct LoadTail;

impl Play<Option<Msg>, EndState> for LoadTail {
    ghost use Rattle.lulink.specs.Rings.{SawTail};
    ghost use Rattle.lulink.specs.Words.{IsFinal};

    ghost then = { λ s m n w. SawTail m n w × IsFinal m.0.seen n };
}

/// The producer stores the tail, and gives back the slots of the messages that it counts more.
pub struct StoreTail;

impl Play<Option<Msg>, EndState> for StoreTail {
    ghost use Rattle.std.specs.Prelude.{◌-◌};
    ghost use Rattle.lulink.specs.Rings.{MovedTail};

    ghost then = { λ s m n w. MovedTail m.0 (s.first - m.0.count) w };
}

/// The consumer stores the head, and gives back the slots of the messages that it counts more.
pub struct StoreHead;

impl Play<Option<Msg>, EndState> for StoreHead {
    ghost use Rattle.std.specs.Prelude.{◌-◌};
    ghost use Rattle.lulink.specs.Rings.{MovedHead};

    ghost then = { λ s m n w. MovedHead m.0 (s.first - m.0.count) w };
}

/// An end loads the other's word, and takes no slot.
pub struct Look;

impl Play<Option<Msg>, EndState> for Look {
    ghost use Rattle.lulink.specs.Rings.{Looked};
    ghost use Rattle.lulink.specs.Words.{IsFinal};

    ghost then = { λ s m n w. Looked m n w × IsFinal m.0.seen n };
}

/// An end stores its own word with the top bit set.
pub struct Leave;

impl Play<Option<Msg>, EndState> for Leave {
    ghost use Rattle.lulink.specs.Rings.{Left};

    ghost then = { λ s m n w. Left m w };
}
