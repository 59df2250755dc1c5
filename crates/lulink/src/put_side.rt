//! The producer's side of a ring. Between two calls it may already have the slots of its next messages, so
//! that it needs no look at the consumer's word as long as the one that it loaded last shows room.

ghost use Rattle.std.specs.Prelude.{◌≡◌, ◌+◌, ◌-◌, ◌<◌, ◌≤◌, ◌%◌, [], ◌∷◌, ◌++◌, length, Option, Some, slice_get};
ghost use Rattle.atomic_table.specs.Table.{rest};
ghost use Rattle.lulink.specs.Words.{number, has_left, IsFinal, HasSeen, RestsOn};
ghost use Rattle.lulink.specs.Insides.{given_list, AreGivenMessages, IsPutSide, SoughtRoom, HasFilled, CountedTry};
ghost use Rattle.lulink.specs.Counts.{AreCounts, WentWell, counted, showed};

use crate::counts::Counts;
use crate::rule::{Leave, LoadHead, Look, Ring, RingSeat, StoreTail};
use crate::word::{HEAD, TAIL, TOP, next_slot, number_of, says_gone};
use luflow::Msg;

#[derive(Drop)]
pub struct PutSide {
    pub(crate) seat: RingSeat,
    /// How many messages were put.
    pub(crate) count: u64,
    /// The place of the next message's slot.
    pub(crate) slot: usize,
    /// The consumer's word, as it was loaded last.
    pub(crate) word: u64,
    /// How many slots of the next messages the seat has.
    pub(crate) held: u64,
}

impl PutSide {
    /// Whether there is room for the next message. Loads the head where the seat has no slot.
    pub(crate) fn has_room(&mut self, ring: &Ring, counts: &mut Counts) -> bool
        requires side { IsPutSide ring.now.shared.table_id ring.now.shared.key self.old }
        requires counts { AreCounts self.old.count ring.now.shared.key.capacity counts.old }
        ensures side { IsPutSide ring.now.shared.table_id ring.now.shared.key self.new }
        ensures sought { SoughtRoom ring.now.shared.key self.old result self.new }
        ensures counts { AreCounts self.new.count ring.now.shared.key.capacity counts.new }
        ensures counted { CountedTry result self.old.count (self.old.count - number self.new.word)
            self.old.seat.me.0.seen self.new.word self.new.seat.me.0.seen counts.old counts.new }
    {
        self.has_room_for(ring, 1, counts)
    }

    /// Whether there is room for the next message. Loads the head where the seat has fewer slots than this.
    fn has_room_for(&mut self, ring: &Ring, wanted: u64, counts: &mut Counts) -> bool
        requires side { IsPutSide ring.now.shared.table_id ring.now.shared.key self.old }
        requires some { 0 < wanted }
        requires counts { AreCounts self.old.count ring.now.shared.key.capacity counts.old }
        ensures side { IsPutSide ring.now.shared.table_id ring.now.shared.key self.new }
        ensures sought { SoughtRoom ring.now.shared.key self.old result self.new }
        ensures all { self.new.held < wanted
            → self.new.count + self.new.held ≡ number self.new.word + ring.now.shared.key.capacity }
        ensures loaded { self.new.held < wanted
            → HasSeen self.old.seat.me.0.seen self.new.word self.new.seat.me.0.seen }
        ensures counts { AreCounts self.new.count ring.now.shared.key.capacity counts.new }
        ensures counted { CountedTry result self.old.count (self.old.count - number self.new.word)
            self.old.seat.me.0.seen self.new.word self.new.seat.me.0.seen counts.old counts.new }
    {
        if self.held >= wanted {
            return true;
        }
        let room = ring.slot_count();
        let word = ring.shared.load::<LoadHead>(&mut self.seat, HEAD);
        self.word = word;
        counts.show(self.count - number_of(word));
        if self.count == number_of(word) + room as u64 {
            counts.wait(self.count);
            return false;
        }
        self.held = number_of(word) + room as u64 - self.count;
        true
    }

    /// Puts the message into its slot, and counts it.
    pub(crate) fn put(&mut self, ring: &Ring, msg: Msg)
        requires side { IsPutSide ring.now.shared.table_id ring.now.shared.key self.old }
        requires held { 0 < self.old.held }
        requires next { slice_get (given_list ring.now.shared.key) self.old.count ≡ Some msg }
        ensures side { IsPutSide ring.now.shared.table_id ring.now.shared.key self.new }
        ensures count { self.new.count ≡ self.old.count + 1 }
        ensures seen { self.new.seat.me.0.seen ≡ self.old.seat.me.0.seen }
    {
        let room = ring.slot_count();
        ring.shared.exchange(&mut self.seat, self.slot, Some(msg));
        self.seat.turn();
        ring.shared
            .store::<StoreTail>(&mut self.seat, TAIL, self.count + 1);
        self.count += 1;
        self.slot = next_slot(self.slot, room);
        self.held -= 1;
    }

    /// Puts as many of the messages as there is room for, and counts them with one store. How many.
    pub(crate) fn put_run(&mut self, ring: &Ring, msgs: &[Msg], counts: &mut Counts) -> usize
        requires side { IsPutSide ring.now.shared.table_id ring.now.shared.key self.old }
        requires counts { AreCounts self.old.count ring.now.shared.key.capacity counts.old }
        requires next { AreGivenMessages ring.now.shared.key self.old.count msgs.now }
        ensures side { IsPutSide ring.now.shared.table_id ring.now.shared.key self.new }
        ensures within { result ≤ length msgs.now }
        ensures count { self.new.count ≡ self.old.count + result }
        ensures rests { RestsOn self.old.seat.me.0.seen self.new.word self.new.seat.me.0.seen }
        ensures full { result < length msgs.now
            → self.new.count ≡ number self.new.word + ring.now.shared.key.capacity }
        ensures loaded { result < length msgs.now
            → HasSeen self.old.seat.me.0.seen self.new.word self.new.seat.me.0.seen }
        ensures look { length msgs.now ≡ 0
            → HasSeen self.old.seat.me.0.seen self.new.word self.new.seat.me.0.seen }
        ensures last { IsFinal self.old.seat.me.0.seen self.new.word }
        ensures counts { AreCounts self.new.count ring.now.shared.key.capacity counts.new }
        ensures idle { length msgs.now ≡ 0 → counts.new ≡ counts.old }
        ensures well { 0 < result → WentWell (self.old.count - number self.new.word)
            self.old.seat.me.0.seen self.new.word self.new.seat.me.0.seen counts.old counts.new }
        ensures waits { 0 < length msgs.now → result ≡ 0 → counts.new
            ≡ counted self.old.count (showed (self.old.count - number self.new.word) counts.old) }
    {
        if msgs.is_empty() {
            let _gone = self.sees_gone(ring);
            return 0;
        }
        if !self.has_room_for(ring, msgs.len() as u64, counts) {
            return 0;
        }
        let fit = if self.held < msgs.len() as u64 {
            self.held as usize
        } else {
            msgs.len()
        };
        self.put_all(ring, &msgs[..fit]);
        fit
    }

    /// Puts the messages into their slots, and counts them with one store.
    fn put_all(&mut self, ring: &Ring, msgs: &[Msg])
        requires side { IsPutSide ring.now.shared.table_id ring.now.shared.key self.old }
        requires held { length msgs.now ≤ self.old.held }
        requires next { AreGivenMessages ring.now.shared.key self.old.count msgs.now }
        ensures side { IsPutSide ring.now.shared.table_id ring.now.shared.key self.new }
        ensures count { self.new.count ≡ self.old.count + length msgs.now }
        ensures word { self.new.word ≡ self.old.word }
        ensures held { self.new.held + length msgs.now ≡ self.old.held }
        ensures seen { self.new.seat.me.0.seen ≡ self.old.seat.me.0.seen }
    {
        let passed = msgs.len() as u64;
        self.fill(ring, msgs);
        ring.shared
            .store::<StoreTail>(&mut self.seat, TAIL, self.count + passed);
        self.count += passed;
        self.held -= passed;
    }

    /// Puts the messages into their slots. The consumer doesn't see them yet.
    fn fill(&mut self, ring: &Ring, msgs: &[Msg])
        requires side { IsPutSide ring.now.shared.table_id ring.now.shared.key self.old }
        requires held { length msgs.now ≤ self.old.held }
        requires next { AreGivenMessages ring.now.shared.key self.old.count msgs.now }
        ensures { HasFilled ring.now.shared.key self.old (length msgs.now) self.new }
    {
        let mut i = 0;
        while i < msgs.len() {
            let next = msgs[i];
            self.fill_slot(ring, next);
            i += 1;
        }
    }

    /// Puts the message into the slot at hand, and goes on to the next one.
    fn fill_slot(&mut self, ring: &Ring, next: Msg)
        requires table { self.old.seat.table_id ≡ ring.now.shared.table_id }
        requires slot { self.old.slot < ring.now.shared.table_id.slots }
        requires held { (y : Option Msg)
            × (self.old.seat.me.1 ≡ (self.old.slot, y) ∷ rest self.old.seat.me.1) }
        ensures seat { self.new.seat.table_id ≡ self.old.seat.table_id }
        ensures slots { self.new.seat.me ≡ (
          self.old.seat.me.0,
          rest self.old.seat.me.1 ++ (self.old.slot, Some next) ∷ [],
        ) }
        ensures slot { self.new.slot ≡ (self.old.slot + 1) % ring.now.shared.table_id.slots }
        ensures same { (self.new.count ≡ self.old.count) × (self.new.word ≡ self.old.word)
            × (self.new.held ≡ self.old.held) }
    {
        let room = ring.slot_count();
        ring.shared.exchange(&mut self.seat, self.slot, Some(next));
        self.seat.turn();
        self.slot = next_slot(self.slot, room);
    }

    /// Whether the consumer has left.
    pub(crate) fn sees_gone(&mut self, ring: &Ring) -> bool
        requires { IsPutSide ring.now.shared.table_id ring.now.shared.key self.old }
        ensures side { IsPutSide ring.now.shared.table_id ring.now.shared.key self.new }
        ensures count { self.new.count ≡ self.old.count }
        ensures seen { HasSeen self.old.seat.me.0.seen self.new.word self.new.seat.me.0.seen }
        ensures gone { (result ≡ has_left self.new.word)
            × IsFinal self.old.seat.me.0.seen self.new.word }
    {
        let word = ring.shared.load::<Look>(&mut self.seat, HEAD);
        self.word = word;
        says_gone(word)
    }

    /// Shows the consumer that nothing more is put.
    pub(crate) fn leave(&mut self, ring: &Ring)
        requires { IsPutSide ring.now.shared.table_id ring.now.shared.key self.old }
    {
        ring.shared
            .store::<Leave>(&mut self.seat, TAIL, self.count + TOP);
    }
}
