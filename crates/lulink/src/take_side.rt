//! The consumer's side of a ring. Between two calls it may already have the slots of its next messages, so
//! that it needs no look at the producer's word as long as the one that it loaded last shows a message.

ghost use Rattle.std.specs.Prelude.{◌≡◌, ℕ, ◌+◌, ◌-◌, ◌<◌, ◌≤◌, ◌%◌, [], ◌∷◌, ◌++◌, length, take, drop, Option, Some, None, slice_get, vec_capacity};
ghost use Rattle.atomic_table.specs.Table.{rest};
ghost use Rattle.lulink.specs.Words.{number, has_left, IsFinal, HasSeen, RestsOn};
ghost use Rattle.lulink.specs.Insides.{given_list, IsTakeSide, SoughtMessage, HasEmptied, CountedTry};
ghost use Rattle.lulink.specs.Counts.{AreCounts, WentWell, counted, showed};

use crate::counts::Counts;
use crate::rule::{Leave, LoadTail, Look, Ring, RingSeat, StoreHead};
use crate::word::{HEAD, TAIL, TOP, next_slot, number_of, says_gone};
use luflow::Msg;

#[derive(Drop)]
pub struct TakeSide {
    pub(crate) seat: RingSeat,
    /// How many messages were taken.
    pub(crate) count: u64,
    /// The place of the next message's slot.
    pub(crate) slot: usize,
    /// The producer's word, as it was loaded last.
    pub(crate) word: u64,
    /// How many slots of the next messages the seat has.
    pub(crate) held: u64,
}

impl TakeSide {
    /// Whether the next message is there. Loads the tail where the seat has no slot.
    pub(crate) fn has_message(&mut self, ring: &Ring, counts: &mut Counts) -> bool
        requires side { IsTakeSide ring.now.shared.table_id ring.now.shared.key self.old }
        requires counts { AreCounts self.old.count ring.now.shared.key.capacity counts.old }
        ensures side { IsTakeSide ring.now.shared.table_id ring.now.shared.key self.new }
        ensures sought { SoughtMessage self.old result self.new }
        ensures counts { AreCounts self.new.count ring.now.shared.key.capacity counts.new }
        ensures counted { CountedTry result self.old.count (number self.new.word - self.old.count)
            self.old.seat.me.0.seen self.new.word self.new.seat.me.0.seen counts.old counts.new }
    {
        self.has_messages(ring, 1, counts)
    }

    /// Whether the next message is there. Loads the tail where the seat has fewer slots than this.
    fn has_messages(&mut self, ring: &Ring, wanted: u64, counts: &mut Counts) -> bool
        requires side { IsTakeSide ring.now.shared.table_id ring.now.shared.key self.old }
        requires some { 0 < wanted }
        requires counts { AreCounts self.old.count ring.now.shared.key.capacity counts.old }
        ensures side { IsTakeSide ring.now.shared.table_id ring.now.shared.key self.new }
        ensures sought { SoughtMessage self.old result self.new }
        ensures all { self.new.held < wanted
            → self.new.count + self.new.held ≡ number self.new.word }
        ensures loaded { self.new.held < wanted
            → HasSeen self.old.seat.me.0.seen self.new.word self.new.seat.me.0.seen }
        ensures counts { AreCounts self.new.count ring.now.shared.key.capacity counts.new }
        ensures counted { CountedTry result self.old.count (number self.new.word - self.old.count)
            self.old.seat.me.0.seen self.new.word self.new.seat.me.0.seen counts.old counts.new }
    {
        if self.held >= wanted {
            return true;
        }
        let word = ring.shared.load::<LoadTail>(&mut self.seat, TAIL);
        self.word = word;
        counts.show(number_of(word) - self.count);
        if self.count == number_of(word) {
            counts.wait(self.count);
            return false;
        }
        self.held = number_of(word) - self.count;
        true
    }

    /// Takes the message from its slot, and counts it.
    pub(crate) fn take(&mut self, ring: &Ring) -> Option<Msg>
        requires side { IsTakeSide ring.now.shared.table_id ring.now.shared.key self.old }
        requires held { 0 < self.old.held }
        ensures side { IsTakeSide ring.now.shared.table_id ring.now.shared.key self.new }
        ensures count { self.new.count ≡ self.old.count + 1 }
        ensures next { result ≡ slice_get (given_list ring.now.shared.key) self.old.count }
        ensures seen { self.new.seat.me.0.seen ≡ self.old.seat.me.0.seen }
    {
        let room = ring.slot_count();
        let found = ring.shared.exchange(&mut self.seat, self.slot, None);
        self.seat.turn();
        ring.shared
            .store::<StoreHead>(&mut self.seat, HEAD, self.count + 1);
        self.count += 1;
        self.slot = next_slot(self.slot, room);
        self.held -= 1;
        found
    }

    /// Takes as many messages as are there and as are wanted, and counts them with one store. How many.
    pub(crate) fn take_run(
        &mut self,
        ring: &Ring,
        most: usize,
        into: &mut Vec<Msg>,
        counts: &mut Counts,
    ) -> usize
        requires side { IsTakeSide ring.now.shared.table_id ring.now.shared.key self.old }
        requires counts { AreCounts self.old.count ring.now.shared.key.capacity counts.old }
        requires spare { length into.old.items + most ≤ vec_capacity into.old }
        ensures side { IsTakeSide ring.now.shared.table_id ring.now.shared.key self.new }
        ensures within { result ≤ most }
        ensures count { self.new.count ≡ self.old.count + result }
        ensures into { into.new.items ≡ into.old.items
            ++ take result (drop self.old.count (given_list ring.now.shared.key)) }
        ensures capacity { vec_capacity into.new ≡ vec_capacity into.old }
        ensures rests { RestsOn self.old.seat.me.0.seen self.new.word self.new.seat.me.0.seen }
        ensures empty { result < most → self.new.count ≡ number self.new.word }
        ensures loaded { result < most
            → HasSeen self.old.seat.me.0.seen self.new.word self.new.seat.me.0.seen }
        ensures look { most ≡ 0
            → HasSeen self.old.seat.me.0.seen self.new.word self.new.seat.me.0.seen }
        ensures last { IsFinal self.old.seat.me.0.seen self.new.word }
        ensures counts { AreCounts self.new.count ring.now.shared.key.capacity counts.new }
        ensures idle { most ≡ 0 → counts.new ≡ counts.old }
        ensures well { 0 < result → WentWell (number self.new.word - self.old.count)
            self.old.seat.me.0.seen self.new.word self.new.seat.me.0.seen counts.old counts.new }
        ensures waits { 0 < most → result ≡ 0 → counts.new
            ≡ counted self.old.count (showed (number self.new.word - self.old.count) counts.old) }
    {
        if most == 0 {
            let _gone = self.sees_gone(ring);
            return 0;
        }
        if !self.has_messages(ring, most as u64, counts) {
            return 0;
        }
        let there = if self.held < most as u64 {
            self.held as usize
        } else {
            most
        };
        self.take_all(ring, there, into);
        there
    }

    /// Takes so many messages from their slots, and counts them with one store.
    fn take_all(&mut self, ring: &Ring, there: usize, into: &mut Vec<Msg>)
        requires side { IsTakeSide ring.now.shared.table_id ring.now.shared.key self.old }
        requires held { there ≤ self.old.held }
        requires spare { length into.old.items + there ≤ vec_capacity into.old }
        ensures side { IsTakeSide ring.now.shared.table_id ring.now.shared.key self.new }
        ensures count { self.new.count ≡ self.old.count + there }
        ensures word { self.new.word ≡ self.old.word }
        ensures held { self.new.held + there ≡ self.old.held }
        ensures into { into.new.items ≡ into.old.items
            ++ take there (drop self.old.count (given_list ring.now.shared.key)) }
        ensures capacity { vec_capacity into.new ≡ vec_capacity into.old }
        ensures seen { self.new.seat.me.0.seen ≡ self.old.seat.me.0.seen }
    {
        let passed = there as u64;
        self.empty(ring, there, into);
        ring.shared
            .store::<StoreHead>(&mut self.seat, HEAD, self.count + passed);
        self.count += passed;
        self.held -= passed;
    }

    /// Takes so many messages from their slots. The producer doesn't see it yet.
    fn empty(&mut self, ring: &Ring, there: usize, into: &mut Vec<Msg>)
        requires side { IsTakeSide ring.now.shared.table_id ring.now.shared.key self.old }
        requires held { there ≤ self.old.held }
        requires spare { length into.old.items + there ≤ vec_capacity into.old }
        ensures side { HasEmptied ring.now.shared.key self.old there self.new }
        ensures into { into.new.items ≡ into.old.items
            ++ take there (drop self.old.count (given_list ring.now.shared.key)) }
        ensures capacity { vec_capacity into.new ≡ vec_capacity into.old }
    {
        let mut i = 0;
        while i < there {
            match self.empty_slot(ring) {
                Some(msg) => into.push_reserved(msg),
                None => unreachable!(),
            }
            i += 1;
        }
    }

    /// Takes what lies in the slot at hand, and goes on to the next one.
    fn empty_slot(&mut self, ring: &Ring) -> Option<Msg>
        requires table { self.old.seat.table_id ≡ ring.now.shared.table_id }
        requires slot { self.old.slot < ring.now.shared.table_id.slots }
        requires held { (y : Option Msg)
            × (self.old.seat.me.1 ≡ (self.old.slot, y) ∷ rest self.old.seat.me.1) }
        ensures found { self.old.seat.me.1 ≡ (self.old.slot, result) ∷ rest self.old.seat.me.1 }
        ensures seat { self.new.seat.table_id ≡ self.old.seat.table_id }
        ensures slots { self.new.seat.me ≡ (
          self.old.seat.me.0,
          rest self.old.seat.me.1 ++ (self.old.slot, None) ∷ [],
        ) }
        ensures slot { self.new.slot ≡ (self.old.slot + 1) % ring.now.shared.table_id.slots }
        ensures same { (self.new.count ≡ self.old.count) × (self.new.word ≡ self.old.word)
            × (self.new.held ≡ self.old.held) }
    {
        let room = ring.slot_count();
        let there = ring.shared.exchange(&mut self.seat, self.slot, None);
        self.seat.turn();
        self.slot = next_slot(self.slot, room);
        there
    }

    /// Whether the producer has left.
    pub(crate) fn sees_gone(&mut self, ring: &Ring) -> bool
        requires { IsTakeSide ring.now.shared.table_id ring.now.shared.key self.old }
        ensures side { IsTakeSide ring.now.shared.table_id ring.now.shared.key self.new }
        ensures count { self.new.count ≡ self.old.count }
        ensures seen { HasSeen self.old.seat.me.0.seen self.new.word self.new.seat.me.0.seen }
        ensures gone { (result ≡ has_left self.new.word)
            × IsFinal self.old.seat.me.0.seen self.new.word }
    {
        let word = ring.shared.load::<Look>(&mut self.seat, TAIL);
        self.word = word;
        says_gone(word)
    }

    /// Shows the producer that nothing more is taken.
    pub(crate) fn leave(&mut self, ring: &Ring)
        requires { IsTakeSide ring.now.shared.table_id ring.now.shared.key self.old }
    {
        ring.shared
            .store::<Leave>(&mut self.seat, HEAD, self.count + TOP);
    }
}
