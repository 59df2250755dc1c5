//! From messages into rows, and from rows into messages.

ghost use Rattle.std.specs.Prelude.{◌≡◌, ◌≤◌, ◌<◌, ◌+◌, suc, length, true, slice_get, IfSome};
ghost use Rattle.lublock_kernels.specs.Rows.{Keeps};
ghost use Rattle.lublock_kernels.specs.Words.{datum_at};
ghost use Rattle.lublock_kernels.specs.Blocks.{Holds};
ghost use Rattle.lublock_site.specs.Steps.{AreMessagesOf, AreWordsOf, HasMessage, HasWordOf};

use lublock_kernels::rows::{at, put};
use lublock_kernels::singles::word_for;
use luflow::{Body, Datum, Msg};
use lutree::Kind;

/// A word that holds a datum of this type: of nil any; none for a datum of another type.
#[inline(always)]
fn held_word(kind: Kind, datum: Datum) -> Option<i64>
    ensures { IfSome result (λ z. Holds kind z datum) }
{
    match datum {
        Datum::Nil => Some(0),
        _ => {
            let (word, none) = word_for(kind, datum);
            if none {
                return None;
            }
            Some(word)
        }
    }
}

#[inline(always)]
fn message_at(msgs: &[Msg], k: usize) -> Option<Msg>
    ensures { result ≡ slice_get msgs.now k }
{
    msgs.get(k).copied()
}

/// A word that holds the datum of message k; none where that is of another type, or is the close.
#[inline(always)]
fn word_of_message(kind: Kind, msgs: &[Msg], k: usize) -> Option<i64>
    ensures { IfSome result (HasWordOf kind msgs.now k) }
{
    let Some(msg) = message_at(msgs, k) else {
        return None;
    };
    match msg.body {
        Body::Close => None,
        Body::Value(datum) => held_word(kind, datum),
    }
}

fn write_words(kind: Kind, row: &mut [i64], from: usize, msgs: &[Msg]) -> bool
    requires room { suc (from + length msgs.now) ≤ length row.old }
    ensures len { length row.new ≡ length row.old }
    ensures kept { Keeps from row.old row.new }
    ensures words { result ≡ true
        → AreWordsOf kind msgs.now from row.new (length msgs.now) }
{
    for k in 0..msgs.len() {
        let Some(word) = word_of_message(kind, msgs, k) else {
            return false;
        };
        put(row, from + k, word);
    }
    true
}

/// Writes the data of messages as words of a row of this type, from tick `from` on. False where one of them
/// is of another type, or the close.
pub fn write_messages(kind: Kind, row: &mut Vec<i64>, from: usize, msgs: &[Msg]) -> bool
    requires room { suc (from + length msgs.now) ≤ length row.old.items }
    ensures kept { Keeps from row.old.items row.new.items }
    ensures words { result ≡ true
        → AreWordsOf kind msgs.now from row.new.items (length msgs.now) }
{
    write_words(kind, row.as_mut_slice(), from, msgs)
}

/// The datum that a word of this type stands for; none for a name of no such number.
#[inline(always)]
fn datum_for(kind: Kind, word: i64) -> Option<Datum>
    ensures { IfSome result (λ d. d ≡ datum_at kind word) }
{
    match kind {
        Kind::Int => Some(Datum::Int(word)),
        Kind::Bool => Some(Datum::Bool(word != 0)),
        Kind::Enum(_, _) => {
            if 0 <= word && word < 256 {
                Some(Datum::Name(word as u8))
            } else {
                None
            }
        }
    }
}

/// The number of the k-th message from that of this number on; none above the greatest number.
#[inline(always)]
pub fn number_after(number: u32, k: usize) -> Option<u32>
    ensures { IfSome result (λ n. n ≡ number + k) }
{
    match u32::try_from(k) {
        Ok(k) => number.checked_add(k),
        Err(_) => None,
    }
}

/// The message of this number on from another, whose datum is that of a row's tick.
#[inline(always)]
fn message_of(kind: Kind, row: &[i64], tick: usize, number: u32, k: usize) -> Option<Msg>
    requires { suc (tick + k) < length row.now }
    ensures { IfSome result (HasMessage kind row.now tick number k) }
{
    let datum = datum_for(kind, at(row, tick + k))?;
    let no = number_after(number, k)?;
    Some(Msg {
        no,
        body: Body::Value(datum),
    })
}

/// Fills a run with the messages of a row's ticks from this one on, numbered from this number on: as many as
/// it has room for, at most so many. False where a word is a name of no such number, or there is no number
/// left.
pub fn fill_run(
    kind: Kind,
    row: &[i64],
    tick: usize,
    number: u32,
    run: &mut Vec<Msg>,
    most: usize,
) -> bool
    requires row { suc (tick + most) ≤ length row.now }
    ensures filled { result ≡ true → AreMessagesOf kind row.now tick number run.new.items }
    ensures within { result ≡ true → length run.new.items ≤ most }
{
    run.clear();
    let count = most.min(run.capacity());
    for k in 0..count {
        let Some(msg) = message_of(kind, row, tick, number, k) else {
            return false;
        };
        run.push_reserved(msg);
    }
    true
}
