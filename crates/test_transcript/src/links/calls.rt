//! Both ends of a link of one message in one thread. The link carries 0, 1 and so on, and then its close.

use crate::links::ends::{Receives, Sends};
use crate::links::feeder::Feeder;
use lulink::{Body, Datum, Msg, Offer, PutError, TakeError};
use std::sync::Wait;

const ZERO: Msg = Msg {
    no: 0,
    body: Body::Value(Datum::Int(0)),
};

const ONE: Msg = Msg {
    no: 1,
    body: Body::Value(Datum::Int(1)),
};

/// Fails with what was expected, where that isn't so.
pub fn expect(is_so: bool, what: &'static str) -> Result<(), &'static str> {
    if is_so { Ok(()) } else { Err(what) }
}

/// A link of one message is filled and emptied.
fn fill<R: Wait, S: Sends, D: Receives>(
    rt: &R,
    tx: &mut Feeder<'_, S>,
    rx: &mut D,
) -> Result<(), &'static str> {
    expect(tx.offer(rt) == Some(Offer::Done), "0 is put")?;
    expect(tx.offer(rt) == Some(Offer::Full(ONE)), "1 comes back")?;
    expect(rx.polls(rt) == Some(ZERO), "0 is taken")
}

/// A link of one message that was emptied is filled again.
fn refill<R: Wait, S: Sends, D: Receives>(
    rt: &R,
    tx: &mut Feeder<'_, S>,
    rx: &mut D,
) -> Result<(), &'static str> {
    expect(rx.polls(rt) == None, "nothing is there")?;
    expect(tx.offer(rt) == Some(Offer::Done), "1 is put")?;
    expect(!rx.is_alone(), "the sender is there")
}

/// Its last message is taken after its sender has left.
fn empty<R: Wait, D: Receives>(rt: &R, rx: &mut D) -> Result<(), &'static str> {
    expect(rx.is_alone(), "the sender has left")?;
    expect(rx.takes(rt) == Ok(ONE), "1 is taken")?;
    expect(rx.takes(rt) == Err(TakeError::Gone), "nothing is left")
}

/// A link of one message is filled, emptied and filled again; then its sender leaves, and it is emptied.
pub fn fill_and_leave<R: Wait, S: Sends, D: Receives>(
    rt: &R,
    mut tx: Feeder<'_, S>,
    mut rx: D,
) -> Result<(), &'static str> {
    fill(rt, &mut tx, &mut rx)?;
    refill(rt, &mut tx, &mut rx)?;
    let Feeder { tx, .. } = tx;
    tx.leaves();
    empty(rt, &mut rx)
}

/// The receiver of a link of one message leaves before anything is put.
pub fn put_alone<R: Wait, S: Sends, D: Receives>(
    rt: &R,
    mut tx: Feeder<'_, S>,
    rx: D,
) -> Result<(), &'static str> {
    expect(!tx.tx.is_alone(), "the receiver is there")?;
    rx.leaves();
    expect(tx.put(rt) == Some(Ok(())), "there is room for 0")?;
    expect(tx.put(rt) == Some(Err(PutError::Gone(ONE))), "1 comes back")?;
    expect(tx.tx.is_alone(), "the receiver has left")
}

/// A sender's end is dropped.
pub fn drop_sender<S: Sends, D: Receives>(
    tx: Feeder<'_, S>,
    mut rx: D,
) -> Result<(), &'static str> {
    expect(!rx.is_alone(), "the sender is there")?;
    drop(tx);
    expect(rx.is_alone(), "the sender has left")
}

/// A receiver's end is dropped.
pub fn drop_receiver<S: Sends, D: Receives>(
    mut tx: Feeder<'_, S>,
    rx: D,
) -> Result<(), &'static str> {
    expect(!tx.tx.is_alone(), "the receiver is there")?;
    drop(rx);
    expect(tx.tx.is_alone(), "the receiver has left")
}
