//! The list of a link, sent from one thread to another.

ghost use Rattle.std.specs.Thread.{IsSync};

use crate::links::ends::{Receives, Sends};
use crate::links::feeder::Feeder;
use lulink::{Msg, Offer};
use std::sync::Wait;
use std::thread;
use std::thread::Threads;

/// How often a loop tries before it counts as a failure.
const TRIES: u32 = 100_000_000;

/// Whether all of the list was put, by offers alone.
fn offer_all<R: Wait, S: Sends>(rt: &R, tx: &mut Feeder<'_, S>) -> bool {
    for _ in 0..TRIES {
        match tx.offer(rt) {
            Some(Offer::Done) => {}
            Some(Offer::Full(_)) => thread::yield_now(),
            None => return true,
        }
    }
    false
}

/// Whether just the list was taken, by polls alone.
fn poll_all<R: Wait, D: Receives>(rt: &R, rx: &mut D, list: &[Msg]) -> bool {
    let mut rest = list.iter();
    let mut wanted = rest.next();
    for _ in 0..TRIES {
        let found = rx.polls(rt);
        if found.is_none() {
            if wanted.is_none() {
                return true;
            }
            thread::yield_now();
            continue;
        }
        if found != wanted.copied() {
            return false;
        }
        wanted = rest.next();
    }
    false
}

/// Whether all of the list was put.
fn put_all<R: Wait, S: Sends>(rt: &R, tx: &mut Feeder<'_, S>) -> bool {
    for _ in 0..TRIES {
        match tx.put(rt) {
            Some(Ok(())) => {}
            Some(Err(_)) => return false,
            None => return true,
        }
    }
    false
}

/// Whether just the list was taken, and then the sender had left.
fn take_all<R: Wait, D: Receives>(rt: &R, rx: &mut D, list: &[Msg]) -> bool {
    for msg in list {
        if rx.takes(rt) != Ok(*msg) {
            return false;
        }
    }
    rx.takes(rt).is_err()
}

/// Whether all of the list was put.
fn send<R: Wait, S: Sends>(rt: &R, mut tx: Feeder<'_, S>, waits: bool) -> bool {
    if waits {
        put_all(rt, &mut tx)
    } else {
        offer_all(rt, &mut tx)
    }
}

/// Whether just the list was taken.
fn receive<R: Wait, D: Receives>(rt: &R, mut rx: D, list: &[Msg], waits: bool) -> bool {
    if waits {
        take_all(rt, &mut rx, list)
    } else {
        poll_all(rt, &mut rx, list)
    }
}

/// Whether two threads pass just the list, by calls that wait or by tries.
pub fn pass<R: Threads + Wait + Sync, S: Sends + Send, D: Receives + Send>(
    rt: &R,
    tx: Feeder<'_, S>,
    rx: D,
    list: &[Msg],
    waits: bool,
) -> bool {
    let (put, taken) = thread::join(
        rt,
        move || -> bool
            requires { IsSync R.row }
        { send(rt, tx, waits) },
        move || receive(rt, rx, list, waits),
    );
    put && taken
}
