//! The list of a link, sent from one thread to another by runs of messages.

ghost use Rattle.std.specs.Prelude.{◌≡◌, []};
ghost use Rattle.lulink.specs.Lists.{list_of};

use crate::driven::Feeder;
use crate::links::calls::expect;
use lulink::{Msg, Rx, Tx};
use std::alloc::Global;
use std::thread;
use std::thread::Threads;

/// How often a loop tries before it counts as a failure.
const TRIES: u32 = 100_000_000;

/// The most messages that are taken at once.
const MOST: usize = 100;

/// Whether all of the list was put.
fn send(mut tx: Feeder<'_>) -> bool {
    for _ in 0..TRIES {
        if tx.is_done() {
            return true;
        }
        if tx.offer_run() == 0 {
            thread::yield_now();
        }
    }
    false
}

/// Whether these messages are those of the list from this place on.
fn are_next(list: &[Msg], at: usize, run: &[Msg]) -> bool {
    let (_, rest) = list.split_at(at.min(list.len()));
    rest.starts_with(run)
}

/// Whether just the list was taken, and then the sender had left.
fn receive(mut rx: Rx, list: &[Msg], mut run: Vec<Msg>) -> bool {
    let mut at = 0usize;
    for _ in 0..TRIES {
        let alone = rx.gone();
        run.clear();
        let came = rx.poll_run(run.capacity(), &mut run);
        if !are_next(list, at, &run) {
            return false;
        }
        at = at.saturating_add(came);
        if came == 0 {
            if alone {
                return at == list.len();
            }
            thread::yield_now();
        }
    }
    false
}

/// Passes just the list, over two threads, by runs. Where it goes wrong, what was expected.
pub fn pass_runs<R: Threads>(
    rt: &R,
    alloc: Global,
    tx: Tx,
    rx: Rx,
    list: &[Msg],
) -> Result<(), &'static str>
    requires list { list.now ≡ list_of tx.job tx.link }
    requires none { tx.put ≡ [] }
{
    let Ok(run) = Vec::with_capacity(alloc, MOST) else {
        return Err("no memory");
    };
    let feeder = Feeder { tx, list, at: 0 };
    let (put, taken) = thread::join(rt, move || send(feeder), move || receive(rx, list, run));
    expect(put && taken, "not just its list")
}
