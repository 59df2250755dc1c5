//! Two sites of a job, each in a thread, over the two links from the first to the second: by items that are
//! done one by one, up to a number of them. Each message is looked at as it comes.

ghost use Rattle.std.specs.Prelude.{◌≡◌, ◌≤◌, ◌+◌, IfSome, ℕ, count_by, length, slice_get, take};
ghost use Rattle.std.specs.Thread.{IsSync};
ghost use Rattle.luworld.specs.Jobs.{JobView};
ghost use Rattle.luworld.specs.Systems.{takes};
ghost use Rattle.lulink.specs.Lists.{list_of};
ghost use Rattle.test_reference.specs.AsItem.{as_item};
ghost use Rattle.test_transcript.specs.Driven.{IsGiven, IsPlain};

use lulink::{Msg, Offer, Rx, Tx};
use lusite::{Next, Site, SiteReport};
use std::sync::Wait;
use std::thread;
use std::thread::Threads;
use test_reference::Item;

/// Offers all messages of a link's list from this place on, at once. How many of them were put.
fn offer_rest(tx: &mut Tx, list: &[Msg], at: usize) -> usize
    requires list { list.now ≡ list_of tx.old.job tx.old.link }
    requires at { length tx.old.put ≡ at }
    requires within { at ≤ length list.now }
    ensures list { list.now ≡ list_of tx.new.job tx.new.link }
    ensures at { length tx.new.put ≡ at + result }
    ensures within { at + result ≤ length list.now }
{
    let (_, rest) = list.split_at(at);
    tx.offer_run(rest)
}

/// The sender's end of a link, and its list, of which so many messages were put.
#[derive(Drop)]
pub struct Feeder<'l> {
    pub tx: Tx,
    pub list: &'l [Msg],
    pub at: usize,
    ghost fed: { (list.now ≡ list_of tx.job tx.link) × (length tx.put ≡ at) },
}

impl Feeder<'_> {
    /// Puts the next message of the list. False where that isn't this one, or where the receiver has left and
    /// the link is full. What comes back is offered once more: what the receiver took last, after the put had
    /// found the link full, has made room. So which message is the last to go in depends on what the receiver
    /// took, and not on which thread was quicker.
    fn put<R: Wait>(&mut self, rt: &R, msg: Msg) -> bool {
        let Some(next) = self.list.get(self.at).copied() else {
            return false;
        };
        if next != msg {
            return false;
        }
        match self.tx.put(rt, next) {
            Ok(()) => self.at += 1,
            Err(_) => match self.tx.offer(next) {
                Offer::Done => self.at += 1,
                Offer::Full(_) => return false,
            },
        }
        true
    }

    /// Offers all messages of the list that weren't put yet, at once. How many of them were put.
    pub fn offer_run(&mut self) -> usize {
        if self.at > self.list.len() {
            return 0;
        }
        let put = offer_rest(&mut self.tx, self.list, self.at);
        self.at += put;
        put
    }

    /// Whether all of the list was put.
    pub fn is_done(&self) -> bool {
        self.at == self.list.len()
    }
}

/// What the plain programs say of the second site: its script, and the lists of both links.
#[derive(Clone, Copy, Drop)]
pub struct Plain<'l> {
    pub script: &'l [Item],
    pub first: &'l [Msg],
    pub second: &'l [Msg],
}

/// What a site leaves, and how many items it did.
pub type Left = (SiteReport, usize);

fn is_take(link: usize, item: Item) -> bool
    ensures { result ≡ takes link (as_item item) }
{
    match item {
        Item::Compute { .. } => false,
        Item::Put { .. } => false,
        Item::Take { link: other } => other == link,
    }
}

/// How many of the first items of a script take from a link.
pub fn takes_in(script: &[Item], count: usize, link: usize) -> usize
    ensures { result ≡ count_by (λ item. takes link (as_item item)) (take count script.now) }
{
    script
        .iter()
        .take(count)
        .filter(|item| is_take(link, **item))
        .count()
}

/// Message `number` of a list.
fn message_at(list: &[Msg], number: usize) -> Option<Msg>
    ensures { result ≡ slice_get list.now number }
{
    list.get(number).copied()
}

/// What a site that has done so many items of its script is given from a link, by the lists of the first two.
fn next_of(script: &[Item], first: &[Msg], second: &[Msg], link: usize, done: usize) -> Option<Msg>
    ensures { (job : JobView) (s : ℕ) → IsPlain job s script.now first.now second.now
        → IfSome result (IsGiven job s link done) }
{
    let number = takes_in(script, done, link);
    match link {
        0 => message_at(first, number),
        1 => message_at(second, number),
        _ => None,
    }
}

/// Does the first site's items, so many at most, and leaves its ends; how many it did. It stops where the
/// site is over, its next item takes, or a put isn't done.
fn first_site<R: Wait>(
    rt: &R,
    mut site: Site,
    feeders: (Feeder<'_>, Feeder<'_>),
    most: usize,
) -> Left {
    let (mut first, mut second) = feeders;
    let mut done = 0;
    for k in 0..most {
        match site.next() {
            Next::Local => site.work(),
            Next::Put(link, msg) => {
                let put = if link == 0 {
                    first.put(rt, msg)
                } else {
                    second.put(rt, msg)
                };
                if !put {
                    break;
                }
                site.sent();
            }
            _ => break,
        }
        done = k + 1;
    }
    drop(first);
    drop(second);
    (site.report(), done)
}

/// Does the second site's items, so many at most, and leaves its ends; how many it did. It stops where the
/// site is over, its next item puts, nothing is left to take, or what was taken isn't the next of its list.
fn second_site<R: Wait>(
    rt: &R,
    mut site: Site,
    takers: (Rx, Rx),
    plain: Plain<'_>,
    most: usize,
) -> Left
    requires new { site.done ≡ 0 }
    requires plain { IsPlain site.job site.site plain.script.now plain.first.now
        plain.second.now }
{
    let (mut first, mut second) = takers;
    let mut done = 0;
    for k in 0..most {
        match site.next() {
            Next::Local => site.work(),
            Next::Take(link) => {
                let found = if link == 0 {
                    first.take(rt)
                } else {
                    second.take(rt)
                };
                let Some(next) = next_of(plain.script, plain.first, plain.second, link, k) else {
                    break;
                };
                if found != Ok(next) {
                    break;
                }
                site.given(next);
            }
            _ => break,
        }
        done = k + 1;
    }
    drop(first);
    drop(second);
    (site.report(), done)
}

/// What both sites leave, and how many items each did, so many at most: over the sender's and the receiver's
/// ends of both links.
pub fn driven<R: Threads + Wait + Sync>(
    rt: &R,
    sites: (Site, Site),
    feeders: (Feeder<'_>, Feeder<'_>),
    takers: (Rx, Rx),
    plain: Plain<'_>,
    most: (usize, usize),
) -> (Left, Left)
    requires new { sites.1.done ≡ 0 }
    requires plain { IsPlain sites.1.job sites.1.site plain.script.now plain.first.now
        plain.second.now }
{
    let (one, two) = sites;
    thread::join(
        rt,
        move || -> Left
            requires { IsSync R.row }
        { first_site(rt, one, feeders, most.0) },
        move || -> Left
            requires { IsSync R.row × (two.done ≡ 0) × IsPlain two.job two.site plain.script.now
                plain.first.now plain.second.now }
        { second_site(rt, two, takers, plain, most.1) },
    )
}
