//! A site that goes item by item, over the ends of its links.

ghost use Rattle.std.specs.Prelude.{◌≡◌, ◌+◌, ◌≤◌, IfSome, true};
ghost use Rattle.luworld.specs.declared.turn.Turn.TheVariants.{Over};
ghost use Rattle.luworld.specs.Turns.{has_moved};
ghost use Rattle.lurun.specs.Cuts.{IsOver};
ghost use Rattle.lurun.specs.Items.{IsNewSite, IsSameSite, Moves};

use crate::gate::Gate;
use crate::tries::{offer_one, poll_one, work_one};
use lulink::{EndTally, Rx, Tx};
use lusite::{Next, Site, SiteReport};
use luworld::Turn;
use std::marker::Model;

/// How many items a site does before another one has its turn.
const STEPS: u32 = 4096;

/// A site that goes item by item: so many items are done, and the gate was called for the next one or wasn't.
pub struct ItemStation {
    site: Site,
    txs: Vec<Tx>,
    rxs: Vec<Rx>,
    step: u64,
    called: bool,
}

// By hand, so that it is proved here alone.
impl Drop for ItemStation {
    fn drop(self) {
        let Self {
            site: _,
            txs: _,
            rxs: _,
            step: _,
            called: _,
        } = self;
    }
}

impl Model for ItemStation {
    ghost use Rattle.lurun.specs.Items.{ItemsView, EndsAgree};

    ghost Value = { ItemsView };

    ghost view = { λ a. record { at = a.site; txs = a.txs.items; rxs = a.rxs.items } };

    ghost invariant = { λ a. EndsAgree a.site a.txs.items a.rxs.items };
}

impl ItemStation {
    /// A new site and the unused ends of all its links, in order of the links. Takes no memory.
    pub fn new(site: Site, txs: Vec<Tx>, rxs: Vec<Rx>) -> ItemStation
        requires { IsNewSite site txs.items rxs.items }
        ensures { result ≡ record { at = site; txs = txs.items; rxs = rxs.items } }
    {
        ItemStation {
            site,
            txs,
            rxs,
            step: 0,
            called: false,
        }
    }

    /// The number of the site, from 0. Takes no memory.
    pub fn site(&self) -> u8
        ensures { result ≡ self.now.at.site }
    {
        self.site.site()
    }

    /// The instant at which the site stands, from 0. Takes no memory.
    pub fn instant(&self) -> u32 {
        self.site.instant()
    }

    /// How many ends of links the site has. Takes no memory.
    pub fn end_count(&self) -> usize {
        self.txs.len().saturating_add(self.rxs.len())
    }

    /// What the end of this place has counted, from 0 on: first the sending ends, then the receiving ones.
    /// None where there is no such end. Takes no memory.
    pub fn end(&self, place: usize) -> Option<EndTally>
        ensures { IfSome result (λ e. e.tally.waited ≤ e.tally.passed + 1) }
    {
        match self.txs.as_slice().get(place) {
            Some(tx) => Some(tx.end_tally()),
            None => {
                let behind = place.checked_sub(self.txs.len())?;
                let rx = self.rxs.as_slice().get(behind)?;
                Some(rx.end_tally())
            }
        }
    }

    /// Calls the gate for the item at hand, if it wasn't called yet.
    fn call<G: Gate>(&mut self, gate: &G)
        ensures { self.new ≡ self.old }
    {
        if !self.called {
            gate.at(self.site.site(), self.site.instant());
            gate.before(self.site.site(), self.step);
            self.called = true;
        }
    }

    /// Notes what came of the item at hand.
    fn note(&mut self, turn: Turn)
        ensures { self.new ≡ self.old }
    {
        match turn {
            Turn::Moved => {
                self.called = false;
                self.step = self.step.wrapping_add(1);
            }
            Turn::Blocked => {}
            Turn::Over => {}
        }
    }

    /// Tries the item at hand, and says how that went.
    fn try_item(&mut self) -> Turn
        ensures moved { Moves (has_moved result) self.old.at self.new.at }
        ensures site { IsSameSite self.old.at self.new.at }
        ensures over { result ≡ Over → IsOver self.new.at self.new.txs self.new.rxs }
    {
        match self.site.next() {
            Next::Ended => Turn::Over,
            Next::Faulted => Turn::Over,
            Next::Local => {
                work_one(&mut self.site);
                Turn::Moved
            }
            Next::Put(link, msg) => offer_one(&mut self.site, &mut self.txs, link, msg),
            Next::Take(link) => poll_one(&mut self.site, &mut self.rxs, link),
        }
    }

    /// Whether the site has no item more.
    fn is_over(&self) -> bool
        ensures { result ≡ true → IsOver self.now.at self.now.txs self.now.rxs }
    {
        match self.site.next() {
            Next::Ended => true,
            Next::Faulted => true,
            Next::Local => false,
            Next::Put(_, _) => false,
            Next::Take(_) => false,
        }
    }

    /// Does the item at hand, if there is one, after a call of the gate.
    fn step<G: Gate>(&mut self, gate: &G) -> Turn
        ensures site { IsSameSite self.old.at self.new.at }
        ensures over { result ≡ Over → IsOver self.new.at self.new.txs self.new.rxs }
    {
        if self.is_over() {
            return Turn::Over;
        }
        self.call(gate);
        let turn = self.try_item();
        self.note(turn);
        turn
    }

    /// Does items until one is blocked, or the site is over, or it has done many. Never waits, and takes no
    /// memory.
    pub fn go<G: Gate>(&mut self, gate: &G) -> Turn
        ensures site { IsSameSite self.old.at self.new.at }
        ensures over { result ≡ Over → IsOver self.new.at self.new.txs self.new.rxs }
    {
        let mut moved = false;
        for _step in 0..STEPS {
            match self.step(gate) {
                Turn::Moved => moved = true,
                Turn::Blocked => {
                    if moved {
                        return Turn::Moved;
                    }
                    return Turn::Blocked;
                }
                Turn::Over => return Turn::Over,
            }
        }
        Turn::Moved
    }

    /// What the site leaves; its ends are left.
    pub fn report(self) -> SiteReport
        ensures { result ≡ self.at }
    {
        let ItemStation {
            site,
            txs: _,
            rxs: _,
            step: _,
            called: _,
        } = self;
        site.report()
    }
}
