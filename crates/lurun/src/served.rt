//! Going round stations until all are over.

ghost use Rattle.std.specs.Prelude.{◌≡◌, ◌<◌, ◌+◌, vec_len};
ghost use Rattle.lurun.specs.Stations.{AreReportsOf};
ghost use Rattle.lurun.specs.Crew.{HasRoom, IsNewShare, GoesOn};

use crate::gate::Gate;
use crate::report::Report;
use crate::station::Station;
use luworld::Turn;
use std::marker::Model;
use std::rt::Clock;
use std::sync::Wait;
use std::thread;
use std::time::{Duration, Instant};

/// A station as a worker goes round it, and the instant that the gate was called with last.
#[derive(Drop)]
pub struct Served {
    station: Station,
    reported: Option<u32>,
}

impl Model for Served {
    ghost use Rattle.lurun.specs.Stations.{StationView};

    ghost Value = { StationView };

    ghost view = { λ a. a.station };
}

/// A new station, as a worker serves it.
pub fn served_of(station: Station) -> Served
    ensures { result ≡ station }
{
    Served {
        station,
        reported: None,
    }
}

impl Served {
    /// The number of the station's site.
    pub fn number(&self) -> u8
        ensures { result ≡ self.now.site }
    {
        self.station.site()
    }

    /// Calls the gate with the instant at which the station stands, if that is news.
    fn call_gate<G: Gate>(&mut self, gate: &G)
        ensures { self.new ≡ self.old }
    {
        let instant = self.station.instant();
        if self.reported != Some(instant) {
            gate.at(self.station.site(), instant);
            self.reported = Some(instant);
        }
    }

    /// Goes on until the station is blocked or over, and calls the gate.
    fn go<G: Gate>(&mut self, gate: &G) -> Turn
        ensures { self.new ≡ self.old }
    {
        let turn = self.station.go(gate);
        match turn {
            Turn::Moved => self.call_gate(gate),
            Turn::Blocked => self.call_gate(gate),
            Turn::Over => gate.at(self.station.site(), self.station.instant()),
        }
        turn
    }

    /// Calls the gate for each end of the site, which is over.
    fn call_left<G: Gate>(&self, gate: &G) {
        let site = self.station.site();
        for place in 0..self.station.end_count() {
            if let Some(end) = self.station.end(place) {
                gate.left(site, end);
            }
        }
    }

    /// What the site leaves. The ends are left.
    fn report(self) -> Report
        ensures { result.of ≡ self }
    {
        let Served {
            station,
            reported: _,
        } = self;
        station.report()
    }
}

/// A worker's stations, and room for a report of each.
#[derive(Drop)]
pub struct Share {
    pub served: Vec<Served>,
    pub reports: Vec<Report>,
}

fn go_at<G: Gate>(served: &mut Vec<Served>, at: usize, gate: &G) -> Turn
    requires { at < vec_len served.old }
    ensures same { served.new.items ≡ served.old.items }
    ensures len { vec_len served.new ≡ vec_len served.old }
{
    let served = &mut served[at];
    served.go(gate)
}

/// Takes out a station that is over, after a call of the gate for each of its ends. What it leaves is kept.
fn take_out<G: Gate>(share: &mut Share, at: usize, gate: &G)
    requires at { at < vec_len share.old.served }
    requires room { HasRoom share.old }
    ensures room { HasRoom share.new }
    ensures on { GoesOn share.old share.new }
    ensures len { vec_len share.new.served + 1 ≡ vec_len share.old.served }
{
    let served = share.served.swap_remove(at);
    served.call_left(gate);
    share.reports.push_reserved(served.report());
}

/// Goes round the stations once: whether a station moved or was over.
fn go_round<G: Gate>(share: &mut Share, gate: &G) -> bool
    requires { HasRoom share.old }
    ensures room { HasRoom share.new }
    ensures on { GoesOn share.old share.new }
{
    let mut moved = false;
    let mut at = 0;
    while at < share.served.len() {
        match go_at(&mut share.served, at, gate) {
            Turn::Moved => {
                moved = true;
                at += 1;
            }
            Turn::Blocked => at += 1,
            Turn::Over => {
                moved = true;
                take_out(share, at, gate);
            }
        }
    }
    moved
}

/// A worker sleeps once rounds in a row that moved nothing have cost so much. A round ends with a yield,
/// which costs 1, or where somebody else had the processor meanwhile, [`SLOW`].
const PATIENCE: u32 = 1000;

/// What a yield costs in which somebody else had the processor.
const SLOW: u32 = 100;

/// So many microseconds of a yield show that nobody else wanted the processor.
const AT_ONCE: u32 = 5;

/// How long the sleep is, in microseconds.
const SLEEP: u64 = 10;

/// Lets others have the processor. Whether it came back at once.
fn yields_at_once<R: Clock>(rt: &R) -> bool {
    let before = Instant::now(rt);
    thread::yield_now();
    let Ok(before) = before else {
        return false;
    };
    match before.elapsed(rt) {
        Ok(span) => span.as_secs() == 0 && span.subsec_micros() < AT_ONCE,
        Err(_) => false,
    }
}

/// Rests after a round that moved nothing, and adds what that costs.
fn rest<R: Clock>(rt: &R, idle: u32) -> u32 {
    if idle >= PATIENCE {
        thread::sleep(rt, Duration::from_micros(SLEEP));
        return idle;
    }
    if yields_at_once(rt) {
        return idle + 1;
    }
    idle + SLOW
}

/// Goes round the stations until all are over.
pub fn serve<R: Wait + Clock, G: Gate>(rt: &R, mut share: Share, gate: &G) -> Vec<Report>
    requires { IsNewShare share }
    ensures { AreReportsOf share.served.items result.items }
{
    let mut idle = 0;
    for _ in rt.forever() {
        if share.served.is_empty() {
            break;
        }
        if go_round(&mut share, gate) {
            idle = 0;
        } else {
            idle = rest(rt, idle);
        }
    }
    let Share { served: _, reports } = share;
    reports
}
