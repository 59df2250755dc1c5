//! How far a run has come.

use lubase::limits::MOST_SITES;
use std::io::Eprint;
use std::sync::atomic::{AtomicU64, Ordering};
use std::time::{Clock, Instant};

/// How many milliseconds lie between two lines, at the least.
const PAUSE: u64 = 500;

/// Every how many instants of a site the clock is looked at.
const STRIDE: u64 = 64;

/// What gets reports of how far the sites of a run have come. It is handed nothing of the values.
pub trait Progress: Sync {
    /// A run of so many sites and instants begins.
    fn begin(&self, sites: usize, instants: u32);

    /// A site has done all its items of the instants before this one. The thread that serves the site calls
    /// it.
    fn reach(&self, site: u8, instant: u32);
}

/// Reports to nobody.
#[derive(Drop)]
pub struct Silent;

impl Progress for Silent {
    fn begin(&self, _sites: usize, _instants: u32) {}

    fn reach(&self, _site: u8, _instant: u32) {}
}

/// Reports on the error stream how many instants the slowest site has done, at most twice a second: a line
/// such as `4096 of 100000 instants`. A line that can't be written, or a clock that can't be read, is passed
/// over.
#[derive(Drop)]
pub struct Meter<'a, R> {
    runtime: &'a R,
    begun: Option<Instant>,
    sites: AtomicU64,
    instants: AtomicU64,
    reached: [AtomicU64; MOST_SITES],
    reported: AtomicU64,
}

/// As many sites as there may be, which have done nothing.
fn none_reached() -> [AtomicU64; MOST_SITES] {
    [
        AtomicU64::new(0),
        AtomicU64::new(0),
        AtomicU64::new(0),
        AtomicU64::new(0),
        AtomicU64::new(0),
        AtomicU64::new(0),
        AtomicU64::new(0),
        AtomicU64::new(0),
        AtomicU64::new(0),
        AtomicU64::new(0),
        AtomicU64::new(0),
        AtomicU64::new(0),
        AtomicU64::new(0),
        AtomicU64::new(0),
        AtomicU64::new(0),
        AtomicU64::new(0),
    ]
}

impl<'a, R: Clock + Eprint> Meter<'a, R> {
    /// A meter that writes its lines by this runtime, half a second from now at the earliest.
    pub fn new(runtime: &'a R) -> Self {
        Meter {
            runtime,
            begun: Instant::now(runtime).ok(),
            sites: AtomicU64::new(0),
            instants: AtomicU64::new(0),
            reached: none_reached(),
            reported: AtomicU64::new(0),
        }
    }

    /// The milliseconds since the meter was made, where the clock can be read.
    fn age(&self) -> Option<u64> {
        let age = self.begun?.elapsed(self.runtime).ok()?;
        u64::try_from(age.as_millis()).ok()
    }

    /// Whether the next line is due. Of several threads that ask at once one gets that answer.
    fn is_due(&self) -> bool {
        let Some(now) = self.age() else {
            return false;
        };
        let reported = self.reported.load(Ordering::Relaxed);
        now >= reported.saturating_add(PAUSE)
            && self
                .reported
                .compare_exchange(reported, now, Ordering::Relaxed, Ordering::Relaxed)
                .is_ok()
    }

    /// How many instants the slowest site has done.
    fn slowest(&self) -> u64 {
        let mut least = self.instants.load(Ordering::Relaxed);
        let mut sites = self.sites.load(Ordering::Relaxed);
        for reached in &self.reached {
            if sites == 0 {
                break;
            }
            sites -= 1;
            least = least.min(reached.load(Ordering::Relaxed));
        }
        least
    }

    /// Writes a line.
    fn tell(&self) {
        let all = self.instants.load(Ordering::Relaxed);
        let _ = eprintln!(self.runtime; "{} of {} instants", self.slowest(), all);
    }
}

impl<'a, R: Clock + Eprint + Sync> Progress for Meter<'a, R> {
    fn begin(&self, sites: usize, instants: u32) {
        self.sites.store(sites as u64, Ordering::Relaxed);
        self.instants.store(u64::from(instants), Ordering::Relaxed);
    }

    fn reach(&self, site: u8, instant: u32) {
        let Some(reached) = self.reached.get(usize::from(site)) else {
            return;
        };
        let now = u64::from(instant);
        let is_last = now == self.instants.load(Ordering::Relaxed);
        if now < reached.load(Ordering::Relaxed).saturating_add(STRIDE) && !is_last {
            return;
        }
        reached.store(now, Ordering::Relaxed);
        if self.is_due() {
            self.tell();
        }
    }
}
