//! A gate at which two sites meet.

use lurun::Gate;
use std::sync::atomic::{AtomicU64, Ordering};
use std::thread;

/// How often a site looks for the other one, which is to come.
const LOOKS: u64 = 10_000_000;

/// How often it looks for one that isn't to come.
const FEW_LOOKS: u64 = 100_000;

/// A gate at which each of two sites waits the first time that it is named, until the other one is named too,
/// or for so many looks. Where one thread serves both, the other one isn't named meanwhile. It counts the
/// runs that are given up.
#[derive(Drop)]
pub struct Barrier {
    looks: u64,
    first: AtomicU64,
    second: AtomicU64,
    missed: AtomicU64,
    given_up: AtomicU64,
}

impl Barrier {
    /// A gate of the part that a word names: two threads `meet`, or one is `alone`; for any other word nobody
    /// waits.
    pub fn new(part: &str) -> Barrier {
        let looks = match part {
            "meet" => LOOKS,
            "alone" => FEW_LOOKS,
            _ => 0,
        };
        Barrier {
            looks,
            first: AtomicU64::new(0),
            second: AtomicU64::new(0),
            missed: AtomicU64::new(0),
            given_up: AtomicU64::new(0),
        }
    }

    /// Whether both sites were named, and neither waited in vain.
    pub fn was_met(&self) -> bool {
        self.first.load(Ordering::SeqCst) > 0
            && self.second.load(Ordering::SeqCst) > 0
            && self.missed.load(Ordering::SeqCst) == 0
    }

    /// How many runs were given up.
    pub fn given_up(&self) -> u64 {
        self.given_up.load(Ordering::SeqCst)
    }
}

/// Waits until a site is named. False where it isn't.
fn is_named(count: &AtomicU64, looks: u64) -> bool {
    for _ in 0..looks {
        if count.load(Ordering::SeqCst) > 0 {
            return true;
        }
        thread::yield_now();
    }
    false
}

impl Gate for Barrier {
    fn before(&self, _site: u8, _step: u64) {}

    fn at(&self, site: u8, _instant: u32) {
        let (own, other) = if site == 0 {
            (&self.first, &self.second)
        } else {
            (&self.second, &self.first)
        };
        let is_first = own.fetch_add(1, Ordering::SeqCst) == 0;
        if is_first && self.looks > 0 && !is_named(other, self.looks) {
            self.missed.store(1, Ordering::SeqCst);
        }
    }

    fn again(&self) {
        self.given_up.fetch_add(1, Ordering::SeqCst);
    }
}
