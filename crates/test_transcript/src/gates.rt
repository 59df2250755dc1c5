//! A gate that counts the items of two sites, and holds some of them back.

use lurun::Gate;
use std::sync::atomic::{AtomicU64, Ordering};
use std::thread;

/// How often a gate looks before it counts as a failure.
const LOOKS: u64 = 10_000_000;

/// How often a gate looks while it holds an item.
const MORE_LOOKS: u64 = 1_000_000;

/// How many items each site does at an instant, where items are to meet.
const EACH: u64 = 5;

/// Which items are held.
#[derive(Clone, Copy, Drop)]
enum Rule {
    /// None.
    Open,
    /// Each, until the other site has come to its own of that number. It fails where a site doesn't stand at
    /// the instant of its item, of which each has five.
    Meet,
    /// The first put of the first site, until the second one has come to its first item, a take, and then for
    /// some looks more: meanwhile the second can't come to its next.
    Hold,
    /// Each, for some turns of the other threads: as many as a seed, the site and the item's number give.
    Scatter(u64),
}

/// The number of items that a site has come to, and the instant where it stands.
#[derive(Drop)]
pub struct Seen {
    pub came: AtomicU64,
    pub reached: AtomicU64,
}

/// What is seen of two sites, and whether the gate has failed.
#[derive(Drop)]
pub struct Watch {
    rule: Rule,
    pub first: Seen,
    pub second: Seen,
    pub failed: AtomicU64,
}

impl Watch {
    /// A gate of the rule that a word names: `open`, `meet`, `hold`, or a seed.
    pub fn new(word: &str) -> Watch {
        let rule = match word {
            "open" => Rule::Open,
            "meet" => Rule::Meet,
            "hold" => Rule::Hold,
            seed => Rule::Scatter(seed.parse().unwrap_or(0)),
        };
        Watch {
            rule,
            first: Seen {
                came: AtomicU64::new(0),
                reached: AtomicU64::new(0),
            },
            second: Seen {
                came: AtomicU64::new(0),
                reached: AtomicU64::new(0),
            },
            failed: AtomicU64::new(0),
        }
    }

    fn seen(&self, site: u8) -> &Seen {
        if site == 0 { &self.first } else { &self.second }
    }
}

/// Waits until a site has come to more items than this. False where it doesn't.
fn comes_to(seen: &Seen, step: u64) -> bool {
    for _ in 0..LOOKS {
        if seen.came.load(Ordering::SeqCst) > step {
            return true;
        }
        thread::yield_now();
    }
    false
}

/// Waits for some turns of the other threads.
fn scatter(seed: u64, site: u8, step: u64) {
    let mixed = seed
        .wrapping_add(step)
        .wrapping_mul(6364136223846793005)
        .wrapping_add(u64::from(site))
        .wrapping_mul(1442695040888963407);
    for _ in 0..mixed >> 61 {
        thread::yield_now();
    }
}

impl Gate for Watch {
    fn at(&self, site: u8, instant: u32) {
        let own = self.seen(site);
        own.reached.store(u64::from(instant), Ordering::SeqCst);
    }

    fn before(&self, site: u8, step: u64) {
        let own = self.seen(site);
        own.came.fetch_add(1, Ordering::SeqCst);
        let mut keeps = true;
        match self.rule {
            Rule::Open => {}
            Rule::Meet => {
                let other = if site == 0 { &self.second } else { &self.first };
                keeps = own.reached.load(Ordering::SeqCst) == step / EACH && comes_to(other, step);
            }
            Rule::Hold if site == 0 && step == 2 => {
                keeps = comes_to(&self.second, 0);
                for _ in 0..MORE_LOOKS {
                    keeps &= self.second.came.load(Ordering::SeqCst) == 1;
                }
            }
            Rule::Hold => {}
            Rule::Scatter(seed) => scatter(seed, site, step),
        }
        if !keeps {
            self.failed.store(1, Ordering::SeqCst);
        }
    }
}
