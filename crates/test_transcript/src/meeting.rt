//! Progress of which two sites tell at once.

use lusdist_shell::Progress;
use std::sync::atomic::{AtomicU64, Ordering};
use std::{io, thread};

/// How often a site that tells first looks for the other one.
const LOOKS: u64 = 10_000_000;

/// Holds the first report of each of two sites until the other site's thread brings its own too. Where one
/// thread serves both, that never comes.
#[derive(Drop)]
pub struct Meeting {
    first: AtomicU64,
    second: AtomicU64,
    missed: AtomicU64,
}

impl Meeting {
    pub fn new() -> Meeting {
        Meeting {
            first: AtomicU64::new(0),
            second: AtomicU64::new(0),
            missed: AtomicU64::new(0),
        }
    }

    /// Whether both sites came, and neither looked for the other in vain.
    pub fn was_held(&self) -> bool {
        self.first.load(Ordering::SeqCst) > 0
            && self.second.load(Ordering::SeqCst) > 0
            && self.missed.load(Ordering::SeqCst) == 0
    }
}

/// Looks for a report. False where none comes.
fn comes(other: &AtomicU64) -> bool {
    for _ in 0..LOOKS {
        if other.load(Ordering::SeqCst) > 0 {
            return true;
        }
        thread::yield_now();
    }
    false
}

impl Progress for Meeting {
    fn begin(&self, _sites: usize, _instants: u32) {}

    fn reach(&self, site: u8, _instant: u32) {
        let (own, other) = if site == 0 {
            (&self.first, &self.second)
        } else {
            (&self.second, &self.first)
        };
        if own.fetch_add(1, Ordering::SeqCst) == 0 && !comes(other) {
            self.missed.store(1, Ordering::SeqCst);
        }
    }
}

/// Writes whether two threads met.
pub fn put_meeting(rt: &HostRuntime, meeting: &Meeting) -> io::Result<()> {
    println!(rt;
        "{}",
        if meeting.was_held() {
            "= two threads"
        } else {
            "! no second thread"
        }
    )
}
