//! The two words of a ring, and how a call waits between two looks at one of them.

ghost use Rattle.std.specs.Prelude.{◌≡◌, ◌+◌, ◌%◌, ◌<◌, ◌^◌};
ghost use Rattle.lulink.specs.Words.{number, has_left};

use std::{hint, thread};

/// Which of the ring's words counts what was put.
pub(crate) const TAIL: usize = 0;

/// Which of the ring's words counts what was taken. The words between the two are unused: they keep the two
/// in different lines of memory, of 64 bytes or of 128.
pub(crate) const HEAD: usize = 16;

/// The bit by which a word says that its end has left.
pub(crate) const TOP: u64 = 1 << 63;

/// How often a call looks again before it lets other threads run.
const LOOKS: u32 = 6;

/// How long a call spins between two looks: so long that some messages pass meanwhile, which then cost one
/// look together.
const SPINS: u32 = 24;

/// Whether the end whose word this is has left.
pub(crate) fn says_gone(word: u64) -> bool
    ensures { result ≡ has_left word }
{
    word >= TOP
}

/// How many messages the end whose word this is has passed.
pub(crate) fn number_of(word: u64) -> u64
    ensures number { result ≡ number word }
    ensures below { result < 2 ^ 63 }
{
    if word < TOP { word } else { word - TOP }
}

/// The place of the slot after this one.
pub(crate) fn next_slot(slot: usize, room: usize) -> usize
    requires { slot < room }
    ensures { result ≡ (slot + 1) % room }
{
    let next = slot + 1;
    if next == room { 0 } else { next }
}

/// Spins at first, and then lets other threads run. The answer is for the next try.
pub(crate) fn pause(tries: u32) -> u32 {
    if tries < LOOKS {
        for _ in 0..SPINS {
            hint::spin_loop();
        }
        tries + 1
    } else {
        thread::yield_now();
        tries
    }
}
