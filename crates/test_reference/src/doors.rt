//! Which ends of a link have left.

use std::sync::atomic::{AtomicBool, Ordering};

/// Each end marks its own door as it leaves, and looks at the other's.
#[derive(Drop)]
pub struct Doors {
    pub(crate) sender: AtomicBool,
    pub(crate) receiver: AtomicBool,
}

impl Doors {
    /// No end has left.
    pub(crate) fn new() -> Doors {
        Doors {
            sender: AtomicBool::new(false),
            receiver: AtomicBool::new(false),
        }
    }

    pub(crate) fn sender_leaves(&self) {
        self.sender.store(true, Ordering::SeqCst);
    }

    pub(crate) fn receiver_leaves(&self) {
        self.receiver.store(true, Ordering::SeqCst);
    }

    pub(crate) fn sender_left(&self) -> bool {
        self.sender.load(Ordering::SeqCst)
    }

    pub(crate) fn receiver_left(&self) -> bool {
        self.receiver.load(Ordering::SeqCst)
    }
}
