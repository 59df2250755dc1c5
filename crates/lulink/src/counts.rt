//! What an end counts where it looks at the other end's word.

ghost use Rattle.std.specs.Prelude.{◌≡◌, ◌+◌, ◌<◌, ◌^◌};
ghost use Rattle.lulink.specs.Counts.{uncounted, counted, showed};

use crate::opening::LinkNo;

/// What an end says of its messages so far.
#[derive(Clone, Copy, Debug, Drop, PartialEq, Eq)]
pub struct Tally {
    /// How many it has passed: put, or taken.
    pub passed: u64,
    /// How many messages, of these and the next one, found the link full, or empty, at a try; each counts
    /// once.
    pub waited: u64,
    /// The greatest number of messages in the link that a look of a try showed.
    pub most: u64,
}

/// Which end of a link.
#[derive(Clone, Copy, Debug, Drop, PartialEq, Eq)]
pub enum End {
    Sender,
    Receiver,
}

/// What one end of one link says of its messages so far.
#[derive(Clone, Copy, Debug, Drop, PartialEq, Eq)]
pub struct EndTally {
    pub link: LinkNo,
    pub end: End,
    pub tally: Tally,
}

/// What an end counts at its looks.
#[derive(Clone, Copy, Drop)]
pub struct Counts {
    /// How many messages had to wait.
    pub(crate) waited: u64,
    /// The number behind that of the last message that had to wait, 0 before the first.
    pub(crate) marked: u64,
    /// The greatest number of messages in the link that a look showed.
    pub(crate) most: u64,
}

impl Counts {
    /// Nothing is counted.
    pub(crate) fn new() -> Counts
        ensures { result ≡ uncounted }
    {
        Counts {
            waited: 0,
            marked: 0,
            most: 0,
        }
    }

    /// A look showed so many messages in the link.
    pub(crate) fn show(&mut self, there: u64)
        ensures { self.new ≡ showed there self.old }
    {
        if there > self.most {
            self.most = there;
        }
    }

    /// The message of this number has to wait.
    pub(crate) fn wait(&mut self, number: u64)
        requires few { self.old.waited < 2 ^ 63 }
        requires low { number < 2 ^ 63 }
        ensures { self.new ≡ counted number self.old }
    {
        if self.marked != number + 1 {
            self.waited += 1;
            self.marked = number + 1;
        }
    }
}
