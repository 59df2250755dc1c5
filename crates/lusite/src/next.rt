//! What a site does next, and how it fails.

use luflow::{FaultKind, Msg};
use lusite_program::LinkNo;

/// What a site does next.
#[derive(Clone, Copy, Debug, Drop, PartialEq, Eq)]
pub enum Next {
    /// A computation of its own.
    Local,
    /// It takes the next message of this link.
    Take(LinkNo),
    /// It puts this message, the next of this link.
    Put(LinkNo, Msg),
    /// Nothing more: its script is done.
    Ended,
    /// Nothing more: its last computation was a fault.
    Faulted,
}

/// An operator that has no value: the main variable in whose equation it stands, the instant, and how it
/// fails.
#[derive(Clone, Copy, Debug, Drop, PartialEq, Eq)]
pub struct Fault {
    /// The number of the main variable; of a tuple's equation the first.
    pub variable: usize,
    /// The instant, from 0.
    pub instant: u32,
    pub kind: FaultKind,
}
