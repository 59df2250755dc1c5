//! The links of a run: numbered messages go from one site to another over a ring without a lock, which has
//! one producer and one consumer.
//!
//! - [`Msg`], [`Body`], [`LinkNo`]: what crosses, and over which link.
//! - [`open_link`], [`LinkError`]: both ends of a link.
//! - [`Tx`], [`Offer`], [`PutError`]: the sender's end.
//! - [`Rx`], [`TakeError`]: the receiver's end.
//! - [`Tally`], [`EndTally`], [`End`]: what an end says of its messages so far.
//! - [`laws`]: what the rule of a link's ring says.
#![tactic(auto)]

mod counts;
pub mod laws;
mod opening;
mod put_side;
mod receiver;
mod rule;
mod sender;
mod take_side;
mod word;

pub use counts::{End, EndTally, Tally};
pub use luflow::{Body, Datum, Msg};
pub use opening::{LinkError, LinkNo, open_link};
pub use receiver::{Rx, TakeError};
pub use sender::{Offer, PutError, Tx};
