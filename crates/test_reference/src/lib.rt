//! The reference for sites and links: plain programs, slow, with all marks in memory, and each with a
//! definition as its contract. Tests compare the machines with them. Their own tests are cases of
//! `test_transcript`.
//!
//! - [`marks_of`]: what each flow has at the first instants; [`Mark`], [`Marks`].
//! - [`list_of_link`]: all that a link carries.
//! - [`script_of`]: all that a site does, in order; [`Item`].
//! - [`world_after`]: how far each site is after a schedule; [`scripts_of`] and [`world_by`] for many
//!   schedules of one job.
//!
//! # Links
//!
//! The links of a run over a channel under a rule: the reference for `lulink`, under the same names and the
//! same definitions. What a link does is the same, call by call. What differs: a try may wait (it takes a
//! handle), and no contract speaks of words, since a channel has none.
//!
//! - [`open_link`]: both ends of a link; [`Tx`]: the sender's end; [`Rx`]: the receiver's end.
#![tactic(auto)]

mod cells;
mod doors;
mod filling;
mod grid;
mod item;
mod lists;
mod looking;
mod mark;
mod opening;
mod plans;
mod receiver;
mod rule;
mod scripts;
mod sender;
mod streams;
mod worlds;

pub use item::Item;
pub use lists::list_of_link;
pub use lulink::{Body, Datum, LinkError, LinkNo, Msg, Offer, PutError, TakeError};
pub use mark::{Mark, Marks};
pub use opening::open_link;
pub use receiver::Rx;
pub use scripts::script_of;
pub use sender::Tx;
pub use streams::marks_of;
pub use worlds::{scripts_of, world_after, world_by};
