//! The placement file: which sites there are, how much each link between them holds, and at which sites the
//! variables of the main node stand.
//!
//! - [`read_place`] reads the text of such a file, of version 1 or 2, into a [`Place`], or refuses it by the
//!   first rule that it breaks.
//! - [`PlaceError`] has every refusal of a placement. Those that need the program too, as an unknown
//!   variable, come from the plan.
//! - [`laws`]: worked files.
#![tactic(auto)]

mod choice;
mod draft;
mod error;
pub mod laws;
mod names;
mod place;
mod read;
mod rules;
mod spelling;

pub use error::PlaceError;
pub use place::{Place, Placed};
pub use read::read_place;
