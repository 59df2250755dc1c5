//! What is reported of a world as a text.
//!
//! - [`text_of_world`]: its links, sites and outputs as they stand.
//! - [`trace`]: the world after turns, and what each of them did, line by line or as a chart ([`Tracing`]).
//! - [`text_of_stands`]: why the sites stand still that are open, or what they can do.
//! - [`text_of_stray`]: a warning of a turn that is of no site.
//! - [`dump_by_site`]: outputs over time, as a value change dump in which the sites are scopes;
//!   [`output_signals`] are those of a world.
#![tactic(auto)]

mod charting;
mod counts;
mod form;
mod stray;
mod text;
mod tracing;
mod waits;
mod waves;

pub use form::{TraceForm, Tracing};
pub use stray::text_of_stray;
pub use text::text_of_world;
pub use tracing::trace;
pub use waits::text_of_stands;
pub use waves::{dump_by_site, output_signals};
