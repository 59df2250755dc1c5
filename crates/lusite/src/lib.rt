//! The machine of one site: it offers exactly the next item of the site's script, and takes what it is given.
//!
//! - [`project`], [`SiteProgram`]: what of a plan a site runs.
//! - [`Site`], [`Next`], [`Fault`]: the machine, what it does next, and how it fails.
//! - [`SiteReport`], [`Standing`]: what a site leaves.
#![tactic(auto)]

mod kept;
mod left;
mod next;
mod report;
mod site;
mod state;
mod whole;

pub use luflow::{Body, Datum, Msg, Status};
pub use lusite_program::{LinkNo, SiteProgram, project};
pub use next::{Fault, Next};
pub use report::{SiteReport, Standing};
pub use site::Site;
