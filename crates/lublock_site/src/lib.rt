//! One site's part of a program, in blocks of instants.
//!
//! - [`RowCode`]: what is worked out of a site's part of a plan before there are inputs.
//! - [`RowStation`]: a site with its inputs and the ends of its links, which goes on by blocks.
//! - [`laws`]: a site's flows are a part of the program, and a link's messages are its flow's data.
//! - [`parts::is_part`]: a test of whether some flows are a part.
//! - `columns`, `sure`: the words of own flows, and which flows are sure.
//! - `sources`, `outlets`: from the ends of links into rows, and from rows to the ends of links.
#![tactic(auto)]

mod block;
mod close;
mod code;
mod code_links;
mod code_marks;
mod columns;
mod going;
pub mod laws;
mod outlets;
pub mod parts;
mod reported;
mod site;
mod sources;
mod start;
mod start_ends;
mod start_rows;
mod station;
mod steps;
mod sure;
mod turns;

pub use code::RowCode;
pub use station::RowStation;
