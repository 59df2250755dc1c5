//! Tables of a program's inputs and outputs, as texts.
//!
//! A text has a line of the names, the header, and then a line for each instant. Values and names are joined
//! by commas, and each line ends by a line feed. How values, rows and headers are spelled stands in
//! `specs/Text.antt`.
//!
//! # Inputs
//!
//! - [`read_inputs`] reads the text of a table of inputs into `Inputs`, or refuses it by a [`TabError`].
//! - `field`: one value in a text.
//! - `row`: one line, read into columns.
//! - `rows`: all lines behind the header.
//! - `reading`: the whole text of inputs.
//! - `error`: why a text is refused.
//!
//! What is reported of a text that is no table stands in `specs/Table.antt`.
//!
//! # Outputs
//!
//! - [`write_outputs`] writes the text of a table of outputs, and [`write_columns`] that of any main
//!   variables' columns, by the types that [`shown_kinds`] gives; [`put_datum`] writes one value, and
//!   [`put_comma`] what stands before a field.
//! - [`write_aligned`] writes the text of such columns with their fields at the right of their columns.
//!
//! # What a user begins with
//!
//! A placement and a table of a program's inputs, as texts that are stated functions of the flat program.
//!
//! - [`write_placement`]: a placement in TOML, of all main variables at one site, a line each, to be edited.
//! - [`write_table`]: a table of inputs, in which each input is 0, `false`, or the first name of its
//!   enumeration.
//! - [`laws`]: it is a table of the program's inputs.
#![tactic(auto)]

mod aligned;
mod error;
mod field;
mod first_placement;
mod first_table;
pub mod laws;
mod reading;
mod row;
mod rows;
mod writing;

pub use aligned::write_aligned;
pub use error::TabError;
pub use first_placement::write_placement;
pub use first_table::write_table;
pub use reading::read_inputs;
pub use writing::{put_comma, put_datum, shown_kinds, write_columns, write_outputs};
