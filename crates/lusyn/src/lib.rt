//! The reader: from a text to the syntax tree that it spells, and back.
//!
//! [`read_program`] reads a text of the whole language, or reports by a [`SynError`] why it spells no
//! program. [`print_program`] gives the canonical text of a program, which is read back as the same program.
//!
//! Crate `lusyn_grammar` cuts the text into tokens and defines the grammar. Crate `lusyn_parser` reads the
//! tokens by it, and finds what names of enumerations stand for. Crate `lusyn_printer` prints.
//!
//! - `text`: from a text to the tree.
//! - `print`: from a tree to its canonical text.
//! - `error`: why a text is refused.
//! - [`laws`]: a text spells one program at most, isn't refused where it spells one, nor in two ways, and has
//!   one list of places.
//!
//! What a text has to be is said in `specs/`: `Texts.antt` which program a text spells, `Places.antt` where
//! its parts stand, and `Refusals.antt` which refusal is true of a text that spells none.
#![tactic(auto)]

mod error;
pub mod laws;
mod print;
mod text;

pub use error::SynError;
pub use lutree::Program;
pub use print::print_program;
pub use text::read_program;
