//! The parser of the whole language: from tokens to the syntax tree that they spell, and what the names of
//! enumerations in it stand for.
//!
//! # From tokens to a tree
//!
//! [`parse_tokens`] reads tokens from left to right, by the levels of the operators, as crate `lusyn_grammar`
//! defines it, or reports by a [`ParseError`] the first token with which no program goes on.
//!
//! - `pieces`: what is handed on while tokens are read.
//! - `reader`: from tokens to expressions.
//! - `equations`: from tokens to equations.
//! - `declarations`: from tokens to types and declarations.
//! - `nodes`: from tokens to nodes and programs.
//! - `error`: why tokens are refused.
//!
//! `specs/Gives.antt` says what a reading function of the code answers, against the reading of
//! `lusyn_grammar`, `specs/Places.antt` which places it answers, against those that the tokens give, and
//! `specs/Refused.antt` what a refusal reports.
//!
//! # What names stand for
//!
//! - [`resolve`]: the program with its names resolved by its types; one without types is handed back as it
//!   is.
//! - [`laws`]: resolving changes nothing but what names stand for, changes nothing the second time, and
//!   nothing where there are no types; each law is the contract of a function that does nothing.
//! - `program`: the whole program; `trees`: expressions, declarations and equations, changed where they lie.
//! - `labels`: the names of a program's types, looked up by a table.
//!
//! What a name stands for is said by `specs/Resolved.antt`, as a function of trees.
#![tactic(auto)]

mod declarations;
mod equations;
mod error;
mod labels;
pub mod laws;
mod nodes;
mod pieces;
mod program;
mod reader;
mod trees;

pub use error::ParseError;
pub use lutree::Program;
pub use nodes::parse_tokens;
pub use program::resolve;
