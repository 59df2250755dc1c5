//! Printing a program in its canonical form.
//!
//! [`print_program`] writes the text, which `specs/Canonical.antt` defines: parentheses exactly where they
//! are needed, one space between the parts, one line for each type, for each heading, for all locals and for
//! each equation. [`put_expr`] appends an expression alone.
//!
//! - [`laws`]: the text of a program that is spelled by a text is ASCII and is read as that program; each law
//!   is the contract of a function that does nothing.
//! - `levels`: how tightly an expression binds, and how its operators are spelled.
//! - `expr`: expressions.
//! - `program`: types, declarations, equations and nodes.
#![tactic(auto)]

mod expr;
pub mod laws;
mod levels;
mod program;

pub use expr::put_expr;
pub use lutree::Program;
pub use program::print_program;
