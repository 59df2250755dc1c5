//! The syntax tree of programs, shared by all crates that read, check or lay out a program.
//!
//! - [`Program`], [`TypeDeclaration`], [`Node`], [`Declaration`], [`Equation`]: what a text declares, with
//!   places in the text.
//! - [`Expr`] and its operators: the right sides.
//! - [`Kind`], [`Condition`]: the type and the clock of a variable; [`Pattern`]: the value of its variable
//!   that a clock asks for; [`Label`]: a name of an enumeration.
//!
//! Contracts see a tree without where it lies in memory and without places, as `Tree.antt` of `specs/` says,
//! and its places by themselves, as `Places.antt` says.
#![tactic(auto)]

mod expr;
mod program;

pub use expr::{BinaryOperator, Condition, Expr, Infix, Label, Pattern, Prefix, UnaryOperator};
pub use program::{Declaration, DeclaredName, Equation, Kind, Node, Program, TypeDeclaration};
