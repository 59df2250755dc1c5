//! The words of one flow in a block of instants, from the rows of the flows that it reads.
//!
//! # Rows and loops
//!
//! Rows of words of 64 bits, one word for each tick of a flow in a block: what each form of a flow writes
//! into such a row, as one loop.
//!
//! - [`rows`]: a row that is filled by a closure, tick by tick.
//! - [`word`]: the operators at single words; [`doubles`]: those with two operands as loops.
//! - [`singles`]: the loops of the other forms that look at no clock; [`clocks`]: those of the forms that do.
//!
//! # Forms and blocks
//!
//! - [`span::Span`]: how far a flow has come in a block.
//! - [`solve::solve_form`]: the words that a form asks for, of the ticks that what it reads reaches.
//! - [`forms`], [`clocked`]: a loop for each form; [`clocked::ticks_at`], how many ticks a clock has, counted
//!   in its variable's row.
//! - [`laws`]: a block that solves each flow by itself has the program's solution.
//!
//! `specs/Blocks.antt` says what a block is and what each form asks of a word, `specs/Machine.antt` where its
//! rows stand.
#![tactic(auto)]

pub mod clocked;
pub mod clocks;
pub mod doubles;
pub mod forms;
pub mod laws;
mod parts;
pub mod rows;
pub mod singles;
pub mod solve;
pub mod span;
pub mod word;
