//! What a user reads about a refusal: where it stands, what is wrong, and how to mend it.
//!
//! - [`where_in`]: a place of a text: `PATH:LINE:COLUMN`, the line, and a caret under the place.
//! - [`of_syntax`]: what is reported of a text that is no program; [`of_rule`]: of a broken rule;
//!   [`of_cycle`], [`of_size`]: of a program without a flat program; [`of_place`], [`of_table`],
//!   [`of_schedule`]: of the other texts; [`of_fault`]: of an operator without a value.
//! - [`of_unread`]: of a file that can't be read.
//! - [`all_refusals`]: of a text that is no program, each place where it is refused, read on behind the ones
//!   before.
//! - [`of_warnings`]: what is told of warnings, a line each.
//! - [`Explanation`]: what these answer: the place, a sentence on what is wrong, and one on how to mend it.
//! - [`laws`]: worked places, and worked names.
//!
//! The parts: `sentences` and, of tables, `table_sentences` (what is said of each refusal, by its code),
//! `habits` (what is said of words and signs of other dialects), `expected` (what could stand where a text is
//! refused), `place` (places), `said` (what is reported, in lines), `words` and `spelling` (the parts of a
//! sentence: names, expressions, types, clocks), `hold` (how a variable on a clock is held), `find` (what
//! stands at a byte, and the parts of an expression), `tokens` (where these parts stand), `near` (names that
//! are one letter or two apart), `bytes` (parts of a text), `circle` (the way from a vertex back to itself);
//! `naming`, `typing`, `arity`, `clocks`, `classes` (broken rules, which `rule` chooses among), `syntax` and
//! what stands `around` a refused token, `refused` (a text that is read on) and `recovery` (what is
//! overwritten there), `flat`, `table` with its `header`, a `field`, and `stray` bytes, `schedule`,
//! `placement` (what of one is refused, `blame`, and where it stands in the text, `sought`), `unread` (files
//! that can't be read, or are others).
#![tactic(auto)]

mod arity;
mod around;
mod blame;
mod bytes;
mod circle;
mod classes;
mod clocks;
mod expected;
mod field;
mod find;
mod flat;
mod habits;
mod header;
mod hold;
pub mod laws;
mod naming;
mod near;
mod place;
mod placement;
mod recovery;
mod refused;
mod rule;
mod said;
mod schedule;
mod sentences;
mod sought;
mod spelling;
mod stray;
mod syntax;
mod table;
mod table_sentences;
mod tokens;
mod typing;
mod unread;
mod warned;
mod words;

pub use flat::{of_cycle, of_fault, of_size};
pub use place::where_in;
pub use placement::of_place;
pub use refused::{SyntaxRefusal, all_refusals};
pub use rule::of_rule;
pub use said::Explanation;
pub use schedule::of_schedule;
pub use syntax::of_syntax;
pub use table::of_table;
pub use unread::of_unread;
pub use warned::of_warnings;
