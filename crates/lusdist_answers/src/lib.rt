//! The distributor: a call of the program by the files that its words name, and what each command answers
//! from them: what is printed and dumped, or why it stops.
//!
//! - [`serve`]: a call, from its words to its exit status. What that means stands in `lusdist_call`.
//! - [`answering`]: what a check, an evaluation, the beginning of a design, a plan and a run print;
//!   [`replaying`]: what a replay prints.
//! - [`sources`]: from the texts of the files to a program, its flat program, a plan, a job, its turns, a
//!   table.
//! - [`jobs`]: the job of a program, a placement and a table.
//! - [`planning`]: the plan of a program at a placement, and its texts. [`starting`]: a placement and a table
//!   to begin with.
//! - [`evaluating`]: the variables of a program at a table, as a table or as a chart (`shown`: which ones);
//!   [`running`]: the table of its outputs, made by its sites on threads.
//! - `counting`: what a run counts. `filing`: the dumps of a run and of a replay. `targets`: where a dump
//!   goes, before a file is read.
//! - [`explaining`]: a page of the manual. `reasons`: why a text is refused; `refusals`: what is printed of
//!   that.
//! - [`CallError`], [`Mistake`] of `lusdist_call`: why a call stops.
//! - [`laws`]: a call has one outcome, one refusal and one status; the table that a design begins with is one
//!   of the program's inputs.
#![tactic(auto)]

pub mod answering;
mod call;
mod counting;
pub mod evaluating;
pub mod explaining;
mod filing;
pub mod jobs;
pub mod laws;
pub mod planning;
mod reasons;
mod refusals;
pub mod replaying;
pub mod running;
mod shown;
pub mod sources;
pub mod starting;
mod targets;

pub use call::serve;
pub use lusdist_call::{CallError, Mistake};
pub use replaying::replayed;
