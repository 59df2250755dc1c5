//! What the program needs around the language: its command line, its files, its schedule, its two streams,
//! and the manual of refusals and faults.
//!
//! - [`parse`] reads the command line, [`request_in`] says what it asks for, a [`Request`], and
//!   [`put_mistake`] shows what the parser says instead.
//! - [`Files`] is where texts come from: [`RealFiles`], or files in memory. [`Dumps`] is where a dump goes.
//! - [`text_of`] sees bytes as text, where they are text.
//! - [`read_schedule`] reads whose turn it is, turn by turn; [`random_turns`] makes random turns.
//! - [`Progress`] is handed how far a run has come: [`Meter`] reports it to a person, [`Silent`] to nobody.
//! - A [`Sink`] is a stream that remembers whether a write has failed; [`put_out`] writes to the output, and
//!   [`put_unread`] reports why there are no words.
//!
//! # The manual
//!
//! A page for each code of a refusal or a fault, with the rule in words, a text that breaks it, and the same
//! mended.
//!
//! - [`page_of`]: the page of a code, whose letter may be small.
//! - [`all_codes`]: all codes with their names.
//! - [`laws`]: each page begins with its own code and name.
//!
//! The texts are those of docs/FAULTS.md: `tools/faults` makes `page`, `listing` and the modules that have
//! the pages, and `specs/Pages.antt`, from it.
#![tactic(auto)]

mod argument;
mod asked;
mod clocks;
mod command;
mod dumps;
mod files;
pub mod laws;
mod listing;
mod names;
mod page;
mod placements;
mod progress;
mod put;
mod random;
mod request;
mod runs;
mod schedule;
mod schedules;
mod sink;
mod starts;
mod tables;
mod targets;
mod text;
mod texts;
mod words;

pub use asked::{all_codes, page_of};
pub use dumps::{Dump, Dumps, RealDumps, WriteError};
pub use files::{Files, ReadError, ReadFault, RealFiles};
pub use progress::{Meter, Progress, Silent};
pub use put::{put_mistake, put_notes, put_out, put_unread};
pub use random::random_turns;
pub use request::{
    CheckRequest, EvalRequest, ExplainRequest, NewRequest, PlanForm, PlanRequest, ReplayRequest,
    Request, RunRequest, TurnsForm, TurnsSource, parse, request_in,
};
pub use schedule::{ScheduleError, read_schedule};
pub use sink::Sink;
pub use text::text_of;
