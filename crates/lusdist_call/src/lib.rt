//! What a call of the program means: what each command answers by what its files say, why it stops, and how
//! it ends. The commands themselves stand in `lusdist_answers`.
//!
//! # What a call means
//!
//! What each command answers, by what the files that it names say, and why it stops.
//!
//! - `specs/Asked.antt`: what the texts of a plan, of a replay and of a run say, and what their files gave.
//! - `specs/Answers.antt`: what each command answers.
//! - `specs/Shown.antt`: which variables an evaluation shows.
//! - `specs/Evaluated.antt`: what an evaluation prints and dumps, and what it says of a fault.
//! - `specs/Exact.antt`: that an answer and a refusal exclude each other, and that there is one refusal.
//! - `specs/Explained.antt`: what is printed of a code, and of which code nothing is.
//! - `specs/Ran.antt`: what a run of a job on threads gives.
//! - `specs/Refused.antt`: what a call that stops says of the program. `specs/Stopped.antt`: why a call stops
//!   before it prints anything.
//! - `specs/RunReportTexts.antt`: what a world reports, and the text of it.
//! - `specs/Waved.antt`: the dumps of runs and replays.
//! - `specs/Violations.antt`: which outputs are observed, and what is told of them.
//! - `specs/Counted.antt`: what is told of what a run counted.
//! - `specs/Targets.antt`: where the dump of a call may go.
//! - `specs/Reasons.antt`: what goes behind the line of a refusal. `specs/Left.antt`: how a call ends, and
//!   what it leaves.
//!
//! # How a call ends, and its files
//!
//! - [`CallError`]: why a call stops, and with which status; [`Mistake`]: what is wrong with words that the
//!   command line takes. [`Role`]: what a file is to a call.
//! - [`Reply`]: what a call answers, and [`put_reply`], which writes it; [`Refusal`]: why it stops, and the
//!   dump that it leaves.
//! - [`observe`], [`column_violations`] and [`world_violations`]: outputs that are observed, and what is told
//!   of them.
//! - [`read`] and [`file_dump`]: a file that is read, and one into which a dump is written.
#![tactic(auto)]

mod call_error;
mod files;
mod mistake;
mod refusal;
mod reply;
mod role;
mod violations;
mod workers;

pub use call_error::CallError;
pub use files::{file_dump, read};
pub use mistake::{Mistake, mistake_in, replay_mistake, run_mistake};
pub use refusal::Refusal;
pub use reply::{Reply, put_reply, status_beside};
pub use role::Role;
pub use violations::{column_violations, observe, world_violations};
pub use workers::workers_in;
