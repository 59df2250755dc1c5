//! The meaning of programs as they are written: streams for the variables' names, and equations between them;
//! and what the source of a run says of its links and its outputs.
//!
//! - `specs/Source.antt`: the synchronous solutions of a program, for the whole language.
//! - `specs/Instances.antt`: which node the instance at a path of calls is of, by the text alone.
//! - `specs/Agreement.antt`: when a flat program means what its source means.
//! - `specs/Vectors.antt`: worked programs and expressions.
//! - `specs/RunSources.antt`: a run's source, the list of a link and the statuses of an output in its words.
//! - `specs/RunReports.antt`: what a run reports, and when that is true of its source program.
//! - [`laws`]: those, that instances stand where the text has them, that a program has one meaning where it
//!   agrees with a flat program, and that the source of a run says the same as the flat program.
#![tactic(auto)]

pub mod laws;
