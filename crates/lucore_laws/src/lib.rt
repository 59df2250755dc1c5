//! The flat list of a program as a definition, and what holds of it; and the order of ranks, which is found
//! here too.
//!
//! # The list
//!
//! Which flows stand at which places when all calls of a program are inlined, and that these flows mean what
//! the source means.
//!
//! - `specs/Layout.antt`: the walk of an expression, the list of a node, the flat list of a program.
//! - `specs/ListLaws.antt`: the flat list means what the source means, also for all instances of calls, there
//!   is one and no other, and it is closed.
//! - `specs/Open.antt`: the list of one node means what the node means, wherever it is called.
//! - `specs/FaultLaws.antt`: the faults of the list. `specs/Sizes.antt`: how many flows the list has.
//! - `specs/ListVectors.antt`: worked programs.
//! - `specs/Loop.antt`: why the agreement asks for an order of rank.
//! - [`list_laws`]: those.
//!
//! # What it keeps
//!
//! The flows of an accepted program's list fit each other, and an equation's flows stay inside it.
//!
//! - `specs/SoundLaws.antt`: these laws.
//! - [`sound_laws`]: the same as contracts.
//!
//! # Causality, checked on the source
//!
//! Which occurrences of a program read each other at the same instant, and that the flat list has a cycle of
//! reads exactly where the source has one.
//!
//! - `specs/Reads.antt`: occurrences, instances, what an occurrence reads, chains of reads.
//! - `specs/CausalityLaws.antt`: cycles of the source are those of the flat list.
//! - `specs/Owners.antt`: the main variable in whose equation a cycle stands.
//! - `specs/CausalityVectors.antt`: worked programs.
//! - [`causality_laws`]: those.
//!
//! # Ranks: the order of places that read each other
//!
//! The places are those of a list, from 0, and each has a row of the places that it reads, in any order and
//! any number of times. The next rank goes to the least place among those without a rank whose reads all have
//! one.
//!
//! - [`rank`], [`Ranking`]: the order of ranks, or the least place that reads itself through a chain of
//!   reads.
//! - [`rank_laws`]: there is one order at most, there is one exactly where no place reads itself through a
//!   chain, and in it each place stands once, after all that it reads.
//!
//! Each place has a count of its reads without a rank, and a list of its readers. A place is put into a heap
//! when its count comes to 0. The least one of the heap gets the next rank, and then each of its readers has
//! one open read less. So the time grows with the number of places and reads, and by a logarithm for the
//! heap. What is on a cycle is looked for only where no place is ready.
#![tactic(auto)]

pub mod causality_laws;
mod cycle;
pub mod list_laws;
pub mod rank_laws;
mod ranking;
mod readers;
mod ready;
mod release;
pub mod sound_laws;

pub use ranking::{Ranking, rank};
