//! The warnings of a program: what isn't used in it, and divisions that are computed where they may not be
//! meant.
//!
//! - [`warnings`]: all warnings of a program, each once, in order of text.
//! - [`Warning`], [`WarningKind`]: a warning, as plain data.
//! - [`laws`]: worked programs.
//!
//! What a warning is stands in `specs/Warnings.antt`, what a division in a branch is in
//! `specs/Dividing.antt`, and worked programs in `specs/Vectors.antt`. Any program has its warnings, whether
//! it keeps the static rules or not.
#![tactic(auto)]

mod dividing;
pub mod laws;
mod mentions;
mod survey;
mod warning;

pub use survey::warnings;
pub use warning::{Warning, WarningKind};
