//! What only code can show: tests alone. Whole commands over files are cases of `test_transcript`.
//!
//! Of plain data, graphs, stages alone, flat programs and the evaluator:
//!
//! - `lists`, `graph`: plain data, and graphs (`lubase`).
//! - `stages`: clocks and initialisation of texts that the stage before refuses, and of programs that no text
//!   has.
//! - `surveys`: all faults of the first stage that has any (`lustat`).
//! - `flats`: what a program that keeps all rules lends, and flat lists with their ranks and owners
//!   (`lustat`, `lucore`).
//! - `inside`: instances of called nodes (`luinside`).
//! - `faults`: where the first fault is, and which operator of the source that is (`luinside`).
//! - `operators`: operators at data of the wrong types and at nil (`lueval`).
//! - `streams`: tables that fit a program, its streams and outputs (`luflow`, `lueval`).
//! - `values`: lists of values (`luflow`).
//!
//! Of calls and placements:
//!
//! - `calls`: words that can't be read, errors that can't be written, and the lines of refused memory.
//! - `placements`, `long_placements`: what texts of placements are read as, and such of many entries.
//!
//! What is expected is worked out by hand, by the rules of the language, of the layout and of the texts.
#![tactic(auto)]

#[cfg(test)]
mod calls;
#[cfg(test)]
mod faults;
#[cfg(test)]
mod flats;
#[cfg(test)]
mod graph;
#[cfg(test)]
mod inside;
#[cfg(test)]
mod lists;
#[cfg(test)]
mod long_placements;
#[cfg(test)]
mod operators;
#[cfg(test)]
mod placements;
#[cfg(test)]
mod stages;
#[cfg(test)]
mod streams;
#[cfg(test)]
mod surveys;
#[cfg(test)]
mod values;
