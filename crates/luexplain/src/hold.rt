//! How a variable on a clock is held with a value to start with, in place of a `current`.

use crate::find::type_at_place;
use crate::spelling::{put_on, put_sign};
use crate::words::{put_cut, put_start};
use lustat_rules::PatternRef;
use lutree::{DeclaredName, Kind, Program};
use std::alloc::AllocError;

/// How many branches of a merge are reported.
const LISTED: usize = 8;

/// A variable on a clock, and the one that holds its value in between.
#[derive(Clone, Copy)]
pub(crate) struct Hold<'a> {
    pub(crate) program: &'a Program,
    /// The variable, and its type.
    pub(crate) variable: &'a str,
    pub(crate) kind: Kind,
    /// The variable of its clock, its type, and its pattern.
    pub(crate) clock: &'a str,
    pub(crate) clock_kind: Kind,
    pub(crate) pattern: PatternRef<'a>,
    /// What holds its value.
    pub(crate) target: &'a str,
}

/// `(0 fby y) when not c`: what is held, on a clock on which the variable is absent.
fn put_before(text: &mut String, hold: &Hold, sign: PatternRef) -> Result<(), AllocError> {
    text.push('(')?;
    put_start(text, hold.program, hold.kind)?;
    text.push_str(" fby ")?;
    put_cut(text, hold.target)?;
    text.push_str(") when ")?;
    put_on(text, hold.clock, sign)
}

/// ` (true -> s)` or ` (false -> (0 fby y) when not c)`: a branch of a merge on a truth.
fn put_branch_of_truth(text: &mut String, hold: &Hold, truth: bool) -> Result<(), AllocError> {
    let sign = PatternRef::Truth(truth);
    text.push_str(" (")?;
    put_sign(text, sign)?;
    text.push_str(" -> ")?;
    if hold.pattern.is(&sign) {
        put_cut(text, hold.variable)?;
    } else {
        put_before(text, hold, sign)?;
    }
    text.push(')')
}

/// `(0 fby y) when A(m)`: what is held, on the clock of a name of an enumeration.
fn put_before_name(text: &mut String, hold: &Hold, name: &str) -> Result<(), AllocError> {
    text.push('(')?;
    put_start(text, hold.program, hold.kind)?;
    text.push_str(" fby ")?;
    put_cut(text, hold.target)?;
    text.push_str(") when ")?;
    put_cut(text, name)?;
    text.push('(')?;
    put_cut(text, hold.clock)?;
    text.push(')')
}

/// Whether a pattern is this name of an enumeration.
fn is_label(pattern: PatternRef, name: &str) -> bool {
    match pattern {
        PatternRef::Label(label) => label.name.as_str() == name,
        PatternRef::Truth(_) => false,
    }
}

/// ` (A -> s)` or ` (B -> (0 fby y) when B(m))`: a branch of a merge on a variable of an enumeration.
fn put_branch_of_name(text: &mut String, hold: &Hold, name: &str) -> Result<(), AllocError> {
    text.push_str(" (")?;
    put_cut(text, name)?;
    text.push_str(" -> ")?;
    if is_label(hold.pattern, name) {
        put_cut(text, hold.variable)?;
    } else {
        put_before_name(text, hold, name)?;
    }
    text.push(')')
}

/// The branches of a merge on a variable of an enumeration; of many the first alone.
fn put_branches(text: &mut String, hold: &Hold, names: &[DeclaredName]) -> Result<(), AllocError> {
    for (place, declared) in names.iter().enumerate() {
        if place == LISTED {
            return text.push_str(" ..");
        }
        put_branch_of_name(text, hold, declared.name.as_str())?;
    }
    Ok(())
}

/// `y = merge c (true -> s) (false -> (0 fby y) when not c)`, with the program's own names.
pub(crate) fn put_hold(text: &mut String, hold: &Hold) -> Result<(), AllocError> {
    put_cut(text, hold.target)?;
    text.push_str(" = merge ")?;
    put_cut(text, hold.clock)?;
    match hold.clock_kind {
        Kind::Enum(place, count) => match type_at_place(hold.program, place, count) {
            Some(declared) => put_branches(text, hold, declared.names.as_slice()),
            None => Ok(()),
        },
        _ => {
            put_branch_of_truth(text, hold, true)?;
            put_branch_of_truth(text, hold, false)
        }
    }
}
