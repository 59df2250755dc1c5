//! Which main variables are put out.

use luflow::{Flat, Role};
use std::alloc::{AllocError, Global};

/// The main variables whose statuses are put out: the outputs and the variables of their clocks, in order of
/// rank.
///
/// # Errors
///
/// Out of memory.
pub fn needed(alloc: Global, flat: &Flat) -> Result<Vec<usize>, AllocError> {
    let mut wanted = Vec::with_capacity(alloc, flat.variables().len())?;
    for variable in flat.variables() {
        wanted.push(variable.role == Role::Output)?;
    }
    needed_of(alloc, flat, wanted.as_slice())
}

/// The main variables that are marked and the variables of their clocks, in order of rank. A variable without
/// a mark isn't marked.
///
/// # Errors
///
/// Out of memory.
pub fn needed_of(alloc: Global, flat: &Flat, marks: &[bool]) -> Result<Vec<usize>, AllocError> {
    let mut wanted = vec![in alloc; false; flat.flows().len()]?;
    for v in 0..flat.variables().len() {
        if is_marked(marks, v) {
            mark(&mut wanted, v);
        }
    }
    for i in flat.rank().iter().rev() {
        if is_marked(wanted.as_slice(), *i) {
            if let Some(c) = clock_variable(flat, *i) {
                mark(&mut wanted, c);
            }
        }
    }
    let mut needs = Vec::new(alloc);
    for i in flat.rank() {
        if is_marked(wanted.as_slice(), *i) {
            needs.push(*i)?;
        }
    }
    Ok(needs)
}

/// The variable of a flow's clock.
fn clock_variable(flat: &Flat, i: usize) -> Option<usize> {
    match flat.flows().get(i) {
        Some(flow) => flow.clock.variable(),
        None => None,
    }
}

/// Whether a flow is marked.
pub(crate) fn is_marked(marks: &[bool], i: usize) -> bool {
    match marks.get(i) {
        Some(mark) => *mark,
        None => false,
    }
}

/// Marks a flow.
fn mark(marks: &mut Vec<bool>, i: usize) {
    if i < marks.len() {
        marks[i] = true;
    }
}
