//! What a flow reads, at its own instant or before, one after another.

use luflow::{Flat, Form};

/// The variable of the clock that a `current` fills up.
fn filled_of(flat: &Flat, form: &Form) -> Option<usize> {
    match form {
        Form::Current(a) => match flat.flows().get(*a) {
            Some(flow) => flow.clock.variable(),
            None => None,
        },
        _ => None,
    }
}

/// Number k of what flow i reads: the variable of its clock, that of the clock that a `current` fills up, and
/// its operands.
pub fn read_of(flat: &Flat, i: usize, k: usize) -> Option<usize> {
    let Some(flow) = flat.flows().get(i) else {
        return None;
    };
    let clock = flow.clock.variable();
    let filled = filled_of(flat, &flow.form);
    if k == 0 && clock.is_some() {
        return clock;
    }
    let k = if clock.is_some() { k - 1 } else { k };
    if k == 0 && filled.is_some() {
        return filled;
    }
    let k = if filled.is_some() { k - 1 } else { k };
    flow.form.operand(k)
}

/// Whether a flow reads itself, before.
pub fn reads_itself(flat: &Flat, i: usize) -> bool {
    match flat.flows().get(i) {
        Some(flow) => match flow.form {
            Form::Pre(a) => a == i,
            _ => false,
        },
        None => false,
    }
}

/// Whether a flow is a `pre`.
pub fn is_pre(flat: &Flat, i: usize) -> bool {
    match flat.flows().get(i) {
        Some(flow) => match flow.form {
            Form::Pre(_) => true,
            _ => false,
        },
        None => false,
    }
}
