//! Whether some flows are a part of a program: a test that is made once, for each part of a plan.

ghost use Rattle.std.specs.Prelude.{◌≡◌, ℕ, true, Some, slice_get};
ghost use Rattle.luflow.specs.Program.{flow_at};
ghost use Rattle.luflow.specs.declared.form.Flow.{Flow};
ghost use Rattle.lublock_kernels.specs.Parts.{IsPart, knows};
ghost use Rattle.lublock_site.specs.Marks.{ClockKnown, PlacesKnown, marked, marked_part};

use luflow::{Clock, Flat, Form};

/// Whether a place is marked.
pub(crate) fn is_marked(marks: &[bool], r: usize) -> bool
    ensures { result ≡ marked marks.now r }
{
    match marks.get(r) {
        Some(mark) => *mark,
        None => false,
    }
}

/// Whether a flow is computed or taken here.
fn is_known(own: &[bool], taken: &[bool], r: usize) -> bool
    ensures { result ≡ knows (marked_part own.now taken.now) r }
{
    is_marked(own, r) || is_marked(taken, r)
}

/// Whether all these are known.
fn are_known(own: &[bool], taken: &[bool], branches: &[usize]) -> bool
    ensures { result ≡ true → (k x : ℕ) → slice_get branches.now k ≡ Some x
        → knows (marked_part own.now taken.now) x ≡ true }
{
    for k in 0..branches.len() {
        if !is_known(own, taken, branches[k]) {
            return false;
        }
    }
    true
}

/// Whether all operands of a form are known.
pub(crate) fn form_known(own: &[bool], taken: &[bool], form: &Form) -> bool
    ensures { result ≡ true → PlacesKnown (knows (marked_part own.now taken.now)) form.now }
{
    match form {
        Form::Input(_) => true,
        Form::Constant(_) => true,
        Form::Copied(a) => is_known(own, taken, *a),
        Form::Unary(_, a) => is_known(own, taken, *a),
        Form::Binary(_, a, b) => is_known(own, taken, *a) && is_known(own, taken, *b),
        Form::If(c, a, b) => {
            is_known(own, taken, *c) && is_known(own, taken, *a) && is_known(own, taken, *b)
        }
        Form::Pre(a) => is_known(own, taken, *a),
        Form::Arrow(a, b) => is_known(own, taken, *a) && is_known(own, taken, *b),
        Form::When(a) => is_known(own, taken, *a),
        Form::Current(a) => is_known(own, taken, *a),
        Form::Merge(c, branches) => {
            is_known(own, taken, *c) && are_known(own, taken, branches.as_slice())
        }
    }
}

/// Whether the variable of a clock is known.
pub(crate) fn clock_known(own: &[bool], taken: &[bool], clock: Clock) -> bool
    ensures { result ≡ true → ClockKnown (knows (marked_part own.now taken.now)) clock }
{
    match clock {
        Clock::Base => true,
        Clock::On(c, _) => is_known(own, taken, c),
    }
}

/// Whether what flow i reads is known, if it is computed here.
fn operands_known(flat: &Flat, own: &[bool], taken: &[bool], i: usize) -> bool
    ensures { result ≡ true → (flow : Flow) → flow_at flat.now i ≡ Some flow
        → marked own.now i ≡ true
        → PlacesKnown (knows (marked_part own.now taken.now)) flow.form }
{
    if !is_marked(own, i) {
        return true;
    }
    match flat.flows().get(i) {
        Some(flow) => form_known(own, taken, &flow.form),
        None => true,
    }
}

/// Whether the variable of the clock of flow i is known, if the flow is.
fn variable_known(flat: &Flat, own: &[bool], taken: &[bool], i: usize) -> bool
    ensures { result ≡ true → (flow : Flow) → flow_at flat.now i ≡ Some flow
        → knows (marked_part own.now taken.now) i ≡ true
        → ClockKnown (knows (marked_part own.now taken.now)) flow.clock }
{
    if !is_known(own, taken, i) {
        return true;
    }
    match flat.flows().get(i) {
        Some(flow) => clock_known(own, taken, flow.clock),
        None => true,
    }
}

/// Whether these flows, computed and taken, are a part of a program.
pub fn is_part(flat: &Flat, own: &[bool], taken: &[bool]) -> bool
    ensures { result ≡ true → IsPart flat.now (marked_part own.now taken.now) }
{
    for i in 0..flat.flows().len() {
        if !operands_known(flat, own, taken, i) || !variable_known(flat, own, taken, i) {
            return false;
        }
    }
    true
}
