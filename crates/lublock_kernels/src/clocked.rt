//! The forms that look at a clock, from the rows of the flows that they read.

ghost use Rattle.std.specs.Prelude.{◌≡◌, ◌<◌, ◌+◌, ℕ, length, true, false, Some, IfSome, slice_get};
ghost use Rattle.lutree.specs.declared.program.Kind.{Kind};
ghost use Rattle.luflow.specs.declared.form.Flow.{Flow};
ghost use Rattle.luflow.specs.declared.form.Form.{Form};
ghost use Rattle.luflow.specs.Program.{InputsView};
ghost use Rattle.lublock_kernels.specs.Blocks.{clock_of};
ghost use Rattle.lublock_kernels.specs.Rows.{Keeps};
ghost use Rattle.lublock_kernels.specs.Machine.{IsBranch, StaysBeside, WritesForm, known_of, ticks_of};

use crate::clocks::{branch_datum, gather, hold, spread};
use crate::forms::{clock_at, kind_at, read, upto_at};
use crate::span::Span;
use luflow::{Clock, Datum, Flat};
use lutree::Kind;

/// The ticks of a flow whose ticks are counted.
pub fn ticks_at(spans: &[Span], r: usize) -> Option<usize>
    ensures { IfSome result (λ n. (n ≡ ticks_of spans.now r) × (known_of spans.now r ≡ true)) }
{
    match spans.get(r) {
        Some(span) if span.known => Some(span.ticks),
        _ => None,
    }
}

/// `when` on the clock of this variable and value.
fn gather_on(
    flat: &Flat,
    rows: &[Vec<i64>],
    spans: &[Span],
    c: usize,
    datum: Datum,
    a: usize,
    row: &mut [i64],
    to: usize,
) -> bool
    ensures len { length row.new ≡ length row.old }
    ensures kept { Keeps 0 row.old row.new }
    ensures words { result ≡ false
        → (inputs : InputsView) (t i : ℕ) (flow : Flow) → flow.clock ≡ Clock.On c datum
        → WritesForm flat.now inputs t rows.now spans.now i flow (Form.When a) 0 to row.new }
{
    let Some(kind) = kind_at(flat, c) else {
        return true;
    };
    let Some(ticks) = ticks_at(spans, c) else {
        return true;
    };
    let Some(z) = read(rows, spans, c, ticks) else {
        return true;
    };
    match read(rows, spans, a, ticks) {
        Some(x) if ticks < row.len() => gather(row, x, z, kind, datum, ticks) != to,
        _ => true,
    }
}

/// `when`, all its ticks at once.
pub fn solve_when(
    flat: &Flat,
    rows: &[Vec<i64>],
    spans: &[Span],
    clock: Clock,
    a: usize,
    row: &mut [i64],
    from: usize,
    to: usize,
) -> bool
    requires { to < length row.old }
    ensures len { length row.new ≡ length row.old }
    ensures kept { Keeps from row.old row.new }
    ensures words { result ≡ false
        → (inputs : InputsView) (t i : ℕ) (flow : Flow) → flow.clock ≡ clock
        → WritesForm flat.now inputs t rows.now spans.now i flow (Form.When a) from to row.new }
{
    match clock {
        Clock::On(c, datum) if from == 0 => gather_on(flat, rows, spans, c, datum, a, row, to),
        _ => true,
    }
}

/// `current` of a flow on the clock of this variable and value.
fn hold_on(
    flat: &Flat,
    rows: &[Vec<i64>],
    spans: &[Span],
    c: usize,
    datum: Datum,
    a: usize,
    row: &mut [i64],
    to: usize,
) -> bool
    requires { to < length row.old }
    ensures len { length row.new ≡ length row.old }
    ensures kept { Keeps 0 row.old row.new }
    ensures words { result ≡ false
        → (inputs : InputsView) (t i : ℕ) (flow : Flow) → clock_of flat.now a ≡ Some (Clock.On c datum)
        → WritesForm flat.now inputs t rows.now spans.now i flow (Form.Current a) 0 to row.new }
{
    let Some(kind) = kind_at(flat, c) else {
        return true;
    };
    let Some(z) = read(rows, spans, c, to) else {
        return true;
    };
    let limit = upto_at(spans, a);
    match read(rows, spans, a, limit) {
        Some(x) => hold(row, x, z, kind, datum, to, limit),
        None => true,
    }
}

/// `current`, all its ticks at once.
pub fn solve_current(
    flat: &Flat,
    rows: &[Vec<i64>],
    spans: &[Span],
    a: usize,
    row: &mut [i64],
    from: usize,
    to: usize,
) -> bool
    requires { to < length row.old }
    ensures len { length row.new ≡ length row.old }
    ensures kept { Keeps from row.old row.new }
    ensures words { result ≡ false → (inputs : InputsView) (t i : ℕ) (flow : Flow)
        → WritesForm flat.now inputs t rows.now spans.now i flow (Form.Current a) from to row.new }
{
    match clock_at(flat, a) {
        Some(Clock::On(c, datum)) if from == 0 => {
            hold_on(flat, rows, spans, c, datum, a, row, to)
        }
        _ => true,
    }
}

/// A merge's branch k, which is the flow x, where its variable has these words.
fn solve_branch(
    rows: &[Vec<i64>],
    spans: &[Span],
    kind: Kind,
    c: &[i64],
    k: usize,
    x: usize,
    row: &mut [i64],
    to: usize,
) -> bool
    requires row { to < length row.old }
    requires c { to < length c.now }
    ensures len { length row.new ≡ length row.old }
    ensures kept { Keeps 0 row.old row.new }
    ensures words { result ≡ false → IsBranch rows.now spans.now kind to c.now k x row.new }
    ensures stays { StaysBeside kind to c.now k row.old row.new }
{
    let Some(datum) = branch_datum(kind, k) else {
        return true;
    };
    let limit = upto_at(spans, x);
    match read(rows, spans, x, limit) {
        Some(words) => spread(row, words, c, kind, datum, to, limit),
        None => true,
    }
}

/// The branches of a merge, one after the other.
fn solve_branches(
    rows: &[Vec<i64>],
    spans: &[Span],
    kind: Kind,
    c: &[i64],
    branches: &[usize],
    row: &mut [i64],
    to: usize,
) -> bool
    requires row { to < length row.old }
    requires c { to < length c.now }
    ensures len { length row.new ≡ length row.old }
    ensures kept { Keeps 0 row.old row.new }
    ensures words { result ≡ false → (k x : ℕ) → slice_get branches.now k ≡ Some x
        → IsBranch rows.now spans.now kind to c.now k x row.new }
{
    for k in 0..branches.len() {
        if solve_branch(rows, spans, kind, c, k, branches[k], row, to) {
            return true;
        }
    }
    false
}

/// `merge`, all its ticks at once.
pub fn solve_merge(
    flat: &Flat,
    rows: &[Vec<i64>],
    spans: &[Span],
    c: usize,
    branches: &[usize],
    row: &mut [i64],
    from: usize,
    to: usize,
) -> bool
    requires { to < length row.old }
    ensures len { length row.new ≡ length row.old }
    ensures kept { Keeps from row.old row.new }
    ensures words { result ≡ false
        → (inputs : InputsView) (t i : ℕ) (flow : Flow) → WritesForm flat.now inputs t rows.now spans.now
        i flow (Form.Merge c branches.now) from to row.new }
{
    if from != 0 {
        return true;
    }
    let Some(kind) = kind_at(flat, c) else {
        return true;
    };
    match read(rows, spans, c, to) {
        Some(z) => solve_branches(rows, spans, kind, z, branches, row, to),
        None => true,
    }
}
