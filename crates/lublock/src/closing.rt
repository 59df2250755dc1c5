//! Whether what was supposed of a `pre` in a block is what its operand had a tick before.

ghost use Rattle.std.specs.Prelude.{◌≡◌, ◌<◌, ℕ, suc, true};
ghost use Rattle.lublock_kernels.specs.Rows.{word_in};
ghost use Rattle.lublock_kernels.specs.Machine.{AllClose, ClosesAt, IsClosed, row_of};

use lublock_kernels::span::Span;
use luflow::{Flat, Form};

/// The row of a flow; empty where there is none of that place.
pub fn row_at(rows: &[Vec<i64>], r: usize) -> &[i64]
    ensures { result.now ≡ row_of rows.now r }
{
    match rows.get(r) {
        Some(row) => row.as_slice(),
        None => &[],
    }
}

/// Whether a row has at each tick the word that another one has a tick before.
fn is_shifted(x: &[i64], a: &[i64], ticks: usize) -> bool
    ensures { result ≡ true
        → (n : ℕ) → n < ticks → word_in x.now (suc n) ≡ word_in a.now n }
{
    if x.len() <= ticks || a.len() < ticks {
        return false;
    }
    let mut others = 0;
    for m in 0..ticks {
        others += (x[m + 1] != a[m]) as usize;
    }
    others == 0
}

/// Whether a flow of this form is a `pre` that has at each of its ticks the word that its operand has a tick
/// before.
pub(crate) fn form_closes(form: &Form, rows: &[Vec<i64>], i: usize, ticks: usize) -> bool
    ensures { result ≡ true → IsClosed rows.now i ticks form.now }
{
    match form {
        Form::Pre(a) => is_shifted(row_at(rows, i), row_at(rows, *a), ticks),
        _ => false,
    }
}

/// Whether flow i is right, if its words were supposed.
fn closes_at(flat: &Flat, rows: &[Vec<i64>], spans: &[Span], i: usize) -> bool
    ensures { result ≡ true → ClosesAt flat.now rows.now spans.now i }
{
    match spans.get(i) {
        Some(span) if span.supposed => match flat.flows().get(i) {
            Some(flow) => form_closes(&flow.form, rows, i, span.ticks),
            None => true,
        },
        _ => true,
    }
}

/// Whether each flow is right whose words were supposed.
pub fn closes(flat: &Flat, rows: &[Vec<i64>], spans: &[Span]) -> bool
    ensures { result ≡ true → AllClose flat.now rows.now spans.now }
{
    for i in 0..flat.flows().len() {
        if !closes_at(flat, rows, spans, i) {
            return false;
        }
    }
    true
}
