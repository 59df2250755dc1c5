//! The words of a site's own flows.

ghost use Rattle.std.specs.Prelude.{◌≡◌, ℕ, true, Option, IfSome, Some, length, false};
ghost use Rattle.luflow.specs.Packed.{data_in};
ghost use Rattle.luflow.specs.Program.{InputsView, flow_at};
ghost use Rattle.luflow.specs.declared.form.Flow.{Flow};
ghost use Rattle.luflow.specs.declared.form.Form.{Form};
ghost use Rattle.lublock.specs.Boards.{IsGiven, StandsStill};
ghost use Rattle.lublock_site.specs.Given.{AreGiven, IsNoInput};

use lublock::Board;
use lublock_kernels::span::Span;
use luflow::{Flat, Form, Inputs, Values};
use std::alloc::Global;

/// The column of flow i, if it is an input whose column is here.
fn column_of<'a>(flat: &Flat, given: &'a [Option<Values>], i: usize) -> Option<&'a Values>
    ensures { IfSome result (λ values. (table : InputsView) → AreGiven table given.now
        → IsGiven flat.now table (data_in values.now) i) }
{
    let flow = flat.flows().get(i)?;
    let Form::Input(c) = flow.form else {
        return None;
    };
    given.get(c)?.as_ref()
}

/// Whether a flow is there and is no input.
fn is_no_input(flat: &Flat, i: usize) -> bool
    ensures { result ≡ true → IsNoInput flat.now i }
{
    match flat.flows().get(i) {
        Some(flow) => match flow.form {
            Form::Input(_) => false,
            _ => true,
        },
        None => false,
    }
}

/// The ticks of a flow that has fewer words; none where it has as many.
fn missing(spans: &[Span], i: usize) -> Option<usize> {
    match spans.get(i) {
        Some(span) if span.upto < span.ticks => Some(span.ticks),
        _ => None,
    }
}

/// Finds all words of own flow i, which has the clock of flow `like`, in a block of `len` instants from `t`
/// on: of an input from its column, of another flow from the rows that it reads. `none` is a table without
/// columns. True where some word isn't found.
pub fn own_column(
    alloc: Global,
    flat: &Flat,
    given: &[Option<Values>],
    none: &Inputs,
    board: &mut Board,
    t: usize,
    len: usize,
    i: usize,
    like: usize,
) -> bool
    ensures stands { (table : InputsView) → AreGiven table given.now
        → StandsStill flat.now table t len board.old board.new }
    ensures flows { length board.new.spans.items ≡ length board.old.spans.items }
{
    if board.count(flat, len, i, like) {
        return true;
    }
    let Some(to) = missing(board.spans.as_slice(), i) else {
        return false;
    };
    match column_of(flat, given, i) {
        Some(values) => board.give(alloc, flat, values, t, i, to),
        None => {
            if !is_no_input(flat, i) {
                return true;
            }
            board.solve(alloc, flat, none, t, i, to)
        }
    }
}
