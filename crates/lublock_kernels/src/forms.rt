//! What a flow's form asks for, from the rows of the flows that it reads.

ghost use Rattle.std.specs.Prelude.{◌≡◌, ◌<◌, ◌+◌, ℕ, length, true, false, IfSome, Some};
ghost use Rattle.lutree.specs.declared.program.Kind.{Kind};
ghost use Rattle.luflow.specs.declared.form.Flow.{Flow};
ghost use Rattle.luflow.specs.declared.form.Form.{Form};
ghost use Rattle.luflow.specs.Program.{FlatView, InputsView, column_of, flow_at};
ghost use Rattle.luflow.specs.Operators.{makes};
ghost use Rattle.luflow.specs.Packed.{data_in};
ghost use Rattle.lublock_kernels.specs.Blocks.{kind_at, clock_of};
ghost use Rattle.lublock_kernels.specs.Rows.{Keeps};
ghost use Rattle.lublock_kernels.specs.Machine.{IsRead, WritesForm, upto_of, was_of};

use crate::doubles::write_doubles;
use crate::singles::{
    word_for, write_arrow, write_constant, write_copied, write_if, write_input, write_pre,
    write_singles,
};
use crate::span::Span;
use luflow::{Clock, Datum, Flat, Flow, Form, Inputs, Values};
use lutree::{BinaryOperator, Kind, UnaryOperator};

/// The flow of a place.
pub fn flow_of(flat: &Flat, r: usize) -> Option<&Flow>
    ensures { IfSome result (λ flow. flow_at flat.now r ≡ Some flow.now) }
{
    flat.flows().get(r)
}

/// The type of a flow.
pub fn kind_at(flat: &Flat, r: usize) -> Option<Kind>
    ensures { result ≡ kind_at flat.now r }
{
    match flat.flows().get(r) {
        Some(flow) => Some(flow.kind),
        None => None,
    }
}

/// The clock of a flow.
pub fn clock_at(flat: &Flat, r: usize) -> Option<Clock>
    ensures { result ≡ clock_of flat.now r }
{
    match flat.flows().get(r) {
        Some(flow) => Some(flow.clock),
        None => None,
    }
}

/// At how many ticks a flow has its word.
pub fn upto_at(spans: &[Span], r: usize) -> usize
    ensures { result ≡ upto_of spans.now r }
{
    match spans.get(r) {
        Some(span) => span.upto,
        None => 0,
    }
}

/// Whether a flow's clock was true before the block.
pub fn was_at(spans: &[Span], r: usize) -> bool
    ensures { result ≡ was_of spans.now r }
{
    match spans.get(r) {
        Some(span) => span.was,
        None => false,
    }
}

/// The row of a flow that has come so far.
pub fn read<'a>(rows: &'a [Vec<i64>], spans: &[Span], r: usize, need: usize) -> Option<&'a [i64]>
    ensures { IfSome result (λ row. IsRead rows.now spans.now r need row.now) }
{
    if upto_at(spans, r) < need {
        return None;
    }
    match rows.get(r) {
        Some(row) if need < row.len() => Some(row.as_slice()),
        _ => None,
    }
}

/// The column of an input.
pub fn column_at(inputs: &Inputs, c: usize) -> Option<&Values>
    ensures { IfSome result (λ column. data_in column.now ≡ column_of inputs.now c) }
{
    match inputs.columns().get(c) {
        Some(column) => Some(&column.1),
        None => None,
    }
}

/// A constant's words.
pub fn solve_constant(
    rows: &[Vec<i64>],
    spans: &[Span],
    kind: Kind,
    datum: Datum,
    row: &mut [i64],
    from: usize,
    to: usize,
) -> bool
    requires { to < length row.old }
    ensures len { length row.new ≡ length row.old }
    ensures kept { Keeps from row.old row.new }
    ensures words { result ≡ false
        → (flat : FlatView) (inputs : InputsView) (t i : ℕ) (flow : Flow) → flow.kind ≡ kind
        → WritesForm flat inputs t rows.now spans.now i flow (Form.Constant datum) from to row.new }
{
    let (word, none) = word_for(kind, datum);
    if none {
        return true;
    }
    write_constant(row, word, from, to)
}

/// The words of a flow once more.
pub fn solve_copied(
    rows: &[Vec<i64>],
    spans: &[Span],
    a: usize,
    row: &mut [i64],
    from: usize,
    to: usize,
) -> bool
    requires { to < length row.old }
    ensures len { length row.new ≡ length row.old }
    ensures kept { Keeps from row.old row.new }
    ensures words { result ≡ false
        → (flat : FlatView) (inputs : InputsView) (t i : ℕ) (flow : Flow)
        → WritesForm flat inputs t rows.now spans.now i flow (Form.Copied a) from to row.new }
{
    match read(rows, spans, a, to) {
        Some(x) => write_copied(row, x, from, to),
        None => true,
    }
}

/// An operator with one operand.
pub fn solve_unary(
    rows: &[Vec<i64>],
    spans: &[Span],
    kind: Kind,
    op: UnaryOperator,
    a: usize,
    row: &mut [i64],
    from: usize,
    to: usize,
) -> bool
    requires { to < length row.old }
    ensures len { length row.new ≡ length row.old }
    ensures kept { Keeps from row.old row.new }
    ensures words { result ≡ false
        → (flat : FlatView) (inputs : InputsView) (t i : ℕ) (flow : Flow) → flow.kind ≡ kind
        → WritesForm flat inputs t rows.now spans.now i flow (Form.Unary op a) from to row.new }
{
    match read(rows, spans, a, to) {
        Some(x) => write_singles(op, kind, row, x, from, to),
        None => true,
    }
}

/// `pre`
pub fn solve_pre(
    rows: &[Vec<i64>],
    spans: &[Span],
    a: usize,
    row: &mut [i64],
    from: usize,
    to: usize,
) -> bool
    requires { to < length row.old }
    ensures len { length row.new ≡ length row.old }
    ensures kept { Keeps from row.old row.new }
    ensures words { result ≡ false
        → (flat : FlatView) (inputs : InputsView) (t i : ℕ) (flow : Flow)
        → WritesForm flat inputs t rows.now spans.now i flow (Form.Pre a) from to row.new }
{
    if to == 0 {
        return false;
    }
    match read(rows, spans, a, to - 1) {
        Some(x) => write_pre(row, x, from, to),
        None => true,
    }
}

/// An operator with two operands of this type.
pub fn solve_binary(
    rows: &[Vec<i64>],
    spans: &[Span],
    kind: Kind,
    op: BinaryOperator,
    a: usize,
    b: usize,
    row: &mut [i64],
    from: usize,
    to: usize,
) -> bool
    requires { to < length row.old }
    ensures len { length row.new ≡ length row.old }
    ensures kept { Keeps from row.old row.new }
    ensures words { result ≡ false
        → (flat : FlatView) (inputs : InputsView) (t i : ℕ) (flow : Flow) → kind_at flat a ≡ Some kind
        → flow.kind ≡ makes op
        → WritesForm flat inputs t rows.now spans.now i flow (Form.Binary op a b) from to row.new }
{
    let Some(x) = read(rows, spans, a, to) else {
        return true;
    };
    match read(rows, spans, b, to) {
        Some(y) => write_doubles(op, kind, row, x, y, from, to),
        None => true,
    }
}

/// `if`
pub fn solve_if(
    rows: &[Vec<i64>],
    spans: &[Span],
    c: usize,
    a: usize,
    b: usize,
    row: &mut [i64],
    from: usize,
    to: usize,
) -> bool
    requires { to < length row.old }
    ensures len { length row.new ≡ length row.old }
    ensures kept { Keeps from row.old row.new }
    ensures words { result ≡ false
        → (flat : FlatView) (inputs : InputsView) (t i : ℕ) (flow : Flow)
        → WritesForm flat inputs t rows.now spans.now i flow (Form.If c a b) from to row.new }
{
    let Some(z) = read(rows, spans, c, to) else {
        return true;
    };
    let Some(x) = read(rows, spans, a, to) else {
        return true;
    };
    match read(rows, spans, b, to) {
        Some(y) => write_if(row, z, x, y, from, to),
        None => true,
    }
}

/// `->` of flow i.
pub fn solve_arrow(
    rows: &[Vec<i64>],
    spans: &[Span],
    i: usize,
    a: usize,
    b: usize,
    row: &mut [i64],
    from: usize,
    to: usize,
) -> bool
    requires { to < length row.old }
    ensures len { length row.new ≡ length row.old }
    ensures kept { Keeps from row.old row.new }
    ensures words { result ≡ false
        → (flat : FlatView) (inputs : InputsView) (t : ℕ) (flow : Flow)
        → WritesForm flat inputs t rows.now spans.now i flow (Form.Arrow a b) from to row.new }
{
    let Some(x) = read(rows, spans, a, to) else {
        return true;
    };
    match read(rows, spans, b, to) {
        Some(y) => write_arrow(row, was_at(spans, i), x, y, from, to),
        None => true,
    }
}

/// The words of an input from instant `t` on.
pub fn solve_input(
    inputs: &Inputs,
    rows: &[Vec<i64>],
    spans: &[Span],
    t: usize,
    kind: Kind,
    c: usize,
    row: &mut [i64],
    from: usize,
    to: usize,
) -> bool
    requires { to < length row.old }
    ensures len { length row.new ≡ length row.old }
    ensures kept { Keeps from row.old row.new }
    ensures words { result ≡ false
        → (flat : FlatView) (i : ℕ) (flow : Flow) → flow.kind ≡ kind
        → WritesForm flat inputs.now t rows.now spans.now i flow (Form.Input c) from to row.new }
{
    match column_at(inputs, c) {
        Some(column) if to <= column.len() && t <= column.len() - to => {
            write_input(row, kind, column, t, from, to)
        }
        _ => true,
    }
}
