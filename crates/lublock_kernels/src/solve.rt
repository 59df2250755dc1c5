//! What one flow's form asks for, whatever the form.

ghost use Rattle.std.specs.Prelude.{◌≡◌, ◌<◌, ℕ, length, true, false};
ghost use Rattle.luflow.specs.declared.form.Flow.{Flow};
ghost use Rattle.luflow.specs.declared.form.Form.{Form};
ghost use Rattle.luflow.specs.Program.{InputsView};
ghost use Rattle.luflow.specs.Operators.{makes};
ghost use Rattle.lublock_kernels.specs.Rows.{Keeps};
ghost use Rattle.lublock_kernels.specs.Machine.{WritesForm};

use crate::clocked::{solve_current, solve_merge, solve_when};
use crate::forms::{
    kind_at, solve_arrow, solve_binary, solve_constant, solve_copied, solve_if, solve_input,
    solve_pre, solve_unary,
};
use crate::span::Span;
use luflow::{Flat, Flow, Form, Inputs};
use lutree::{BinaryOperator, Kind};

/// Whether an operator that has a loop here gives this type.
pub fn is_result(op: BinaryOperator, kind: Kind) -> bool
    ensures { result ≡ true → kind ≡ makes op }
{
    match (op, kind) {
        (
            BinaryOperator::Add
            | BinaryOperator::Subtract
            | BinaryOperator::Multiply
            | BinaryOperator::Divide
            | BinaryOperator::Modulo,
            Kind::Int,
        ) => true,
        (
            BinaryOperator::Less
            | BinaryOperator::LessEqual
            | BinaryOperator::Greater
            | BinaryOperator::GreaterEqual
            | BinaryOperator::Equal
            | BinaryOperator::Unequal
            | BinaryOperator::And
            | BinaryOperator::Or
            | BinaryOperator::Xor
            | BinaryOperator::Implies,
            Kind::Bool,
        ) => true,
        _ => false,
    }
}

/// An operator with two operands, whose flow has this type.
fn solve_operator(
    flat: &Flat,
    rows: &[Vec<i64>],
    spans: &[Span],
    kind: Kind,
    op: BinaryOperator,
    a: usize,
    b: usize,
    row: &mut [i64],
    from: usize,
    to: usize,
) -> bool
    requires { to < length row.old }
    ensures len { length row.new ≡ length row.old }
    ensures kept { Keeps from row.old row.new }
    ensures words { result ≡ false
        → (inputs : InputsView) (t i : ℕ) (flow : Flow) → flow.kind ≡ kind → WritesForm flat.now inputs t
        rows.now spans.now i flow (Form.Binary op a b) from to row.new }
{
    if !is_result(op, kind) {
        return true;
    }
    match kind_at(flat, a) {
        Some(operand) => solve_binary(rows, spans, operand, op, a, b, row, from, to),
        None => true,
    }
}

/// Writes the words that the form of flow i asks for at the ticks from `from` to `to`, where the block begins
/// at instant `t`; whether some tick has none, or what it reads isn't there.
pub fn solve_form(
    flat: &Flat,
    inputs: &Inputs,
    rows: &[Vec<i64>],
    spans: &[Span],
    t: usize,
    i: usize,
    flow: &Flow,
    row: &mut [i64],
    from: usize,
    to: usize,
) -> bool
    requires { to < length row.old }
    ensures len { length row.new ≡ length row.old }
    ensures kept { Keeps from row.old row.new }
    ensures words { result ≡ false → WritesForm flat.now inputs.now t rows.now spans.now i flow.now
        flow.now.form from to row.new }
{
    match &flow.form {
        Form::Input(c) => solve_input(inputs, rows, spans, t, flow.kind, *c, row, from, to),
        Form::Constant(d) => solve_constant(rows, spans, flow.kind, *d, row, from, to),
        Form::Copied(a) => solve_copied(rows, spans, *a, row, from, to),
        Form::Unary(op, a) => solve_unary(rows, spans, flow.kind, *op, *a, row, from, to),
        Form::Binary(op, a, b) => {
            solve_operator(flat, rows, spans, flow.kind, *op, *a, *b, row, from, to)
        }
        Form::If(c, a, b) => solve_if(rows, spans, *c, *a, *b, row, from, to),
        Form::Pre(a) => solve_pre(rows, spans, *a, row, from, to),
        Form::Arrow(a, b) => solve_arrow(rows, spans, i, *a, *b, row, from, to),
        Form::When(a) => solve_when(flat, rows, spans, flow.clock, *a, row, from, to),
        Form::Current(a) => solve_current(flat, rows, spans, *a, row, from, to),
        Form::Merge(c, branches) => {
            solve_merge(flat, rows, spans, *c, branches.as_slice(), row, from, to)
        }
    }
}
