//! What a flow has at an instant, by the definitions, from the marks of a grid. What lies before the instant
//! is looked up anew each time.

ghost use Rattle.std.specs.Prelude.{◌≡◌, Some, map, slice_get};
ghost use Rattle.luflow.specs.Program.{column_of};
ghost use Rattle.luflow.specs.Solution.{says};
ghost use Rattle.luflow.specs.Streams.{before, clock_at, datum_of, either, is_value, newer, ticked, truth_in};
ghost use Rattle.luflow.specs.Values.{arrow_of, branch_of, branch_value, gives, mark_of, merge_of, on_one, on_three, on_two, value_at};
ghost use Rattle.luflow.specs.Operators.{choice_of, double_of, single_of};
ghost use Rattle.test_reference.specs.AsMark.{as_mark};
ghost use Rattle.test_reference.specs.Grids.{held};

use crate::grid::Grid;
use crate::mark::Mark;
use lueval_lines::{choice, double, single};
use luflow::{Clock, Datum, Flow, Form, Inputs, Outcome, Status};
use lutree::{BinaryOperator, UnaryOperator};

fn datum_of(mark: Mark) -> Option<Datum>
    ensures { result ≡ datum_of (as_mark mark) }
{
    match mark {
        Mark::Known(Status::Present(d)) => Some(d),
        Mark::Known(Status::Absent) => None,
        Mark::Broken => None,
    }
}

fn is_value(value: Datum, datum: Datum) -> bool
    ensures { result ≡ is_value value datum }
{
    match (value, datum) {
        (Datum::Bool(sign), Datum::Bool(b)) => { if sign { b } else { !b } }
        (Datum::Int(m), Datum::Int(n)) => m <= n && n <= m,
        (Datum::Name(m), Datum::Name(n)) => m == n,
        _ => false,
    }
}

fn truth_in(value: Datum, mark: Mark) -> Option<bool>
    ensures { result ≡ truth_in value (as_mark mark) }
{
    match mark {
        Mark::Broken => None,
        Mark::Known(Status::Present(datum)) => Some(is_value(value, datum)),
        Mark::Known(Status::Absent) => Some(false),
    }
}

fn newer(mark: Mark, last: Option<Datum>) -> Option<Datum>
    ensures { result ≡ newer (as_mark mark) last }
{
    match (mark, last) {
        (Mark::Broken, _) => None,
        (Mark::Known(Status::Absent), _) => last,
        (Mark::Known(Status::Present(_)), None) => None,
        (Mark::Known(Status::Present(d)), Some(_)) => Some(d),
    }
}

fn either(now: Option<bool>, before: Option<bool>) -> Option<bool>
    ensures { result ≡ either now before }
{
    match (now, before) {
        (Some(a), Some(b)) => Some(a | b),
        _ => None,
    }
}

/// What a flow has now, where that is a datum.
fn now(grid: &Grid, flow: usize, instant: u32) -> Option<Datum>
    ensures { result ≡ datum_of (held grid.now flow instant) }
{
    datum_of(grid.at(flow, instant))
}

/// The last datum of a flow before an instant.
fn before(grid: &Grid, flow: usize, instant: u32) -> Option<Datum>
    ensures { result ≡ before (held grid.now flow) instant }
{
    let mut last = Some(Datum::Nil);
    for t in 0..instant {
        last = newer(grid.at(flow, t), last);
    }
    last
}

/// Whether a clock is true at an instant.
pub fn clock_at(inputs: &Inputs, grid: &Grid, clock: Clock, instant: u32) -> Option<bool>
    ensures { result ≡ clock_at inputs.now (held grid.now) clock instant }
{
    match clock {
        Clock::Base => Some(instant < inputs.instants()),
        Clock::On(c, value) => truth_in(value, grid.at(c, instant)),
    }
}

/// Whether a clock was true before an instant.
fn ticked(inputs: &Inputs, grid: &Grid, clock: Clock, instant: u32) -> Option<bool>
    ensures { result ≡ ticked (clock_at inputs.now (held grid.now) clock) instant }
{
    let mut was = Some(false);
    for t in 0..instant {
        was = either(clock_at(inputs, grid, clock, t), was);
    }
    was
}

/// What the table gives an input at an instant.
fn given(inputs: &Inputs, column: usize, instant: u32) -> Option<Datum>
    ensures { result ≡ slice_get (column_of inputs.now column) instant }
{
    match inputs.columns().get(column) {
        Some(found) => found.1.get(instant as usize),
        None => None,
    }
}

fn gives(d: Option<Datum>) -> Outcome
    ensures { result ≡ gives d }
{
    match d {
        Some(d) => Outcome::Gives(d),
        None => Outcome::Stuck,
    }
}

fn unary_of(op: UnaryOperator, x: Option<Datum>) -> Outcome
    ensures { result ≡ on_one (single_of op) x }
{
    match x {
        Some(x) => single(op, x),
        None => Outcome::Stuck,
    }
}

fn binary_of(op: BinaryOperator, x: Option<Datum>, y: Option<Datum>) -> Outcome
    ensures { result ≡ on_two (double_of op) x y }
{
    match (x, y) {
        (Some(x), Some(y)) => double(op, x, y),
        _ => Outcome::Stuck,
    }
}

fn if_of(c: Option<Datum>, x: Option<Datum>, y: Option<Datum>) -> Outcome
    ensures { result ≡ on_three choice_of c x y }
{
    match (c, x, y) {
        (Some(c), Some(x), Some(y)) => choice(c, x, y),
        _ => Outcome::Stuck,
    }
}

fn arrow_of(was: Option<bool>, x: Option<Datum>, y: Option<Datum>) -> Outcome
    ensures { result ≡ on_two (arrow_of was) x y }
{
    match (was, x, y) {
        (Some(was), Some(x), Some(y)) => Outcome::Gives(if was { y } else { x }),
        _ => Outcome::Stuck,
    }
}

fn branch_of(datum: Datum) -> Option<usize>
    ensures { result ≡ branch_of datum }
{
    match datum {
        Datum::Bool(true) => Some(0),
        Datum::Bool(false) => Some(1),
        Datum::Name(number) => Some(number as usize),
        _ => None,
    }
}

fn branch_value(branch: Option<usize>, grid: &Grid, branches: &[usize], t: u32) -> Outcome
    ensures { result ≡ branch_value branch (map (λ r. datum_of (held grid.now r t)) branches.now) }
{
    let Some(number) = branch else {
        return Outcome::Stuck;
    };
    match branches.get(number) {
        Some(place) => gives(now(grid, *place, t)),
        None => gives(None),
    }
}

fn merge_of(c: Option<Datum>, grid: &Grid, branches: &[usize], t: u32) -> Outcome
    ensures { result ≡ merge_of c (map (λ r. datum_of (held grid.now r t)) branches.now) }
{
    match c {
        Some(datum) => branch_value(branch_of(datum), grid, branches, t),
        None => Outcome::Stuck,
    }
}

/// The value of a form on a clock, where that is true.
fn value_at(inputs: &Inputs, grid: &Grid, clock: Clock, form: &Form, t: u32) -> Outcome
    ensures { result ≡ value_at inputs.now (held grid.now) clock form.now t }
{
    match form {
        Form::Input(c) => gives(given(inputs, *c, t)),
        Form::Constant(d) => Outcome::Gives(*d),
        Form::Copied(a) => gives(now(grid, *a, t)),
        Form::Unary(op, a) => unary_of(*op, now(grid, *a, t)),
        Form::Binary(op, a, b) => binary_of(*op, now(grid, *a, t), now(grid, *b, t)),
        Form::If(c, a, b) => if_of(now(grid, *c, t), now(grid, *a, t), now(grid, *b, t)),
        Form::Pre(a) => gives(before(grid, *a, t)),
        Form::Arrow(a, b) => arrow_of(
            ticked(inputs, grid, clock, t),
            now(grid, *a, t),
            now(grid, *b, t),
        ),
        Form::When(a) => gives(now(grid, *a, t)),
        Form::Current(a) => gives(newer(grid.at(*a, t), before(grid, *a, t))),
        Form::Merge(c, branches) => merge_of(now(grid, *c, t), grid, branches.as_slice(), t),
    }
}

fn mark_of(outcome: Outcome) -> Mark
    ensures { as_mark result ≡ mark_of outcome }
{
    match outcome {
        Outcome::Gives(d) => Mark::Known(Status::Present(d)),
        Outcome::Faults(_) => Mark::Broken,
        Outcome::Stuck => Mark::Broken,
    }
}

/// What a flow's equation says that it has at an instant.
pub fn says(inputs: &Inputs, grid: &Grid, flow: &Flow, t: u32) -> Mark
    ensures { as_mark result ≡ says inputs.now (held grid.now) (Some flow.now) t }
{
    match clock_at(inputs, grid, flow.clock, t) {
        None => Mark::Broken,
        Some(false) => Mark::Known(Status::Absent),
        Some(true) => mark_of(value_at(inputs, grid, flow.clock, &flow.form, t)),
    }
}
