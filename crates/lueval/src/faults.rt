//! The first fault of a program, and what its operator reads there.

ghost use Rattle.std.specs.Prelude.{◌≡◌, ◌<◌, Some, length, slice_index};
ghost use Rattle.luflow.specs.declared.data.Datum.{Datum};
ghost use Rattle.lueval_lines.specs.Cells.{statuses};
ghost use Rattle.lueval.specs.Reads.{form_reads};
ghost use Rattle.lueval.specs.Steps.{IsDatumAt, IsFaultFound, IsSecondAt};

use lueval_lines::{Cell, EvalError, status};
use luflow::{Datum, FaultKind, Flat, Form, Status};

/// The places of an operator's operands.
#[derive(Clone, Copy, Drop)]
pub struct Reads {
    pub left: usize,
    /// The right operand; none where the operator has one alone.
    pub right: Option<usize>,
}

/// The first fault of a flat program at a table, in the order of instants and, in one instant, of ranks.
#[derive(Drop)]
pub struct FoundFault {
    /// The place of the flow that is at fault.
    pub place: usize,
    /// The instant, counted from 0.
    pub instant: u32,
    pub kind: FaultKind,
    /// What the first operand has then.
    pub left: Datum,
    /// What the second operand has then; none where the operator has one alone.
    pub right: Option<Datum>,
}

/// What a flow reads, if it is a data operator.
fn reads_of(form: &Form) -> Option<Reads>
    ensures { result ≡ form_reads form.now }
{
    match form {
        Form::Unary(_, a) => Some(Reads {
            left: *a,
            right: None,
        }),
        Form::Binary(_, a, b) => Some(Reads {
            left: *a,
            right: Some(*b),
        }),
        _ => None,
    }
}

/// The datum of a status; nil where it has none.
fn datum_of(status: Status) -> Datum
    ensures { (datum : Datum) → status ≡ Status.Present datum → result ≡ datum }
{
    match status {
        Status::Present(datum) => datum,
        Status::Absent => Datum::Nil,
    }
}

/// The datum that a place shows; nil where it shows none.
fn datum_at(shown: &[Cell], place: usize) -> Datum
    ensures { IsDatumAt (statuses shown.now) place result }
{
    match shown.get(place) {
        Some(cell) => datum_of(status(*cell)),
        None => Datum::Nil,
    }
}

/// The same of a second operand, if there is one.
fn second_at(shown: &[Cell], place: Option<usize>) -> Option<Datum>
    ensures { IsSecondAt (statuses shown.now) place result }
{
    match place {
        Some(place) => Some(datum_at(shown, place)),
        None => None,
    }
}

/// The fault of the flow at a place, with what its operands show.
pub fn found_at(
    flat: &Flat,
    shown: &[Cell],
    place: usize,
    instant: u32,
    kind: FaultKind,
) -> FoundFault
    requires { place < length flat.now.flows }
    ensures { IsFaultFound (statuses shown.now) flat.now.flows place instant kind result }
{
    let (left, right) = match reads_of(&flat.flows()[place].form) {
        Some(reads) => (datum_at(shown, reads.left), second_at(shown, reads.right)),
        None => (Datum::Nil, None),
    };
    FoundFault {
        place,
        instant,
        kind,
        left,
        right,
    }
}

/// The error that reports a fault: by the main variable in whose equation it stands.
pub fn error_of(flat: &Flat, found: &FoundFault) -> EvalError
    requires { found.now.place < length flat.now.flows }
    ensures { result ≡ EvalError.Fault (slice_index flat.now.owners found.now.place)
        found.now.instant found.now.kind }
{
    EvalError::Fault {
        variable: flat.variable_of(found.place),
        instant: found.instant,
        kind: found.kind,
    }
}
