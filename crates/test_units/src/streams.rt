//! Tables that fit a program, its streams at them, and columns that are outputs.

ghost use Rattle.std.specs.Prelude.{◌≡◌, length};

use crate::flats::flat_of;
use lueval::{EvalError, Streams, whole};
use luflow::{Datum, FaultKind, Flat, Inputs, Outputs, Status, Values};
use lutab::write_outputs;
use std::alloc::{AllocError, Global};
use std::test::Fail;

/// The number of instants and the columns of a table.
type ColumnsOf = (u32, &'static [(&'static str, &'static [Datum])]);

/// The table, where it is one.
fn inputs_of(alloc: Global, table: ColumnsOf) -> Result<Option<Inputs>, AllocError> {
    let mut columns = Vec::new(alloc);
    for (name, data) in table.1 {
        columns.push((
            String::from_str(alloc, *name)?,
            Values::Mixed(Vec::from_slice(alloc, *data)?),
        ))?;
    }
    Ok(Inputs::new(table.0, columns))
}

/// What an evaluation answers: the stream of each main variable, or the first fault.
#[derive(Clone, Copy)]
enum Want {
    Streams(&'static [&'static [Status]]),
    Fault(EvalError),
}

/// Whether the main variables, all of them, have these streams.
fn are_streams(flat: &Flat, streams: &Streams, want: &[&[Status]]) -> bool
    requires { length streams.now ≡ length flat.now.variables }
{
    if want.len() != flat.variables().len() {
        return false;
    }
    for variable in 0..want.len() {
        if streams.of(variable) != want[variable] {
            return false;
        }
    }
    true
}

/// Whether these are the outputs among the program's variables, in order.
fn are_outputs(flat: &Flat, columns: &[(String, Vec<Status>)], want: &[&[Status]]) -> bool {
    let mut at = 0usize;
    for variable in 0..want.len() {
        if flat.is_output(variable) {
            match columns.get(at) {
                Some(column) => {
                    if column.1.as_slice() != want[variable] {
                        return false;
                    }
                }
                None => return false,
            }
            at = at.wrapping_add(1);
        }
    }
    at == columns.len()
}

/// Whether the main variables have these streams, and the outputs among them theirs.
fn are_answer(alloc: Global, flat: &Flat, streams: Streams, want: &[&[Status]]) -> bool
    requires { length streams ≡ length flat.now.variables }
{
    if !are_streams(flat, &streams, want) {
        return false;
    }
    match streams.outputs(alloc, flat) {
        Ok(Some(outputs)) => are_outputs(flat, outputs.columns(), want),
        Ok(None) => are_outputs(flat, &[], want),
        Err(_) => false,
    }
}

/// Whether the table fits, and this is the answer.
fn is_answer(alloc: Global, flat: &Flat, inputs: &Inputs, want: Want) -> bool {
    if inputs.fits(flat) {
        match (whole(alloc, flat, inputs), want) {
            (Ok(streams), Want::Streams(rows)) => are_answer(alloc, flat, streams, rows),
            (Err(error), Want::Fault(fault)) => error == fault,
            _ => false,
        }
    } else {
        false
    }
}

/// Whether this is the answer at a table.
fn is_answer_at(
    alloc: Global,
    flat: &Flat,
    table: ColumnsOf,
    want: Want,
) -> Result<bool, AllocError> {
    match inputs_of(alloc, table)? {
        Some(inputs) => Ok(is_answer(alloc, flat, &inputs, want)),
        None => Ok(false),
    }
}

/// Whether this is the answer of the program of a text at a table.
fn is_answered(alloc: Global, text: &str, table: ColumnsOf, want: Want) -> bool {
    match flat_of(alloc, text) {
        Some(flat) => is_answer_at(alloc, &flat, table, want).unwrap_or(false),
        None => false,
    }
}

const FIRST: Status = Status::Present(Datum::Name(0));

const SECOND: Status = Status::Present(Datum::Name(1));

const ZERO: Status = Status::Present(Datum::Int(0));

const ONE: Status = Status::Present(Datum::Int(1));

const TWO: Status = Status::Present(Datum::Int(2));

const THREE: Status = Status::Present(Datum::Int(3));

const YES: Status = Status::Present(Datum::Bool(true));

const NO: Status = Status::Present(Datum::Bool(false));

const NIL: Status = Status::Present(Datum::Nil);

const DIVISION: &str =
    "node main(x: int) returns (z: int); var y: int; p: int; let y = 1 div x; p = pre y; z = 0 -> p; tel";

const HELD_SAMPLE: &str =
    "node main(x: int) returns (y: int; z: int); var c: bool; s: int when c; let c = true -> not pre c; s = x when c; y = current s; z = merge c (true -> s) (false -> 0 when not c); tel";

const ANSWERS: &[(&str, ColumnsOf, Want)] = &[
    (
        DIVISION,
        (2, &[("x", &[Datum::Int(1), Datum::Int(2)])]),
        Want::Streams(&[&[ONE, TWO], &[ZERO, ONE], &[ONE, ZERO], &[NIL, ONE]]),
    ),
    (
        DIVISION,
        (2, &[("x", &[Datum::Int(1), Datum::Int(0)])]),
        Want::Fault(EvalError::Fault {
            variable: 2,
            instant: 1,
            kind: FaultKind::DivZero,
        }),
    ),
    (
        HELD_SAMPLE,
        (3, &[("x", &[Datum::Int(1), Datum::Int(2), Datum::Int(3)])]),
        Want::Streams(&[
            &[ONE, TWO, THREE],
            &[ONE, ONE, THREE],
            &[ONE, ZERO, THREE],
            &[YES, NO, YES],
            &[ONE, Status::Absent, THREE],
        ]),
    ),
];

#[test]
fn a_program_has_its_streams_or_its_first_fault(rt: HostRuntime) {
    for (text, table, want) in ANSWERS {
        assert!(rt; is_answered(rt.alloc(), text, *table, *want), "{text}");
    }
}

const SAMPLES: &str =
    "node main(x: int; c: bool) returns (y: int); let y = if c then x else - x; tel";

const ONE_TWICE: &[Datum] = &[Datum::Int(1), Datum::Int(1)];

const ONES: (&str, &[Datum]) = ("x", ONE_TWICE);

const TRUTHS: (&str, &[Datum]) = ("c", &[Datum::Bool(true), Datum::Bool(true)]);

const TABLES: &[(ColumnsOf, Option<bool>)] = &[
    ((2, &[ONES, TRUTHS]), Some(true)),
    // by names
    ((2, &[TRUTHS, ONES]), Some(false)),
    ((2, &[ONES]), Some(false)),
    ((2, &[ONES, TRUTHS, TRUTHS]), Some(false)),
    // by types
    ((2, &[ONES, ("c", ONE_TWICE)]), Some(false)),
    (
        (2, &[("x", &[Datum::Nil, Datum::Nil]), TRUTHS]),
        Some(false),
    ),
    // a column has a value for each instant
    ((2, &[ONES, ("c", &[Datum::Bool(true)])]), None),
];

/// Whether a table fits a program so.
fn fits_so(
    alloc: Global,
    flat: &Flat,
    table: ColumnsOf,
    want: Option<bool>,
) -> Result<bool, AllocError> {
    match inputs_of(alloc, table)? {
        Some(inputs) => Ok(want == Some(inputs.fits(flat))),
        None => Ok(want.is_none()),
    }
}

/// Whether a table fits the program `SAMPLES`, as is wanted.
fn fits_samples(alloc: Global, table: ColumnsOf, want: Option<bool>) -> bool {
    match flat_of(alloc, SAMPLES) {
        Some(flat) => fits_so(alloc, &flat, table, want).unwrap_or(false),
        None => false,
    }
}

#[test]
fn a_table_fits_by_its_names_and_its_types(rt: HostRuntime) {
    for (table, want) in TABLES {
        assert!(rt; fits_samples(rt.alloc(), *table, *want), "{table:?}");
    }
}

/// Outputs `y` with these statuses, where they are outputs.
fn outputs(alloc: Global, columns: &[&[Status]]) -> Result<Option<Outputs>, AllocError> {
    let mut all = Vec::new(alloc);
    for statuses in columns {
        all.push((
            String::from_str(alloc, "y")?,
            Vec::from_slice(alloc, *statuses)?,
        ))?;
    }
    Ok(Outputs::new(all))
}

/// Whether these are two columns, of which the second is `y`, absent and then 1.
fn are_two(columns: &[(String, Vec<Status>)]) -> bool {
    match columns {
        [_, (name, statuses)] => name.as_str() == "y" && statuses.as_slice() == COLUMN,
        _ => false,
    }
}

const COLUMN: &[Status] = &[Status::Absent, ONE];

const NO_OUTPUTS: &[&[&[Status]]] = &[&[], &[COLUMN, &[YES]], &[&[YES], COLUMN]];

#[test]
fn outputs_have_one_length_and_keep_their_columns(rt: HostRuntime) -> Result<(), Fail> {
    for columns in NO_OUTPUTS {
        assert!(rt; outputs(rt.alloc(), columns)?.is_none(), "{columns:?}");
    }
    let kept = outputs(rt.alloc(), &[COLUMN, COLUMN])?;
    assert!(rt; kept.is_some_and(|kept| are_two(kept.columns())));
    Ok(())
}

/// Whether the table of these outputs of a flat program is written so.
fn is_written_of(
    alloc: Global,
    flat: &Flat,
    columns: &[&[Status]],
    text: &str,
) -> Result<bool, AllocError> {
    match outputs(alloc, columns)? {
        Some(outputs) => Ok(write_outputs(alloc, flat, &outputs)?.as_str() == text),
        None => Ok(false),
    }
}

/// Whether the outputs of a program are written as this text.
fn is_written(alloc: Global, program: &str, columns: &[&[Status]], text: &str) -> bool {
    match flat_of(alloc, program) {
        Some(flat) => is_written_of(alloc, &flat, columns, text).unwrap_or(false),
        None => false,
    }
}

#[test]
fn nil_is_written_too(rt: HostRuntime) {
    let columns = [[NIL, Status::Absent, NO].as_slice(), &[ZERO, NIL, YES]];
    let text = "y,y\nnil,0\n-,nil\nfalse,true\n";
    assert!(rt;
        is_written(
            rt.alloc(),
            "node main(x: int) returns (y: int; b: bool); let y = x; b = true; tel",
            &columns,
            text
        )
    );
}

#[test]
fn names_are_written_as_their_types_spell_them(rt: HostRuntime) {
    let program =
        "type t = enum { Up, Down }; type u = enum { Left, Right }; node main(m: t; n: u) returns (y: t; z: u); let y = m; z = n; tel";
    let columns = [
        [FIRST, Status::Absent, SECOND].as_slice(),
        &[SECOND, NIL, FIRST],
    ];
    let text = "y,y\nUp,Right\n-,nil\nDown,Left\n";
    assert!(rt; is_written(rt.alloc(), program, &columns, text));
}
