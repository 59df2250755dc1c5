//! What is put out of a block: statuses at its instants.

ghost use Rattle.std.specs.Prelude.{if◌then◌else◌, ◌≡◌, ◌≤◌, ◌<◌, ◌+◌, ◌++◌, ◌∷◌, [], length, false, IfOk, IfSome, Some, slice_get};
ghost use Rattle.luflow.specs.declared.data.Status.{Status};
ghost use Rattle.luflow.specs.Streams.{is_value};
ghost use Rattle.lublock_kernels.specs.Machine.{row_of};
ghost use Rattle.lueval_lines.specs.Frames.{has_value};
ghost use Rattle.lublock_kernels.specs.Blocks.{datum_at};
ghost use Rattle.luflow.specs.Variables.{is_output};
ghost use Rattle.lublock.specs.Shown.{IsAdded, IsShown, StaysNear, first_of, present_at, slow_at};

use crate::board::Board;
use lublock_kernels::forms::flow_of;
use lublock_kernels::rows::at;
use luflow::{Clock, Datum, Flat, Status};
use lutree::Kind;
use std::alloc::{AllocError, Global};
use std::mem;

/// The datum that a word of this type stands for; none for a name of no such number.
fn datum_for(kind: Kind, word: i64) -> Option<Datum>
    ensures { IfSome result (λ d. d ≡ datum_at kind word) }
{
    match kind {
        Kind::Int => Some(Datum::Int(word)),
        Kind::Bool => Some(Datum::Bool(word != 0)),
        Kind::Enum(_, _) => {
            if 0 <= word && word < 256 {
                Some(Datum::Name(word as u8))
            } else {
                None
            }
        }
    }
}

/// The datum of a row's tick, counted from 0.
fn datum_in(row: &[i64], kind: Kind, tick: usize) -> Option<Datum>
    requires { tick + 1 < length row.now }
    ensures { IfSome result (λ d. Status.Present d ≡ present_at kind row.now tick) }
{
    datum_for(kind, at(row, tick))
}

/// Whether a datum is this value.
fn is_value(value: Datum, datum: Datum) -> bool
    ensures { result ≡ is_value value datum }
{
    match (value, datum) {
        (Datum::Int(m), Datum::Int(n)) => m == n,
        (Datum::Bool(sign), Datum::Bool(b)) => sign == b,
        (Datum::Name(m), Datum::Name(n)) => m == n,
        _ => false,
    }
}

/// Whether a flow is present with this value.
fn has_value(value: Datum, status: Status) -> bool
    ensures { result ≡ has_value value status }
{
    match status {
        Status::Absent => false,
        Status::Present(datum) => is_value(value, datum),
    }
}

/// Puts the status of a flow at a tick, counted from 0; whether there is none.
fn push_tick(
    column: &mut Vec<Status>,
    row: &[i64],
    kind: Kind,
    tick: usize,
) -> Result<bool, AllocError>
    ensures { IfOk result (λ none. none ≡ false
        → column.new.items ≡ column.old.items ++ present_at kind row.now tick ∷ []) }
{
    if row.len() <= 1 || row.len() - 1 <= tick {
        return Ok(true);
    }
    match datum_in(row, kind, tick) {
        Some(datum) => {
            column.push(Status::Present(datum))?;
            Ok(false)
        }
        None => Ok(true),
    }
}

/// Puts the statuses of a flow that is always present; whether some isn't there.
fn push_base(
    column: &mut Vec<Status>,
    row: &[i64],
    kind: Kind,
    len: usize,
) -> Result<bool, AllocError>
    ensures { IfOk result (λ none. none ≡ false
        → IsAdded column.old.items column.new.items len (present_at kind row.now)) }
{
    for n in 0..len {
        if push_tick(column, row, kind, n)? {
            return Ok(true);
        }
    }
    Ok(false)
}

/// Puts the status of a flow at an instant at which its clock is true or not; whether there is none.
fn push_status(
    column: &mut Vec<Status>,
    row: &[i64],
    kind: Kind,
    on: bool,
    tick: usize,
) -> Result<bool, AllocError>
    ensures { IfOk result (λ none. none ≡ false
        → column.new.items ≡ column.old.items
        ++ (if on then present_at kind row.now tick else Status.Absent) ∷ []) }
{
    if on {
        return push_tick(column, row, kind, tick);
    }
    column.push(Status::Absent)?;
    Ok(false)
}

/// Puts the statuses of a flow that is present where another one has a value; whether some isn't there.
fn push_slow(
    column: &mut Vec<Status>,
    row: &[i64],
    kind: Kind,
    of: &[Status],
    value: Datum,
    t: usize,
    len: usize,
) -> Result<bool, AllocError>
    requires { t + len ≤ length of.now }
    ensures { IfOk result (λ none. none ≡ false
        → IsAdded column.old.items column.new.items len (slow_at kind row.now of.now value t)) }
{
    let mut tick = 0;
    for n in 0..len {
        let on = has_value(value, of[t + n]);
        if push_status(column, row, kind, on, tick)? {
            return Ok(true);
        }
        tick += on as usize;
    }
    Ok(false)
}

/// The column of this number.
fn column_of(columns: &[Vec<Status>], c: usize) -> Option<&Vec<Status>>
    ensures { IfSome result (λ column. slice_get columns.now c ≡ Some column.now) }
{
    columns.get(c)
}

/// The instant of the first status in a main variable's column, in a block from `t` on: what is no output has
/// the block's alone.
pub fn first_of(flat: &Flat, v: usize, t: usize) -> usize
    ensures first { result ≡ first_of flat.now v t }
    ensures before { result ≤ t }
{
    match flat.variables().get(v) {
        Some(x) if x.role.is_output() => 0,
        _ => t,
    }
}

/// Puts the statuses of a flow on this clock at the `len` instants from `t` on, behind those from instant
/// `first` on; whether some isn't there.
pub fn push_block(
    flat: &Flat,
    columns: &[Vec<Status>],
    column: &mut Vec<Status>,
    first: usize,
    row: &[i64],
    kind: Kind,
    clock: Clock,
    t: usize,
    len: usize,
) -> Result<bool, AllocError>
    ensures { IfOk result (λ none. none ≡ false
        → IsShown flat.now columns.now first kind row.now clock t len column.old.items
        column.new.items) }
{
    if first > t || column.len() != t - first {
        return Ok(true);
    }
    match clock {
        Clock::Base => push_base(column, row, kind, len),
        Clock::On(c, value) => match column_of(columns, c) {
            Some(of) => {
                let before = t - first_of(flat, c, t);
                if before <= of.len() && of.len() - before == len {
                    push_slow(column, row, kind, of.as_slice(), value, before, len)
                } else {
                    Ok(true)
                }
            }
            None => Ok(true),
        },
    }
}

/// The row of a flow.
fn row_at(rows: &[Vec<i64>], r: usize) -> Option<&[i64]>
    ensures { IfSome result (λ row. row.now ≡ row_of rows.now r) }
{
    match rows.get(r) {
        Some(row) => Some(row.as_slice()),
        None => None,
    }
}

/// Puts the statuses of a main variable at a block's instants at its column's end; whether some isn't there.
pub fn show(
    alloc: Global,
    flat: &Flat,
    board: &Board,
    columns: &mut Vec<Vec<Status>>,
    t: usize,
    len: usize,
    v: usize,
) -> Result<bool, AllocError>
    ensures len { IfOk result (λ none. none ≡ false
        → length columns.new.items ≡ length columns.old.items) }
    ensures near { IfOk result (λ none. none ≡ false
        → StaysNear flat.now t len board.now (λ r. r ≡ v) columns.old.items columns.new.items) }
{
    flat.recall_invariant();
    let Some(flow) = flow_of(flat, v) else {
        return Ok(true);
    };
    let Some(row) = row_at(board.rows.as_slice(), v) else {
        return Ok(true);
    };
    if columns.len() <= v {
        return Ok(true);
    }
    let mut column = mem::replace(&mut columns[v], Vec::new(alloc));
    let first = first_of(flat, v, t);
    let taken = columns.as_slice();
    if push_block(
        flat,
        taken,
        &mut column,
        first,
        row,
        flow.kind,
        flow.clock,
        t,
        len,
    )? {
        return Ok(true);
    }
    columns[v] = column;
    Ok(false)
}
