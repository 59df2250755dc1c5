//! Statuses as the whole evaluator holds them: flat, in two words.

ghost use Rattle.std.specs.Prelude.{◌≡◌, slice_get, unwrap_or, false, Some};
ghost use Rattle.luflow.specs.Values.{gives};
ghost use Rattle.lueval_lines.specs.Frames.{datum_in, latest, clock_in};
ghost use Rattle.lueval_lines.specs.Cells.{status_of, statuses, held, last_in, ticked_in, clock_of, outcome_of, is_plain, is_absent, is_datum, is_name, number_of, is_sign, is_label, newest};

use crate::line::LineClock;
use luflow::{Datum, FaultKind, Outcome, Status};

/// A flow at one instant.
#[derive(Clone, Copy, Drop)]
pub enum Cell {
    /// The flow's clock is false.
    Absent,
    /// Present, and nil.
    Nil,
    /// Present, with a truth value.
    Truth(bool),
    /// Present, with a whole number.
    Number(i64),
    /// Present, with the name of this number of an enumeration.
    Name(u8),
}

/// What a flow's value is where its clock is true.
#[derive(Clone, Copy, Drop)]
pub enum Answer {
    /// The value of a present cell; an absent one stands for none.
    Gives(Cell),
    Faults(FaultKind),
    Stuck,
}

/// Whether a datum is a number or a truth value.
#[inline(always)]
fn is_plain(d: Datum) -> bool
    ensures { result ≡ is_plain d }
{
    match d {
        Datum::Int(_) => true,
        Datum::Bool(_) => true,
        Datum::Name(_) => false,
        Datum::Nil => false,
    }
}

/// The cell of a present datum; not by a match of four, for the reason that [`crate::operation`] gives.
#[inline(always)]
pub fn cell_of(d: Datum) -> Cell
    ensures { held result ≡ Some d }
{
    if is_plain(d) {
        return match d {
            Datum::Int(n) => Cell::Number(n),
            Datum::Bool(b) => Cell::Truth(b),
            _ => Cell::Absent,
        };
    }
    match d {
        Datum::Name(n) => Cell::Name(n),
        Datum::Nil => Cell::Nil,
        _ => Cell::Absent,
    }
}

/// Whether a cell is of no flow that is present.
#[inline(always)]
pub fn is_absent(cell: Cell) -> bool
    ensures { result ≡ is_absent cell }
{
    match cell {
        Cell::Absent => true,
        _ => false,
    }
}

/// Whether a cell holds a number, a truth value or a name.
#[inline(always)]
pub fn is_datum(cell: Cell) -> bool
    ensures { result ≡ is_datum cell }
{
    match cell {
        Cell::Absent => false,
        Cell::Nil => false,
        Cell::Truth(_) => true,
        Cell::Number(_) => true,
        Cell::Name(_) => true,
    }
}

/// Whether a cell holds a name.
#[inline(always)]
pub fn is_name(cell: Cell) -> bool
    ensures { result ≡ is_name cell }
{
    match cell {
        Cell::Name(_) => true,
        _ => false,
    }
}

/// The number of the name that a cell holds; 0 where it holds none.
#[inline(always)]
pub fn number_of(cell: Cell) -> u8
    ensures { result ≡ number_of cell }
{
    match cell {
        Cell::Name(n) => n,
        _ => 0,
    }
}

/// The status that a cell stands for; not by a match of four, for the reason that [`crate::operation`] gives.
#[inline(always)]
pub fn status(cell: Cell) -> Status
    ensures { result ≡ status_of cell }
{
    if is_datum(cell) {
        return match cell {
            Cell::Number(n) => Status::Present(Datum::Int(n)),
            Cell::Truth(b) => Status::Present(Datum::Bool(b)),
            Cell::Name(n) => Status::Present(Datum::Name(n)),
            _ => Status::Absent,
        };
    }
    if is_absent(cell) {
        Status::Absent
    } else {
        Status::Present(Datum::Nil)
    }
}

/// The outcome as an answer.
#[inline(always)]
pub fn answered(outcome: Outcome) -> Answer
    ensures { outcome_of result ≡ outcome }
{
    match outcome {
        Outcome::Gives(d) => Answer::Gives(cell_of(d)),
        Outcome::Faults(kind) => Answer::Faults(kind),
        Outcome::Stuck => Answer::Stuck,
    }
}

/// The cell of this place; absent where there is none.
#[inline(always)]
pub fn cell_at(shown: &[Cell], place: u16) -> Cell
    ensures { held result ≡ datum_in (statuses shown.now) place }
{
    match shown.get(place as usize).copied() {
        Some(cell) => cell,
        None => Cell::Absent,
    }
}

/// The last value of the flow of this place before now: nil before its first; absent where there is no such
/// place.
#[inline(always)]
pub fn last_at(lasts: &[Cell], place: u16) -> Cell
    ensures { held result ≡ last_in (slice_get lasts.now place) }
{
    match lasts.get(place as usize).copied() {
        Some(Cell::Absent) => Cell::Nil,
        Some(cell) => cell,
        None => Cell::Absent,
    }
}

/// Whether the clock of the flow of this place was true before.
#[inline(always)]
pub fn ticked_at(lasts: &[Cell], place: u16) -> Option<bool>
    ensures { result ≡ ticked_in (slice_get lasts.now place) }
{
    match lasts.get(place as usize).copied() {
        Some(Cell::Absent) => Some(false),
        Some(_) => Some(true),
        None => None,
    }
}

/// The last value up to now, from what is shown now and the last value before.
#[inline(always)]
pub fn newest(now: Cell, before: Cell) -> Cell
    ensures cell { result ≡ newest now before }
    ensures held { held result ≡ latest (held now) (held before) }
{
    match now {
        Cell::Absent => before,
        cell => cell,
    }
}

/// Whether a clock is true now.
#[inline(always)]
pub fn is_on(shown: &[Cell], clock: LineClock) -> bool
    ensures { result ≡ unwrap_or (clock_in (statuses shown.now) (clock_of clock)) false }
{
    match clock {
        LineClock::Base => true,
        LineClock::Truth(sign, c) => is_truth(cell_at(shown, c), sign),
        LineClock::Name(number, c) => is_label(cell_at(shown, c), number),
    }
}

/// Whether a cell is this truth value.
#[inline(always)]
fn is_truth(cell: Cell, sign: bool) -> bool
    ensures { result ≡ is_sign sign (held cell) }
{
    match cell {
        Cell::Truth(b) => b == sign,
        _ => false,
    }
}

/// Whether a cell is the name of this number.
#[inline(always)]
fn is_label(cell: Cell, number: u8) -> bool
    ensures { result ≡ is_label number (held cell) }
{
    match cell {
        Cell::Name(n) => n == number,
        _ => false,
    }
}
