//! The cells of a chart.

ghost use Rattle.std.specs.Prelude.{◌≡◌, option_map};
ghost use Rattle.luchart.specs.Pieces.{Adds};
ghost use Rattle.luchart.specs.Signals.{signal_view};
ghost use Rattle.luchart.specs.Chronogram.{mark_of, word_of, cell};

use crate::pieces::{put_copies, put_right};
use crate::signal::{Signal, status_at};
use lubase::Name;
use luflow::{Datum, Status};
use lutab::put_datum;
use lutree::Kind;
use std::alloc::AllocError;

/// The mark that fills a cell of a truth value: `#` where it is true, `_` where it is false, `.` where it is
/// absent.
pub fn mark_of(kind: Kind, status: Status) -> Option<&'static str>
    ensures { option_map (λ s. s.now) result ≡ mark_of kind status }
{
    match (kind, status) {
        (Kind::Bool, Status::Absent) => Some("."),
        (Kind::Bool, Status::Present(Datum::Bool(true))) => Some("#"),
        (Kind::Bool, Status::Present(Datum::Bool(false))) => Some("_"),
        _ => None,
    }
}

/// Adds any other value as tables have it, and `.` where there is none.
pub fn put_word(text: &mut String, names: &[Name], status: Status) -> Result<(), AllocError>
    ensures { Adds result text.old text.new (word_of names.now status) }
{
    match status {
        Status::Absent => text.push_str("."),
        Status::Present(datum) => put_datum(text, names, datum),
    }
}

/// Adds the cell of an instant. The scratch text is used up.
pub fn put_cell(
    text: &mut String,
    scratch: &mut String,
    width: usize,
    signal: &Signal<'_>,
    instant: usize,
) -> Result<(), AllocError>
    ensures { Adds result text.old text.new (cell width (signal_view signal.now) instant) }
{
    let status = status_at(signal, instant);
    match mark_of(signal.kind, status) {
        Some(mark) => put_copies(text, mark, width),
        None => {
            scratch.clear();
            put_word(scratch, signal.names, status)?;
            put_right(text, width, scratch)
        }
    }
}
