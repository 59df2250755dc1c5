//! A chronogram: a row for each flow and a cell for each instant.

ghost use Rattle.std.specs.Prelude.{◌≡◌, ◌+◌, ◌*◌, ◌<◌, ◌^◌, IfOk, flat_map, string_bytes};
ghost use Rattle.std.specs.List.{range_with_len};
ghost use Rattle.luchart.specs.Pieces.{Adds};
ghost use Rattle.luchart.specs.Signals.{signal_view, signals_view};
ghost use Rattle.luchart.specs.Chronogram.{cell, row, number, numbers, head, rows, strip_length, gap, strip, strips, names, chart, chart_text, count_shown, IsLaidOut};

use crate::cell::put_cell;
use crate::layout::{Layout, layout_of, stride, strip_length};
use crate::pieces::{put_left, put_line, put_right};
use crate::signal::{Signal, instants_of, signals_of};
use luflow::{Enum, Outputs};
use lutree::Kind;
use std::alloc::{AllocError, Global};
use std::io::Write;

/// Adds the cells of a flow, for so many instants from this one on.
fn put_cells(
    text: &mut String,
    scratch: &mut String,
    width: usize,
    start: usize,
    count: usize,
    signal: &Signal<'_>,
) -> Result<(), AllocError>
    requires { start + count < 2 ^ 64 }
    ensures { Adds result text.old text.new (flat_map (cell width (signal_view signal.now))
        (range_with_len start count)) }
{
    for k in 0..count {
        put_cell(text, scratch, width, signal, start + k)?;
    }
    Ok(())
}

/// Adds the row of a flow, for so many instants from this one on.
fn put_row(
    text: &mut String,
    scratch: &mut String,
    layout: Layout,
    start: usize,
    count: usize,
    signal: &Signal<'_>,
) -> Result<(), AllocError>
    requires { start + count < 2 ^ 64 }
    ensures { Adds result text.old text.new (row layout start count (signal_view signal.now)) }
{
    put_left(text, layout.margin, signal.name)?;
    put_cells(text, scratch, layout.width, start, count, signal)?;
    text.push_str("\n")
}

/// Adds the rows of the flows.
fn put_rows(
    text: &mut String,
    scratch: &mut String,
    layout: Layout,
    start: usize,
    count: usize,
    signals: &[Signal<'_>],
) -> Result<(), AllocError>
    requires { start + count < 2 ^ 64 }
    ensures { Adds result text.old text.new (rows layout start count (signals_view signals.now)) }
{
    for signal in signals {
        put_row(text, scratch, layout, start, count, signal)?;
    }
    Ok(())
}

/// Adds the number of an instant at the right of so many columns.
fn put_number(
    text: &mut String,
    scratch: &mut String,
    width: usize,
    instant: usize,
) -> Result<(), AllocError>
    ensures { Adds result text.old text.new (number width instant) }
{
    scratch.clear();
    write!(scratch, "{instant}")?;
    put_right(text, width, scratch)
}

/// Adds the numbers behind that of the first instant, one each stride.
fn put_numbers(
    text: &mut String,
    scratch: &mut String,
    layout: Layout,
    start: usize,
    count: usize,
) -> Result<(), AllocError>
    requires layout { IsLaidOut layout }
    requires inside { start + count < 2 ^ 64 }
    requires some { 0 < count }
    ensures { Adds result text.old text.new (numbers layout start count) }
{
    let stride = stride(layout);
    let width = stride * layout.width;
    for k in 0..(count - 1) / stride {
        put_number(text, scratch, width, start + (k + 1) * stride)?;
    }
    Ok(())
}

/// Adds the row of instants.
fn put_head(
    text: &mut String,
    scratch: &mut String,
    layout: Layout,
    start: usize,
    count: usize,
) -> Result<(), AllocError>
    requires layout { IsLaidOut layout }
    requires inside { start + count < 2 ^ 64 }
    requires some { 0 < count }
    ensures { Adds result text.old text.new (head layout start count) }
{
    put_number(text, scratch, layout.margin + layout.width, start)?;
    put_numbers(text, scratch, layout, start, count)?;
    text.push_str("\n")
}

/// Adds what stands before strip k: an empty line where it isn't the first.
fn put_gap(text: &mut String, k: usize) -> Result<(), AllocError>
    ensures { Adds result text.old text.new (gap k) }
{
    if k > 0 {
        text.push_str("\n")?;
    }
    Ok(())
}

/// Adds strip k, of this length at most.
fn put_strip(
    text: &mut String,
    scratch: &mut String,
    layout: Layout,
    length: usize,
    signals: &[Signal<'_>],
    k: usize,
) -> Result<(), AllocError>
    requires layout { IsLaidOut layout }
    requires length { length ≡ strip_length layout }
    requires inside { k * length < layout.count }
    ensures { Adds result text.old text.new (strip layout (signals_view signals.now) k) }
{
    let before = k * length;
    let start = layout.first + before;
    let count = length.min(layout.count - before);
    put_gap(text, k)?;
    put_head(text, scratch, layout, start, count)?;
    put_rows(text, scratch, layout, start, count, signals)
}

/// Adds as many strips as the instants take.
fn put_strips(
    text: &mut String,
    scratch: &mut String,
    layout: Layout,
    signals: &[Signal<'_>],
) -> Result<(), AllocError>
    requires { IsLaidOut layout }
    ensures { Adds result text.old text.new (strips layout (signals_view signals.now)) }
{
    let length = strip_length(layout);
    let count = (layout.count - 1) / length + 1;
    for k in 0..count {
        put_strip(text, scratch, layout, length, signals, k)?;
    }
    Ok(())
}

/// Adds the names of the flows, a line each.
fn put_names(text: &mut String, signals: &[Signal<'_>]) -> Result<(), AllocError>
    ensures { Adds result text.old text.new (names (signals_view signals.now)) }
{
    for signal in signals {
        put_line(text, signal.name)?;
    }
    Ok(())
}

/// So many instants of flows, from the first on.
fn chart(
    alloc: Global,
    signals: &[Signal<'_>],
    first: usize,
    count: usize,
) -> Result<String, AllocError>
    requires { 0 < count → first + count < 2 ^ 64 }
    ensures { IfOk result (λ s. string_bytes s ≡ chart (signals_view signals.now) first count) }
{
    let mut text = String::new(alloc);
    if count == 0 {
        put_names(&mut text, signals)?;
        return Ok(text);
    }
    let mut scratch = String::new(alloc);
    let layout = layout_of(&mut scratch, signals, first, count)?;
    put_strips(&mut text, &mut scratch, layout, signals)?;
    Ok(text)
}

/// How many of so many instants are shown, from the first on, up to a last one where it is given.
fn count_shown(instants: usize, from: Option<u32>, to: Option<u32>) -> usize
    ensures { result ≡ count_shown instants from to }
{
    let end = match to {
        Some(to) => instants.min(to as usize + 1),
        None => instants,
    };
    end.saturating_sub(from.unwrap_or(0) as usize)
}

/// The chronogram of columns of these types, in a program with these enumerations, at the instants from one
/// to another, counted from 0, both of which are shown: a row for each column, under a row of the instants'
/// numbers, and a cell for each instant. Without the one it begins at instant 0, and without the other it
/// goes to the last; what lies beyond the last instant is left out, and where no instant is left the names
/// stand alone, a line each. It is cut into strips of 100 columns, as far as names and values leave that
/// open, with an empty line between two. The time grows with the text.
///
/// # Errors
///
/// `AllocError` where memory ran out.
pub fn chronogram(
    alloc: Global,
    types: &[Enum],
    kinds: &[Kind],
    columns: &Outputs,
    from: Option<u32>,
    to: Option<u32>,
) -> Result<String, AllocError>
    ensures exact { IfOk result (λ s. string_bytes s
        ≡ chart_text types.now kinds.now columns.now from to) }
{
    let columns = columns.columns();
    let signals = signals_of(alloc, types, kinds, columns)?;
    let count = count_shown(instants_of(columns), from, to);
    chart(alloc, &signals, from.unwrap_or(0) as usize, count)
}
