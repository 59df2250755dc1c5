//! How a chart is laid out.

ghost use Rattle.std.specs.Prelude.{◌≡◌, ◌+◌, ◌-◌, ◌<◌, ◌≤◌, ◌^◌, IfOk, length};
ghost use Rattle.std.specs.Fmt.{decimal};
ghost use Rattle.luchart.specs.Signals.{signal_view, signals_view};
ghost use Rattle.luchart.specs.Chronogram.{breadth_at, cell_width, layout_of, room_for, row_breadth, strip_length, stride, widest_cell, widest_name, widest_row, IsLaidOut};

use crate::cell::{mark_of, put_word};
use crate::pieces::larger;
use crate::signal::{Signal, status_at};
use std::alloc::AllocError;
use std::io::Write;

/// The number of columns of a line, where its cells leave that open.
const LINE_WIDTH: usize = 100;

/// The most columns that a cell gets.
const WIDEST_CELL: usize = 40;

/// How a chart is laid out: it shows so many instants from the first on, in cells of this width behind names
/// in a margin.
#[derive(Clone, Copy)]
pub struct Layout {
    pub first: usize,
    pub count: usize,
    pub margin: usize,
    pub width: usize,
}

/// How many columns a word asks for: its own, and one for a blank.
fn room_for(word: &str) -> usize
    ensures room { result ≡ room_for word.now }
    ensures narrow { result ≤ widest_cell }
{
    if word.len() < WIDEST_CELL {
        word.len() + 1
    } else {
        WIDEST_CELL
    }
}

/// How many columns the cell of an instant asks for. The scratch text is used up.
fn breadth_at(
    scratch: &mut String,
    signal: &Signal<'_>,
    instant: usize,
) -> Result<usize, AllocError>
    ensures breadth { IfOk result (λ n. n ≡ breadth_at (signal_view signal.now) instant) }
    ensures narrow { IfOk result (λ n. n ≤ widest_cell) }
{
    let status = status_at(signal, instant);
    if mark_of(signal.kind, status).is_some() {
        return Ok(0);
    }
    scratch.clear();
    put_word(scratch, signal.names, status)?;
    Ok(room_for(scratch))
}

/// How many columns the widest of a flow's cells asks for.
fn row_breadth(
    scratch: &mut String,
    signal: &Signal<'_>,
    first: usize,
    count: usize,
) -> Result<usize, AllocError>
    requires { first + count < 2 ^ 64 }
    ensures breadth { IfOk result (λ n. n ≡ row_breadth first count (signal_view signal.now)) }
    ensures narrow { IfOk result (λ n. n ≤ widest_cell) }
{
    let mut widest = 0;
    for k in 0..count {
        widest = larger(widest, breadth_at(scratch, signal, first + k)?);
    }
    Ok(widest)
}

/// How many columns the widest of all cells asks for.
fn widest_row(
    scratch: &mut String,
    signals: &[Signal<'_>],
    first: usize,
    count: usize,
) -> Result<usize, AllocError>
    requires { first + count < 2 ^ 64 }
    ensures breadth { IfOk result (λ n. n ≡ widest_row first count (signals_view signals.now)) }
    ensures narrow { IfOk result (λ n. n ≤ widest_cell) }
{
    let mut widest = 0;
    for signal in signals {
        widest = larger(widest, row_breadth(scratch, signal, first, count)?);
    }
    Ok(widest)
}

/// How many columns the longest name asks for.
fn widest_name(signals: &[Signal<'_>]) -> usize
    ensures room { result ≡ widest_name (signals_view signals.now) }
    ensures narrow { result ≤ widest_cell }
{
    let mut widest = 0;
    for signal in signals {
        widest = larger(widest, room_for(signal.name));
    }
    widest
}

/// How many columns an instant's number asks for. The scratch text is used up.
fn room_for_number(scratch: &mut String, instant: usize) -> Result<usize, AllocError>
    ensures room { IfOk result (λ n. n ≡ room_for (decimal instant)) }
    ensures narrow { IfOk result (λ n. n ≤ widest_cell) }
    ensures some { IfOk result (λ n. 0 < n) }
{
    scratch.clear();
    write!(scratch, "{instant}")?;
    Ok(room_for(scratch))
}

/// The width of all cells: one column where all are marks.
fn cell_width(widest: usize, last: usize) -> usize
    requires some { 0 < last }
    ensures width { result ≡ cell_width widest last }
    ensures wide { 0 < result }
    ensures narrow { widest ≤ widest_cell → last ≤ widest_cell → result ≤ widest_cell }
{
    if widest == 0 { 1 } else { larger(widest, last) }
}

/// The layout of so many instants of flows, one at least, from the first on. The scratch text is used up.
pub fn layout_of(
    scratch: &mut String,
    signals: &[Signal<'_>],
    first: usize,
    count: usize,
) -> Result<Layout, AllocError>
    requires some { 0 < count }
    requires inside { first + count < 2 ^ 64 }
    ensures layout { IfOk result (λ x. x ≡ layout_of (signals_view signals.now) first count) }
    ensures laid_out { IfOk result IsLaidOut }
{
    let last = room_for_number(scratch, first + (count - 1))?;
    let widest = widest_row(scratch, signals, first, count)?;
    Ok(Layout {
        first,
        count,
        margin: larger(last, widest_name(signals)),
        width: cell_width(widest, last),
    })
}

/// How many instants there are from one number above the row to the next.
pub fn stride(layout: Layout) -> usize
    ensures stride { result ≡ stride layout }
    ensures some { 0 < result }
    ensures few { result ≤ 10 }
{
    if layout.width == 1 { 10 } else { 1 }
}

/// How many instants a strip has.
pub fn strip_length(layout: Layout) -> usize
    requires { IsLaidOut layout }
    ensures length { result ≡ strip_length layout }
    ensures some { 0 < result }
{
    let stride = stride(layout);
    larger(
        1,
        (LINE_WIDTH - layout.margin) / layout.width / stride * stride,
    )
}
