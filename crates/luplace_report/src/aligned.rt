//! Tables for a terminal, whose columns are aligned by blanks.

ghost use Rattle.std.specs.Prelude.{◌≡◌, ◌<◌, IfOk, length, replicate};
ghost use Rattle.luplace_report.specs.Names.{Adds};
ghost use Rattle.luplace_report.specs.Aligned.{cell_at, width, columns_of, widths_of, padded, piece, pieces, line, lines, aligned};

use lubase::{Name, Row, number_at};
use std::alloc::{AllocError, Global};

/// The cell of a row in a column, and nothing past the end.
fn cell_at(row: &[Name], column: usize) -> &str
    ensures { result.now ≡ cell_at row.now column }
{
    match row.get(column) {
        Some(cell) => cell.as_str(),
        None => "",
    }
}

/// How long the cell of a row in a column is.
fn cell_len(row: &Row<Name>, column: usize) -> usize
    ensures { result ≡ length (cell_at row.now column) }
{
    cell_at(row.as_slice(), column).len()
}

/// How wide a column is: as its longest cell.
fn width(rows: &[Row<Name>], column: usize) -> usize
    ensures { result ≡ width rows.now column }
{
    rows.iter()
        .fold(0, |most, row| most.max(cell_len(row, column)))
}

/// How many columns there are.
fn columns_of(rows: &[Row<Name>]) -> usize
    ensures { result ≡ columns_of rows.now }
{
    match rows {
        [] => 0,
        [first, ..] => first.as_slice().len(),
    }
}

/// The widths of all columns.
fn widths_of(alloc: Global, rows: &[Row<Name>]) -> Result<Vec<usize>, AllocError>
    ensures { IfOk result (λ widths. widths.items ≡ widths_of rows.now) }
{
    let mut widths = Vec::new(alloc);
    for column in 0..columns_of(rows) {
        widths.push(width(rows, column))?;
    }
    Ok(widths)
}

/// Adds so many blanks.
fn put_blanks(text: &mut String, count: usize) -> Result<(), AllocError>
    ensures { Adds result text.old text.new (replicate count 32) }
{
    for _ in 0..count {
        text.push_str(" ")?;
    }
    Ok(())
}

/// Adds a cell, blanks up to the width of its column, and two more.
fn put_padded(text: &mut String, width: usize, cell: &str) -> Result<(), AllocError>
    ensures { Adds result text.old text.new (padded width cell.now) }
{
    text.push_str(cell)?;
    put_blanks(text, width.saturating_sub(cell.len()))?;
    text.push_str("  ")
}

/// Adds the cell of a row in a column, with blanks behind it unless it is the last.
fn put_piece(
    text: &mut String,
    widths: &[usize],
    row: &[Name],
    column: usize,
) -> Result<(), AllocError>
    requires { column < length row.now }
    ensures { Adds result text.old text.new (piece widths.now row.now column) }
{
    let cell = cell_at(row, column);
    let count = row.len();
    if column + 1 < count {
        return put_padded(text, number_at(widths, column), cell);
    }
    text.push_str(cell)
}

/// Adds the cells of a row.
fn put_pieces(text: &mut String, widths: &[usize], row: &[Name]) -> Result<(), AllocError>
    ensures { Adds result text.old text.new (pieces widths.now row.now) }
{
    for column in 0..row.len() {
        put_piece(text, widths, row, column)?;
    }
    Ok(())
}

/// Adds the line of a row.
fn put_line(text: &mut String, widths: &[usize], row: &[Name]) -> Result<(), AllocError>
    ensures { Adds result text.old text.new (line widths.now row.now) }
{
    put_pieces(text, widths, row)?;
    text.push_str("\n")
}

/// Adds a line for each of these rows.
fn put_lines(text: &mut String, widths: &[usize], rows: &[Row<Name>]) -> Result<(), AllocError>
    ensures { Adds result text.old text.new (lines widths.now rows.now) }
{
    for row in rows {
        put_line(text, widths, row.as_slice())?;
    }
    Ok(())
}

/// Adds a table: a line for each row, its columns as wide as their longest cells. The time grows with the
/// length of what is added, and the number of cells.
///
/// # Errors
///
/// Out of memory; part of the table may have been added.
pub fn put_aligned(text: &mut String, alloc: Global, rows: &[Row<Name>]) -> Result<(), AllocError>
    ensures { Adds result text.old text.new (aligned rows.now) }
{
    let widths = widths_of(alloc, rows)?;
    put_lines(text, widths.as_slice(), rows)
}
