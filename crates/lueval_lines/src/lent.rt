//! The columns of inputs, lent.

ghost use Rattle.std.specs.Prelude.{◌≡◌, ℕ, List, Some, map, slice_get};
ghost use Rattle.std.specs.Option.{option_map};
ghost use Rattle.luflow.specs.Packed.{data_in};
ghost use Rattle.luflow.specs.Program.{data_of};
ghost use Rattle.luflow.specs.Tables.{columns_view};
ghost use Rattle.lueval_lines.specs.Cells.{held, input_of};
ghost use Rattle.lueval_lines.specs.Operations.{form_of};
ghost use Rattle.lueval_lines.specs.Works.{column_datum, lent_at};

use crate::cell::{Cell, cell_of};
use crate::line::{Line, column_of};
use luflow::{Datum, Values};

/// The columns of main inputs by number.
#[derive(Clone, Copy, Drop)]
pub enum Lent<'a> {
    /// Those of a whole table.
    Table(&'a [(String, Values)]),
    /// Those that one site has.
    Own(&'a [Option<Values>]),
}

/// The datum of column c of a table at instant t.
fn table_datum(columns: &[(String, Values)], c: usize, t: u32) -> Option<Datum>
    ensures { result ≡ slice_get (data_of (slice_get (columns_view columns.now) c)) t }
{
    match columns.get(c) {
        Some(column) => column.1.get(t as usize),
        None => None,
    }
}

/// The datum of column c at instant t, where the site has it.
fn own_datum(columns: &[Option<Values>], c: usize, t: u32) -> Option<Datum>
    ensures { result ≡ column_datum (slice_get (map (option_map data_in) columns.now) c) t }
{
    match columns.get(c) {
        Some(Some(values)) => values.get(t as usize),
        _ => None,
    }
}

/// What the columns give to input c at instant t.
#[inline(always)]
fn lent_datum(lent: Lent<'_>, c: u16, t: u32) -> Option<Datum>
    ensures { result ≡ lent_at lent.entry t c }
{
    match lent {
        Lent::Table(columns) => table_datum(columns, c as usize, t),
        Lent::Own(columns) => own_datum(columns, c as usize, t),
    }
}

/// The cell of the input that a line shows, where it shows one.
#[inline(always)]
pub fn given(line: &Line, lent: Lent<'_>, t: u32) -> Cell
    ensures { (branches : List ℕ) (c : ℕ) → input_of (form_of branches line.now.operation) ≡ Some c
        → held result ≡ lent_at lent.entry t c }
{
    match column_of(line) {
        Some(c) => match lent_datum(lent, c, t) {
            Some(d) => cell_of(d),
            None => Cell::Absent,
        },
        None => Cell::Absent,
    }
}
