//! The lines of a table behind its header.

ghost use Rattle.std.specs.Prelude.{◌≡◌, ◌<◌, ◌≤◌, length, List, ℕ, IfSome, count_by, position};
ghost use Rattle.lubase.specs.Limits.{longest_table};
ghost use Rattle.luflow.specs.Tables.{columns_view};
ghost use Rattle.luflow.specs.declared.variable.Enum.{Enum as AnyEnum};
ghost use Rattle.lutab.specs.Table.{sorts_in, is_feed, is_comma, has_other_count, is_bad_row, IsNoRow};
ghost use Rattle.lutab.specs.Filling.{ReadsLine, ReadsLines, AreFilled, IsReached, IsLineFault};

use crate::error::{LineError, TabError};
use crate::row::read_row;
use luflow::{Enum, Values};
use lutree::Kind;

fn line_end(bytes: &[u8]) -> Option<usize>
    ensures first { result ≡ position is_feed bytes.now }
    ensures within { IfSome result (λ i. i < length bytes.now) }
{
    bytes.iter().position(|b| *b == b'\n')
}

fn commas(line: &[u8]) -> usize
    ensures { result ≡ count_by is_comma line.now }
{
    line.iter().filter(|b| **b == b',').count()
}

fn has_other_count(fields: usize, line: &[u8]) -> bool
    ensures { result ≡ has_other_count fields line.now }
{
    if fields == 0 {
        !line.is_empty()
    } else {
        commas(line) != fields - 1
    }
}

/// Whether the first line isn't ended or has another number of fields.
#[tactic(auto, unfolding(crate::specs::Table::is_bad_row))]
fn is_bad_row(fields: usize, bytes: &[u8]) -> bool
    ensures { result ≡ is_bad_row fields bytes.now }
{
    match line_end(bytes) {
        None => true,
        Some(end) => has_other_count(fields, &bytes[..end]),
    }
}

/// The refusal of the line with this number, which begins the bytes and is no row.
fn fault_of(kinds: &[Kind], line: usize, bytes: &[u8]) -> TabError
    ensures { (types : List AnyEnum) (body : List ℕ) → IsNoRow (sorts_in types kinds.now) bytes.now
        → IsReached (sorts_in types kinds.now) body line bytes.now
        → IsLineFault (sorts_in types kinds.now) body result }
{
    if is_bad_row(kinds.len(), bytes) {
        TabError::BadRow { line }
    } else {
        TabError::BadValue { line }
    }
}

/// Reads a line into the columns, by what it spells.
fn read_line<'a>(
    types: &[Enum],
    kinds: &[Kind],
    columns: &mut [(String, Values)],
    bytes: &'a [u8],
) -> Result<&'a [u8], LineError>
    requires { length columns.old ≡ length kinds.now }
    ensures { ReadsLine (sorts_in types.now kinds.now) bytes.now (columns_view columns.old)
        (columns_view columns.new) result }
{
    read_row(types, kinds, columns, bytes)
}

/// Reads all lines, each into the columns. Answers how many there are.
pub fn read_rows(
    types: &[Enum],
    kinds: &[Kind],
    columns: &mut [(String, Values)],
    bytes: &[u8],
) -> Result<usize, TabError>
    requires empty { AreFilled 0 (sorts_in types.now kinds.now) (columns_view columns.old) }
    requires short { length bytes.now ≤ longest_table }
    ensures { ReadsLines (sorts_in types.now kinds.now) bytes.now (columns_view columns.old)
        (columns_view columns.new) result }
{
    let mut rest = bytes;
    let mut instants: usize = 0;
    while !rest.is_empty() {
        match read_line(types, kinds, columns, rest) {
            Ok(after) => rest = after,
            Err(LineError::OutOfMemory) => return Err(TabError::OutOfMemory),
            Err(LineError::Faulty) => return Err(fault_of(kinds, instants + 2, rest)),
        }
        instants += 1;
    }
    Ok(instants)
}
