//! One line of a table, read into columns.

ghost use Rattle.std.specs.Prelude.{◌≡◌, List, option_map, length};
ghost use Rattle.luflow.specs.declared.variable.Enum.{Enum as AnyEnum};
ghost use Rattle.luflow.specs.Packed.{data_in};
ghost use Rattle.luflow.specs.Tables.{columns_view};
ghost use Rattle.lutab.specs.Text.{sort_of};
ghost use Rattle.lutab.specs.Table.{sorts_in};
ghost use Rattle.lutab.specs.Reading.{skip, end_before, field_at, fields_at, row_at};
ghost use Rattle.lutab.specs.Filling.{FillsField, FillsRow};

use crate::error::LineError;
use crate::field;
use luflow::{Enum, Values};
use lutree::Kind;

/// What follows the byte.
fn expect(byte: u8, bytes: &[u8]) -> Option<&[u8]>
    ensures { option_map (λ x. x.now) result ≡ skip byte bytes.now }
{
    match bytes {
        [b, rest @ ..] if *b == byte => Some(rest),
        _ => None,
    }
}

/// What ends a field before those of these types.
fn end_of(later: &[Kind]) -> u8
    ensures { (types : List AnyEnum) → result ≡ end_before (sorts_in types later.now) }
{
    match later {
        [] => b'\n',
        [_, ..] => b',',
    }
}

/// Reads a field into its column. Answers what follows the byte that ends it.
#[tactic(auto, unfolding(crate::specs::Reading::field_at))]
fn read_field<'a>(
    types: &[Enum],
    kind: Kind,
    end: u8,
    column: &mut Values,
    bytes: &'a [u8],
) -> Result<&'a [u8], LineError>
    ensures { FillsField (data_in column.old) (data_in column.new) result
        (field_at (sort_of types.now kind) end bytes.now) }
{
    let Some((datum, tail)) = field::value(types, kind, bytes) else {
        return Err(LineError::Faulty);
    };
    let Some(rest) = expect(end, tail) else {
        return Err(LineError::Faulty);
    };
    column.push(datum)?;
    Ok(rest)
}

fn read_fields<'a>(
    types: &[Enum],
    kinds: &[Kind],
    columns: &mut [(String, Values)],
    bytes: &'a [u8],
) -> Result<&'a [u8], LineError>
    requires { length columns.old ≡ length kinds.now }
    ensures { FillsRow (columns_view columns.old) (columns_view columns.new) result
        (fields_at (sorts_in types.now kinds.now) bytes.now) }
{
    let mut rest = bytes;
    for i in 0..kinds.len() {
        let end = end_of(&kinds[i + 1..]);
        rest = read_field(types, kinds[i], end, &mut columns[i].1, rest)?;
    }
    Ok(rest)
}

/// Reads a line: each column gets its value, at its end. Answers what follows the line.
#[tactic(auto, unfolding(crate::specs::Reading::row_at))]
pub fn read_row<'a>(
    types: &[Enum],
    kinds: &[Kind],
    columns: &mut [(String, Values)],
    bytes: &'a [u8],
) -> Result<&'a [u8], LineError>
    requires { length columns.old ≡ length kinds.now }
    ensures { FillsRow (columns_view columns.old) (columns_view columns.new) result
        (row_at (sorts_in types.now kinds.now) bytes.now) }
{
    match kinds {
        [] => match expect(b'\n', bytes) {
            Some(rest) => Ok(rest),
            None => Err(LineError::Faulty),
        },
        [_, ..] => read_fields(types, kinds, columns, bytes),
    }
}
