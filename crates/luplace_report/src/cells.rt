//! Rows of cells.

ghost use Rattle.std.specs.Fmt.{decimal};
ghost use Rattle.std.specs.Prelude.{◌≡◌, ◌++◌, ◌∷◌, [], IfOk, OnOk, string_bytes};

use lubase::{Name, Row};
use std::alloc::{AllocError, Global};

/// The cell of a number.
pub fn number_cell(alloc: Global, number: u128) -> Result<Name, AllocError>
    ensures { IfOk result (λ cell. cell ≡ decimal number) }
{
    let text = format!(in alloc; "{number}")?;
    Ok(Name::new(text))
}

/// Adds the cell of a number.
pub fn put_number(cells: &mut Vec<Name>, alloc: Global, number: u128) -> Result<(), AllocError>
    ensures { OnOk result (cells.new.items ≡ cells.old.items ++ decimal number ∷ []) }
{
    cells.push(number_cell(alloc, number)?)?;
    Ok(())
}

/// Adds a cell with this text.
pub fn put_text(cells: &mut Vec<Name>, alloc: Global, text: &str) -> Result<(), AllocError>
    ensures { OnOk result (cells.new.items ≡ cells.old.items ++ text.now ∷ []) }
{
    cells.push(Name::from_text(alloc, text)?)?;
    Ok(())
}

/// The row of two cells.
pub fn pair_of(alloc: Global, first: Name, second: String) -> Result<Row<Name>, AllocError>
    ensures { IfOk result (λ row. row ≡ first ∷ string_bytes second ∷ []) }
{
    let mut cells = Vec::with_capacity(alloc, 2)?;
    cells.push(first)?;
    cells.push(Name::new(second))?;
    Ok(Row::new(cells))
}

/// The row of two texts.
pub fn text_pair(alloc: Global, first: &str, second: String) -> Result<Row<Name>, AllocError>
    ensures { IfOk result (λ row. row ≡ first.now ∷ string_bytes second ∷ []) }
{
    pair_of(alloc, Name::from_text(alloc, first)?, second)
}
