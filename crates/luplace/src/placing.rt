//! Where a placement puts the variables of a program.

ghost use Rattle.std.specs.Prelude.{◌≡◌, ◌⊎◌, true, IfOk, IfErr};
ghost use Rattle.std.specs.Str.{bytes_eq};
ghost use Rattle.luflow.specs.Rank.{row};
ghost use Rattle.luplace.specs.Placing.{is_variable, are_known, are_somewhere, sites_put, placed_by, entry_names, variable_names, are_together, refusal};

use crate::lookup::row_at;
use crate::sought::{entry_places, sites_put, variable_places};
use lubase::{Places, Row, number_at};
use luflow::{Flat, Variable};
use luplace_file::{Place, PlaceError, Placed};
use std::alloc::{AllocError, Global};

fn is_variable(variables: &[Variable], places: &Places<'_>, name: &str) -> bool
    requires { places.now ≡ variable_names variables.now }
    ensures { result ≡ is_variable variables.now name.now }
{
    let _ = variables.len();
    places.find(name).is_some()
}

/// Whether all that is placed is a main variable.
fn are_known(variables: &[Variable], places: &Places<'_>, entries: &[Placed]) -> bool
    requires { places.now ≡ variable_names variables.now }
    ensures { result ≡ are_known variables.now entries.now }
{
    entries.iter().all(|entry| is_variable(variables, places, entry.variable.as_str()))
}

fn copied(alloc: Global, sites: &[u8]) -> Result<Row<u8>, AllocError>
    ensures { IfOk result (λ row. row ≡ sites.now) }
{
    Ok(Row::new(Vec::from_slice(alloc, sites)?))
}

/// The sites of each main variable, none where it has no entry and there is no default.
fn rows_of(
    alloc: Global,
    variables: &[Variable],
    place: &Place,
    places: &Places<'_>,
) -> Result<Vec<Row<u8>>, AllocError>
    requires { places.now ≡ entry_names place.now.place }
    ensures { IfOk result (λ rows. rows.items ≡ placed_by variables.now place.now) }
{
    let mut rows = Vec::with_capacity(alloc, variables.len())?;
    for variable in variables {
        let sites = sites_put(place, places, variable.name.as_str());
        let row = copied(alloc, sites)?;
        rows.push_reserved(row);
    }
    Ok(rows)
}

/// Whether each row has a site.
fn are_somewhere(rows: &[Row<u8>]) -> bool
    ensures { result ≡ are_somewhere rows.now }
{
    rows.iter().all(|row| row.as_slice().len() > 0)
}

fn is_same(sites: &[u8], others: &[u8]) -> bool
    ensures { result ≡ bytes_eq sites.now others.now }
{
    sites == others
}

/// Whether each main variable stands where the first variable of its equation stands.
fn are_together(owners: &[usize], rows: &[Row<u8>]) -> bool
    ensures { result ≡ are_together owners.now rows.now }
{
    (0..rows.len()).all(|v| is_same(row_at(rows, number_at(owners, v)), row_at(rows, v)))
}

/// The sites of each main variable, or the refusal of the placement. Its work grows with the variables and
/// the entries.
pub fn placed_by(alloc: Global, flat: &Flat, place: &Place) -> Result<Vec<Row<u8>>, PlaceError>
    ensures accepted { IfOk result (λ _. refusal flat.now place.now ≡ None) }
    ensures rows { IfOk result (λ rows. rows.items ≡ placed_by flat.now.variables place.now) }
    ensures somewhere { IfOk result (λ rows. are_somewhere rows.items ≡ true) }
    ensures together { IfOk result (λ rows. are_together flat.now.owners rows.items ≡ true) }
    ensures refused { IfErr result (λ e. (e ≡ PlaceError.OutOfMemory)
        ⊎ (refusal flat.now place.now ≡ Some e)) }
{
    let variables = flat.variables();
    let names = variable_places(alloc, variables)?;
    if !are_known(variables, &names, place.entries()) {
        return Err(PlaceError::UnknownVariable);
    }
    let entries = entry_places(alloc, place.entries())?;
    let rows = rows_of(alloc, variables, place, &entries)?;
    if !are_somewhere(rows.as_slice()) {
        return Err(PlaceError::Unplaced);
    }
    if !are_together(flat.owners(), rows.as_slice()) {
        return Err(PlaceError::SplitCall);
    }
    Ok(rows)
}
