//! The entries of a placement, looked up by name.

ghost use Rattle.std.specs.Prelude.{◌≡◌, map, find, slice_get, option_map, IfOk};
ghost use Rattle.std.specs.Str.{bytes_eq};
ghost use Rattle.luplace.specs.Placing.{sites_put, entry_names, variable_names};

use lubase::Places;
use luflow::Variable;
use luplace_file::{Place, Placed};
use std::alloc::{AllocError, Global};

/// The table of the names of the main variables.
pub fn variable_places<'a>(
    alloc: Global,
    variables: &'a [Variable],
) -> Result<Places<'a>, AllocError>
    ensures { IfOk result (λ places. places ≡ variable_names variables.now) }
{
    let mut names = Vec::with_capacity(alloc, variables.len())?;
    for variable in variables {
        names.push_reserved(variable.name.as_str());
    }
    Places::new(alloc, names)
}

/// The table of the names of the entries.
pub fn entry_places<'a>(alloc: Global, entries: &'a [Placed]) -> Result<Places<'a>, AllocError>
    ensures { IfOk result (λ places. places ≡ entry_names entries.now) }
{
    let mut names = Vec::with_capacity(alloc, entries.len())?;
    for entry in entries {
        names.push_reserved(entry.variable.as_str());
    }
    Places::new(alloc, names)
}

fn entry_at(entries: &[Placed], place: usize) -> Option<&Placed>
    ensures { option_map (λ entry. entry.now) result ≡ slice_get entries.now place }
{
    if place < entries.len() {
        Some(&entries[place])
    } else {
        None
    }
}

/// The first entry of a name.
fn entry_of<'a>(entries: &'a [Placed], places: &Places<'_>, variable: &str) -> Option<&'a Placed>
    requires { places.now ≡ entry_names entries.now }
    ensures { option_map (λ entry. entry.now) result ≡ find
        (λ entry. bytes_eq entry.variable variable.now) entries.now }
{
    match places.find(variable) {
        Some(place) => entry_at(entries, place),
        None => None,
    }
}

/// The sites at which a placement puts a variable, given the table of its entries.
pub fn sites_put<'a>(place: &'a Place, places: &Places<'_>, variable: &str) -> &'a [u8]
    requires { places.now ≡ entry_names place.now.place }
    ensures { result.now ≡ sites_put place.now variable.now }
{
    match entry_of(place.entries(), places, variable) {
        Some(entry) => entry.sites.as_slice(),
        None => place.default_sites(),
    }
}
