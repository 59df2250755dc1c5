//! The names of sites: which are the same, and which sites they are of.

ghost use Rattle.std.specs.Prelude.{◌≡◌, ◌≤◌, ◌↔◌, IfOk, IsTrue, length, map};
ghost use Rattle.lubase.specs.Places.{first_place};
ghost use Rattle.lubase.specs.Limits.{most_sites};
ghost use Rattle.luplace_file.specs.Rules.{is_among, all_differ, are_sites, numbers_of};

use lubase::limits::MOST_SITES;
use lubase::{Name, Places, Row};
use std::alloc::{AllocError, Global};

/// Whether a name is one of these. Takes no memory.
fn is_among(names: &[Name], name: &str) -> bool
    ensures { result ≡ is_among names.now name.now }
{
    names.iter().any(|other| other.is(name))
}

/// Whether no two of the names are the same, found by comparing each with all later ones.
fn few_differ(names: &[Name]) -> bool
    ensures { result ≡ all_differ names.now }
{
    for i in 0..names.len() {
        if is_among(&names[i + 1..], names[i].as_str()) {
            return false;
        }
    }
    true
}

fn texts_of(alloc: Global, names: &[Name]) -> Result<Vec<&str>, AllocError>
    ensures { IfOk result (λ texts. map (λ text. text.now) texts.items ≡ names.now) }
{
    let mut texts = Vec::with_capacity(alloc, names.len())?;
    for name in names {
        texts.push(name.as_str())?;
    }
    Ok(texts)
}

/// Whether a name stands first at this place.
fn stands_first(places: &Places, name: &str, place: usize) -> bool
    ensures { IsTrue result ↔ first_place places.now name.now ≡ Some place }
{
    places.find(name) == Some(place)
}

/// Whether no two of the names are the same, by the table of them.
fn all_stand_first(places: &Places, names: &[Name]) -> bool
    requires { places.now ≡ names.now }
    ensures { result ≡ all_differ names.now }
{
    for i in 0..names.len() {
        if !stands_first(places, names[i].as_str(), i) {
            return false;
        }
    }
    true
}

/// Whether no two of the names are the same, found by a table of them.
fn many_differ(alloc: Global, names: &[Name]) -> Result<bool, AllocError>
    ensures { IfOk result (λ differ. differ ≡ all_differ names.now) }
{
    let places = Places::new(alloc, texts_of(alloc, names)?)?;
    Ok(all_stand_first(&places, names))
}

/// Whether no two of the names are the same. The expected time grows with their length.
pub fn all_differ(alloc: Global, names: &[Name]) -> Result<bool, AllocError>
    ensures { IfOk result (λ differ. differ ≡ all_differ names.now) }
{
    if names.len() <= MOST_SITES {
        Ok(few_differ(names))
    } else {
        many_differ(alloc, names)
    }
}

/// Whether each of the names is that of a site. Takes no memory.
pub fn are_sites(sites: &[Name], names: &[Name]) -> bool
    ensures { result ≡ are_sites sites.now names.now }
{
    names.iter().all(|name| is_among(sites, name.as_str()))
}

/// The numbers of the sites that are named, in order.
pub fn numbers_of(alloc: Global, sites: &[Name], names: &[Name]) -> Result<Row<u8>, AllocError>
    requires { length sites.now ≤ most_sites }
    ensures { IfOk result (λ numbers. numbers ≡ numbers_of sites.now names.now) }
{
    let mut numbers = Vec::new(alloc);
    for i in 0..sites.len() {
        if !is_among(names, sites[i].as_str()) {
            continue;
        }
        numbers.push(i as u8)?;
    }
    Ok(Row::new(numbers))
}
