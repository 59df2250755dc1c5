//! The rules on what the keys of a placement say.

ghost use Rattle.std.specs.Prelude.{◌≡◌, ◌≤◌, true, IfOk, length, map};
ghost use Rattle.std.specs.List.{list_all};
ghost use Rattle.lubase.specs.Limits.{most_sites};
ghost use Rattle.luplace_file.specs.Answers.{Gives};
ghost use Rattle.luplace_file.specs.Draft.{IsDraft};
ghost use Rattle.luplace_file.specs.Rules.{is_known, is_capacity, is_site_count, is_in_range, all_differ, names_differ, are_sites, names_are_known, placed_at, size_of, stated, ruled};

use crate::choice::Version;
use crate::draft::{Draft, Wanted};
use crate::error::PlaceError;
use crate::names::{all_differ, are_sites, numbers_of};
use crate::place::{Place, Placed};
use lubase::limits::{MOST_CAPACITY, MOST_SITES};
use lubase::{Name, Row};
use std::alloc::{AllocError, Global};

fn is_known(version: Version) -> bool
    ensures { result ≡ is_known version }
{
    match version {
        Version::One => true,
        Version::Two => true,
        Version::Other => false,
    }
}

fn is_capacity(capacity: i64) -> bool
    ensures { result ≡ is_capacity capacity }
{
    capacity >= 1 && capacity <= MOST_CAPACITY as i64
}

fn is_site_count(count: usize) -> bool
    ensures { result ≡ is_site_count count }
{
    count >= 1 && count <= MOST_SITES
}

fn is_in_range(draft: &Draft) -> bool
    ensures { result ≡ is_in_range draft.now }
{
    is_known(draft.version)
        && is_capacity(draft.capacity)
        && is_site_count(draft.sites.as_slice().len())
}

/// Whether no entry names a site twice.
fn entries_differ(alloc: Global, place: &[Wanted]) -> Result<bool, AllocError>
    ensures { IfOk result (λ differ.
        differ ≡ list_all (λ wanted. all_differ wanted.sites) place.now) }
{
    for wanted in place {
        if !all_differ(alloc, wanted.sites.as_slice())? {
            return Ok(false);
        }
    }
    Ok(true)
}

fn names_differ(alloc: Global, draft: &Draft) -> Result<bool, AllocError>
    ensures { IfOk result (λ differ. differ ≡ names_differ draft.now) }
{
    Ok(
        all_differ(alloc, draft.sites.as_slice())?
            && all_differ(alloc, draft.default.as_slice())?
            && entries_differ(alloc, draft.place.as_slice())?,
    )
}

/// Whether every entry names sites that there are.
fn entries_are_known(sites: &[Name], place: &[Wanted]) -> bool
    ensures { result ≡ list_all (λ wanted. are_sites sites.now wanted.sites) place.now }
{
    place
        .iter()
        .all(|wanted| are_sites(sites, wanted.sites.as_slice()))
}

fn names_are_known(draft: &Draft) -> bool
    ensures { result ≡ names_are_known draft.now }
{
    are_sites(draft.sites.as_slice(), draft.default.as_slice())
        && entries_are_known(draft.sites.as_slice(), draft.place.as_slice())
}

fn placed_at(alloc: Global, sites: &[Name], wanted: &Wanted) -> Result<Placed, AllocError>
    requires { length sites.now ≤ most_sites }
    ensures { IfOk result (λ placed. placed ≡ placed_at sites.now wanted.now) }
{
    Ok(Placed {
        variable: wanted.variable.copied(alloc)?,
        sites: numbers_of(alloc, sites, wanted.sites.as_slice())?,
    })
}

/// Each variable at the sites that are named for it.
fn all_placed(alloc: Global, sites: &[Name], place: &[Wanted]) -> Result<Row<Placed>, AllocError>
    requires { length sites.now ≤ most_sites }
    ensures { IfOk result (λ entries. entries ≡ map (placed_at sites.now) place.now) }
{
    let mut entries = Vec::with_capacity(alloc, place.len())?;
    for wanted in place {
        entries.push(placed_at(alloc, sites, wanted)?)?;
    }
    Ok(Row::new(entries))
}

/// The number that a capacity is.
fn size_of(capacity: i64) -> u16
    requires { is_capacity capacity ≡ true }
    ensures { result ≡ size_of capacity }
{
    capacity as u16
}

/// What a draft says that keeps the rules.
fn stated(alloc: Global, draft: Draft) -> Result<Place, AllocError>
    requires drafted { IsDraft draft }
    requires in_range { is_in_range draft ≡ true }
    requires differ { names_differ draft ≡ true }
    requires known { names_are_known draft ≡ true }
    ensures { IfOk result (λ place. place ≡ stated draft) }
{
    let Draft {
        sites,
        default,
        capacity,
        place,
        ..
    } = draft;
    let default = numbers_of(alloc, sites.as_slice(), default.as_slice())?;
    let entries = all_placed(alloc, sites.as_slice(), place.as_slice())?;
    Ok(Place::of_parts(sites, default, size_of(capacity), entries))
}

/// The placement, if the draft keeps the rules; else the first that it breaks.
#[tactic(auto, unfolding(crate::specs::Rules::ruled))]
pub fn ruled(alloc: Global, draft: Draft) -> Result<Place, PlaceError>
    requires { IsDraft draft }
    ensures { Gives (ruled draft) result }
{
    if !is_in_range(&draft) {
        return Err(PlaceError::OutOfRange);
    }
    if !names_differ(alloc, &draft)? {
        return Err(PlaceError::DuplicateSite);
    }
    if !names_are_known(&draft) {
        return Err(PlaceError::UnknownSite);
    }
    Ok(stated(alloc, draft)?)
}
