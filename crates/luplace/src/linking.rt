//! The links of a plan.

ghost use Rattle.std.specs.Prelude.{◌≡◌, ◌≤◌, ◌++◌, length, slice_index, IfOk};
ghost use Rattle.lubase.specs.Limits.{most_sites};
ghost use Rattle.luplace.specs.Marks.{marks_at, is_marked, sites_at, is_taken, some_links, links_below};

use crate::lookup::{first_of, row_at};
use crate::marking::{is_marked, stands_at};
use lubase::{Row, number_at};
use luworld::Link;
use std::alloc::{AllocError, Global};

fn is_marked_at(rows: &[Row<bool>], site: usize, place: usize) -> bool
    ensures { result ≡ is_marked (marks_at rows.now site) place }
{
    match rows.get(site) {
        Some(marks) => is_marked(marks.as_slice(), place),
        None => false,
    }
}

/// Whether a site takes a main variable: it needs it and doesn't compute it.
fn is_taken(
    rows: &[Row<bool>],
    owners: &[usize],
    placed: &[Row<u8>],
    variable: usize,
    site: u8,
) -> bool
    ensures { result ≡ is_taken rows.now owners.now placed.now variable site }
{
    is_marked_at(rows, usize::from(site), variable) && !stands_at(owners, placed, variable, site)
}

/// The site that sends a flow: the least of its sites.
pub fn home_of(owners: &[usize], placed: &[Row<u8>], place: usize) -> u8
    ensures { result ≡ slice_index (sites_at owners.now placed.now place) 0 }
{
    first_of(row_at(placed, number_at(owners, place)))
}

/// Adds the links of a main variable, in order of the receiving site.
fn push_links(
    links: &mut Vec<Link>,
    rows: &[Row<bool>],
    owners: &[usize],
    placed: &[Row<u8>],
    variable: usize,
) -> Result<(), AllocError>
    requires { length rows.now ≤ most_sites }
    ensures { IfOk result (λ _. links.new.items ≡ links.old.items
        ++ some_links rows.now owners.now placed.now variable (length rows.now)) }
{
    let count = rows.len() as u8;
    for site in 0..count {
        if is_taken(rows, owners, placed, variable, site) {
            let from = home_of(owners, placed, variable);
            links.push(Link {
                flow: variable,
                from,
                to: site,
            })?;
        }
    }
    Ok(())
}

/// The links of the main variables below a number, by that number and then by the receiving site.
pub fn links_of(
    alloc: Global,
    rows: &[Row<bool>],
    owners: &[usize],
    placed: &[Row<u8>],
    variables: usize,
) -> Result<Vec<Link>, AllocError>
    requires { length rows.now ≤ most_sites }
    ensures { IfOk result (λ links. links.items ≡ links_below rows.now owners.now placed.now
        variables) }
{
    let mut links = Vec::new(alloc);
    for variable in 0..variables {
        push_links(&mut links, rows, owners, placed, variable)?;
    }
    Ok(links)
}
