//! Cycles of sites.

ghost use Rattle.std.specs.Prelude.{◌≡◌, ◌<◌, ◌++◌, ◌∷◌, [], true, map, length, slice_index_or, false, IfOk, OnOk};
ghost use Rattle.luworld.specs.Needs.{sites_of};
ghost use Rattle.luplace_report.specs.Names.{Adds};
ghost use Rattle.luplace_report.specs.Cycles.{ends, feeds, AreFed, in_step, group_of, further_sites, site_list, cycle_text, cycle_cells, group_rows, cycle_rows};

use crate::cells::text_pair;
use crate::names::site_name;
use lubase::{Name, Row, reached};
use luplace::Plan;
use std::alloc::{AllocError, Global};

/// The sites at the ends of each link.
fn pairs_of(alloc: Global, plan: &Plan) -> Result<Vec<lubase::Link>, AllocError>
    ensures { IfOk result (λ pairs. pairs.items ≡ map ends plan.now.links) }
{
    let mut pairs = Vec::new(alloc);
    for link in plan.links() {
        pairs.push(lubase::Link {
            from: usize::from(link.from),
            to: usize::from(link.to),
        })?;
    }
    Ok(pairs)
}

/// For each site which sites it feeds. The time grows with the number of sites times the number of links.
pub fn fed_of(alloc: Global, plan: &Plan) -> Result<Vec<Row<bool>>, AllocError>
    ensures { IfOk result (λ fed. AreFed plan.now fed.items) }
{
    plan.recall_invariant();
    let sites = plan.sites().len();
    let pairs = pairs_of(alloc, plan)?;
    let mut fed = Vec::with_capacity(alloc, sites)?;
    for site in 0..sites {
        let marks = reached(alloc, sites, &[site], pairs.as_slice())?;
        fed.push(Row::new(marks))?;
    }
    Ok(fed)
}

fn is_marked(marks: &[bool], site: u8) -> bool
    ensures { result ≡ slice_index_or marks.now site false }
{
    match marks.get(usize::from(site)) {
        Some(mark) => *mark,
        None => false,
    }
}

/// Whether a site feeds another.
fn feeds(fed: &[Row<bool>], site: u8, other: u8) -> bool
    ensures { result ≡ feeds fed.now site other }
{
    match fed.get(usize::from(site)) {
        Some(marks) => is_marked(marks.as_slice(), other),
        None => false,
    }
}

/// Whether two sites feed each other.
fn in_step(fed: &[Row<bool>], site: u8, other: u8) -> bool
    ensures { result ≡ in_step fed.now site other }
{
    feeds(fed, site, other) && feeds(fed, other, site)
}

/// Those sites of a number that feed a site and are fed by it, in order.
fn group_of(alloc: Global, count: u8, fed: &[Row<bool>], site: u8) -> Result<Vec<u8>, AllocError>
    ensures { IfOk result (λ group. group.items ≡ group_of count fed.now site) }
{
    let mut group = Vec::new(alloc);
    for other in 0..count {
        if in_step(fed, site, other) {
            group.push(other)?;
        }
    }
    Ok(group)
}

/// A comma and the name of a site, for each of these.
fn put_further(text: &mut String, names: &[Name], sites: &[u8]) -> Result<(), AllocError>
    ensures { Adds result text.old text.new (further_sites names.now sites.now) }
{
    for site in sites {
        let name = site_name(names, *site);
        write!(text, ", {name}")?;
    }
    Ok(())
}

/// The names of sites, with a comma between two.
fn put_list(text: &mut String, names: &[Name], sites: &[u8]) -> Result<(), AllocError>
    ensures { Adds result text.old text.new (site_list names.now sites.now) }
{
    match sites {
        [] => Ok(()),
        [first, rest @ ..] => {
            text.push_str(site_name(names, *first))?;
            put_further(text, names, rest)
        }
    }
}

/// What is said of sites that feed each other.
fn put_cycle(text: &mut String, names: &[Name], sites: &[u8]) -> Result<(), AllocError>
    ensures { Adds result text.old text.new (cycle_text names.now sites.now) }
{
    put_list(text, names, sites)?;
    text.push_str(" feed each other, and go in step")
}

/// The row of sites that feed each other.
fn cycle_cells(alloc: Global, names: &[Name], sites: &[u8]) -> Result<Row<Name>, AllocError>
    ensures { IfOk result (λ row. row ≡ cycle_cells names.now sites.now) }
{
    let mut text = String::new(alloc);
    put_cycle(&mut text, names, sites)?;
    text_pair(alloc, "cycle", text)
}

fn put_cells(
    rows: &mut Vec<Row<Name>>,
    alloc: Global,
    names: &[Name],
    sites: &[u8],
) -> Result<(), AllocError>
    ensures { OnOk result (rows.new.items ≡ rows.old.items
        ++ cycle_cells names.now sites.now ∷ []) }
{
    rows.push(cycle_cells(alloc, names, sites)?)?;
    Ok(())
}

/// Adds the row of a group of two sites or more, at its first site.
fn put_group(
    rows: &mut Vec<Row<Name>>,
    alloc: Global,
    names: &[Name],
    site: u8,
    group: &[u8],
) -> Result<(), AllocError>
    ensures { OnOk result (rows.new.items ≡ rows.old.items
        ++ group_rows names.now site group.now) }
{
    match group {
        [] => Ok(()),
        [_] => Ok(()),
        [first, _, ..] => {
            if *first == site {
                return put_cells(rows, alloc, names, group);
            }
            Ok(())
        }
    }
}

/// Adds the row of a site's group, at its first site.
fn put_group_of(
    rows: &mut Vec<Row<Name>>,
    alloc: Global,
    names: &[Name],
    fed: &[Row<bool>],
    count: u8,
    site: u8,
) -> Result<(), AllocError>
    ensures { OnOk result (rows.new.items ≡ rows.old.items
        ++ group_rows names.now site (group_of count fed.now site)) }
{
    let group = group_of(alloc, count, fed, site)?;
    put_group(rows, alloc, names, site, group.as_slice())
}

/// Adds a row for each group among a number of sites.
fn put_groups(
    rows: &mut Vec<Row<Name>>,
    alloc: Global,
    names: &[Name],
    fed: &[Row<bool>],
    count: u8,
) -> Result<(), AllocError>
    ensures { OnOk result (rows.new.items ≡ rows.old.items
        ++ cycle_rows names.now count fed.now) }
{
    for site in 0..count {
        put_group_of(rows, alloc, names, fed, count, site)?;
    }
    Ok(())
}

/// Adds a row for each group of sites that feed each other.
pub fn put_cycles(
    rows: &mut Vec<Row<Name>>,
    alloc: Global,
    plan: &Plan,
    fed: &[Row<bool>],
) -> Result<(), AllocError>
    ensures { OnOk result (rows.new.items ≡ rows.old.items
        ++ cycle_rows plan.now.names (sites_of plan.now) fed.now) }
{
    plan.recall_invariant();
    let names = plan.sites();
    let count = names.len() as u8;
    put_groups(rows, alloc, names, fed, count)
}
