//! The report as tables for a terminal.

ghost use Rattle.std.specs.List.{range_with_len};
ghost use Rattle.std.specs.Prelude.{◌≡◌, ◌++◌, ◌∷◌, [], map, length, IfOk, OnOk, slice_get, string_bytes};
ghost use Rattle.luworld.specs.Needs.{sites_of};
ghost use Rattle.luplace_report.specs.Aligned.{aligned};
ghost use Rattle.luplace_report.specs.Names.{Adds, clock_of};
ghost use Rattle.luplace_report.specs.Table.{received_count, sent_count, item_count, site_cells, site_head, site_rows, clock_cell, link_cells, cells_of, link_head, link_rows, reason, cause_text, cause_cells, cause_head, cause_rows, run_rows, rest_text, table_text, IsTableOf};

use crate::aligned::put_aligned;
use crate::cause::{Cause, cause_of};
use crate::cells::{number_cell, pair_of, put_number, put_text};
use crate::cycles::{fed_of, put_cycles};
use crate::names::{clock_of, owner_name, put_clock, site_name};
use crate::way::{put_crew, way_cells};
use lubase::{Name, Row};
use luflow::{Clock, Flat};
use luplace::{Link, Plan, Way, way_of};
use std::alloc::{AllocError, Global};

/// How many links a site receives from.
fn received_count(plan: &Plan, site: u8) -> usize
    ensures { result ≡ received_count plan.now site }
{
    plan.links().iter().filter(|link| link.to == site).count()
}

/// How many links a site sends over.
fn sent_count(plan: &Plan, site: u8) -> usize
    ensures { result ≡ sent_count plan.now site }
{
    plan.links().iter().filter(|link| link.from == site).count()
}

/// How many items a site does at an instant at which all clocks are true.
fn item_count(plan: &Plan, site: u8) -> u128
    ensures { result ≡ item_count plan.now site }
{
    plan.flow_count(site) as u128
        + received_count(plan, site) as u128
        + sent_count(plan, site) as u128
}

/// A site's name, its flows and its items.
fn site_cells(alloc: Global, plan: &Plan, site: u8) -> Result<Row<Name>, AllocError>
    ensures { IfOk result (λ row. row ≡ site_cells plan.now site) }
{
    let mut cells = Vec::with_capacity(alloc, 3)?;
    put_text(&mut cells, alloc, site_name(plan.sites(), site))?;
    put_number(&mut cells, alloc, plan.flow_count(site) as u128)?;
    put_number(&mut cells, alloc, item_count(plan, site))?;
    Ok(Row::new(cells))
}

fn site_head(alloc: Global) -> Result<Row<Name>, AllocError>
    ensures { IfOk result (λ row. row ≡ site_head) }
{
    let mut cells = Vec::with_capacity(alloc, 3)?;
    put_text(&mut cells, alloc, "site")?;
    put_text(&mut cells, alloc, "flows")?;
    put_text(&mut cells, alloc, "items")?;
    Ok(Row::new(cells))
}

fn put_sites(rows: &mut Vec<Row<Name>>, alloc: Global, plan: &Plan) -> Result<(), AllocError>
    ensures { OnOk result (rows.new.items ≡ rows.old.items ++ map (site_cells plan.now)
        (range_with_len 0 (sites_of plan.now))) }
{
    plan.recall_invariant();
    let count = plan.sites().len() as u8;
    for site in 0..count {
        rows.push(site_cells(alloc, plan, site)?)?;
    }
    Ok(())
}

/// Adds the table of the sites.
fn put_site_table(text: &mut String, alloc: Global, plan: &Plan) -> Result<(), AllocError>
    ensures { Adds result text.old text.new (aligned (site_rows plan.now)) }
{
    let mut rows = Vec::new(alloc);
    rows.push(site_head(alloc)?)?;
    put_sites(&mut rows, alloc, plan)?;
    put_aligned(text, alloc, rows.as_slice())
}

/// `c`, `not c` or `A(c)`, or `-` for the base clock.
fn put_clock_cell(text: &mut String, flat: &Flat, clock: Clock) -> Result<(), AllocError>
    ensures { Adds result text.old text.new (clock_cell flat.now clock) }
{
    match clock {
        Clock::Base => text.push_str("-"),
        Clock::On(_, _) => put_clock(text, flat, clock),
    }
}

/// Adds the cell of the clock of a link's variable.
fn put_clock_of(
    cells: &mut Vec<Name>,
    alloc: Global,
    flat: &Flat,
    link: Link,
) -> Result<(), AllocError>
    ensures { OnOk result (cells.new.items ≡ cells.old.items
        ++ clock_cell flat.now (clock_of flat.now link.flow) ∷ []) }
{
    let mut text = String::new(alloc);
    put_clock_cell(&mut text, flat, clock_of(flat, link.flow))?;
    cells.push(Name::new(text))?;
    Ok(())
}

/// A link's number, its variable, the sites that send and receive, its clock, and how many messages pass at
/// an instant at most.
fn link_cells(
    alloc: Global,
    plan: &Plan,
    number: usize,
    link: Link,
) -> Result<Row<Name>, AllocError>
    ensures { IfOk result (λ row. row ≡ link_cells plan.now number link) }
{
    let flat = plan.flat();
    let mut cells = Vec::with_capacity(alloc, 6)?;
    put_number(&mut cells, alloc, number as u128)?;
    put_text(&mut cells, alloc, flat.variable_name(link.flow))?;
    put_text(&mut cells, alloc, site_name(plan.sites(), link.from))?;
    put_text(&mut cells, alloc, site_name(plan.sites(), link.to))?;
    put_clock_of(&mut cells, alloc, flat, link)?;
    put_number(&mut cells, alloc, 1)?;
    Ok(Row::new(cells))
}

fn link_cells_at(alloc: Global, plan: &Plan, number: usize) -> Result<Row<Name>, AllocError>
    ensures { IfOk result (λ row. row ≡ cells_of (link_cells plan.now number)
        (slice_get plan.now.links number)) }
{
    match plan.links().get(number) {
        Some(link) => link_cells(alloc, plan, number, *link),
        None => Ok(Row::new(Vec::new(alloc))),
    }
}

fn link_head(alloc: Global) -> Result<Row<Name>, AllocError>
    ensures { IfOk result (λ row. row ≡ link_head) }
{
    let mut cells = Vec::with_capacity(alloc, 6)?;
    put_text(&mut cells, alloc, "link")?;
    put_text(&mut cells, alloc, "flow")?;
    put_text(&mut cells, alloc, "from")?;
    put_text(&mut cells, alloc, "to")?;
    put_text(&mut cells, alloc, "clock")?;
    put_text(&mut cells, alloc, "most")?;
    Ok(Row::new(cells))
}

fn put_links(rows: &mut Vec<Row<Name>>, alloc: Global, plan: &Plan) -> Result<(), AllocError>
    ensures { OnOk result (rows.new.items ≡ rows.old.items ++ map (λ l. cells_of
        (link_cells plan.now l) (slice_get plan.now.links l))
        (range_with_len 0 (length plan.now.links))) }
{
    for number in 0..plan.links().len() {
        rows.push(link_cells_at(alloc, plan, number)?)?;
    }
    Ok(())
}

/// Adds the table of the links.
fn put_link_table(text: &mut String, alloc: Global, plan: &Plan) -> Result<(), AllocError>
    ensures { Adds result text.old text.new (aligned (link_rows plan.now)) }
{
    let mut rows = Vec::new(alloc);
    rows.push(link_head(alloc)?)?;
    put_links(&mut rows, alloc, plan)?;
    put_aligned(text, alloc, rows.as_slice())
}

/// Why a variable crosses to a site.
fn put_reason(
    text: &mut String,
    plan: &Plan,
    site: u8,
    cause: Option<Cause>,
) -> Result<(), AllocError>
    ensures { Adds result text.old text.new (reason plan.now site cause) }
{
    match cause {
        Some(Cause::Reader(place)) => {
            let reader = owner_name(plan.flat(), place);
            let there = site_name(plan.sites(), site);
            write!(text, " since {reader} at {there} reads it")
        }
        Some(Cause::Clock(place)) => {
            let clocked = plan.flat().variable_name(place);
            write!(text, " since the clock of {clocked} needs it")
        }
        None => Ok(()),
    }
}

/// What crosses over a link, and why.
fn put_cause(text: &mut String, plan: &Plan, link: Link) -> Result<(), AllocError>
    ensures { Adds result text.old text.new (cause_text plan.now link) }
{
    let flow = plan.flat().variable_name(link.flow);
    let from = site_name(plan.sites(), link.from);
    let to = site_name(plan.sites(), link.to);
    write!(text, "{flow} crosses {from} -> {to}")?;
    put_reason(text, plan, link.to, cause_of(plan, link))
}

/// A link's number, what crosses, and why.
fn cause_cells(
    alloc: Global,
    plan: &Plan,
    number: usize,
    link: Link,
) -> Result<Row<Name>, AllocError>
    ensures { IfOk result (λ row. row ≡ cause_cells plan.now number link) }
{
    let mut text = String::new(alloc);
    put_cause(&mut text, plan, link)?;
    pair_of(alloc, number_cell(alloc, number as u128)?, text)
}

fn cause_cells_at(alloc: Global, plan: &Plan, number: usize) -> Result<Row<Name>, AllocError>
    ensures { IfOk result (λ row. row ≡ cells_of (cause_cells plan.now number)
        (slice_get plan.now.links number)) }
{
    match plan.links().get(number) {
        Some(link) => cause_cells(alloc, plan, number, *link),
        None => Ok(Row::new(Vec::new(alloc))),
    }
}

fn cause_head(alloc: Global) -> Result<Row<Name>, AllocError>
    ensures { IfOk result (λ row. row ≡ cause_head) }
{
    let mut cells = Vec::with_capacity(alloc, 2)?;
    put_text(&mut cells, alloc, "link")?;
    put_text(&mut cells, alloc, "why")?;
    Ok(Row::new(cells))
}

fn put_causes(rows: &mut Vec<Row<Name>>, alloc: Global, plan: &Plan) -> Result<(), AllocError>
    ensures { OnOk result (rows.new.items ≡ rows.old.items ++ map (λ l. cells_of
        (cause_cells plan.now l) (slice_get plan.now.links l))
        (range_with_len 0 (length plan.now.links))) }
{
    for number in 0..plan.links().len() {
        rows.push(cause_cells_at(alloc, plan, number)?)?;
    }
    Ok(())
}

/// Adds the table of why links are there.
fn put_cause_table(text: &mut String, alloc: Global, plan: &Plan) -> Result<(), AllocError>
    ensures { Adds result text.old text.new (aligned (cause_rows plan.now)) }
{
    let mut rows = Vec::new(alloc);
    rows.push(cause_head(alloc)?)?;
    put_causes(&mut rows, alloc, plan)?;
    put_aligned(text, alloc, rows.as_slice())
}

/// Adds in which way a run goes, whether one worker is likely to be quickest, and the cycles of sites.
fn put_run_table(
    text: &mut String,
    alloc: Global,
    plan: &Plan,
    way: &Way,
    fed: &[Row<bool>],
) -> Result<(), AllocError>
    ensures { Adds result text.old text.new (aligned (run_rows plan.now way.now fed.now)) }
{
    let mut rows = Vec::new(alloc);
    rows.push(way_cells(alloc, plan.flat(), way)?)?;
    put_crew(&mut rows, alloc, plan, way)?;
    put_cycles(&mut rows, alloc, plan, fed)?;
    put_aligned(text, alloc, rows.as_slice())
}

/// The tables of why links are there, and of runs.
fn put_rest(
    text: &mut String,
    alloc: Global,
    plan: &Plan,
    way: &Way,
    fed: &[Row<bool>],
) -> Result<(), AllocError>
    ensures { Adds result text.old text.new (rest_text plan.now way.now fed.now) }
{
    put_cause_table(text, alloc, plan)?;
    text.push_str("\n")?;
    put_run_table(text, alloc, plan, way, fed)
}

/// Adds the four tables of a plan.
fn put_tables(
    text: &mut String,
    alloc: Global,
    plan: &Plan,
    way: &Way,
    fed: &[Row<bool>],
) -> Result<(), AllocError>
    ensures { Adds result text.old text.new (table_text plan.now way.now fed.now) }
{
    put_site_table(text, alloc, plan)?;
    text.push_str("\n")?;
    put_link_table(text, alloc, plan)?;
    text.push_str("\n")?;
    put_rest(text, alloc, plan, way, fed)
}

/// The four tables of a plan.
fn text_of(alloc: Global, plan: &Plan, way: &Way, fed: &[Row<bool>]) -> Result<String, AllocError>
    ensures { IfOk result (λ text. string_bytes text ≡ table_text plan.now way.now fed.now) }
{
    let mut text = String::new(alloc);
    put_tables(&mut text, alloc, plan, way, fed)?;
    Ok(text)
}

/// The report of a plan as four tables for a terminal, whose columns are as wide as their longest cells, with
/// two blanks between two columns and an empty line between two tables: for each site how many flows stand
/// there, and how many items it does at an instant at most, which is where all clocks are true (it computes
/// its flows, takes a message from each link to it and puts one into each link from it); for each link its
/// number, its variable, the sites that send and receive, its clock, `-` for the base clock, and how many
/// messages pass at an instant at most; for each link why its variable crosses; and in which way a run goes,
/// with a line for each group of sites that feed each other. The time grows with the number of flows times
/// the number of links; the cells of one table at a time are in memory.
///
/// # Errors
///
/// Out of memory.
pub fn report_table(alloc: Global, plan: &Plan) -> Result<String, AllocError>
    ensures { IfOk result (λ text. IsTableOf plan.now (string_bytes text)) }
{
    let way = way_of(alloc, plan)?;
    let fed = fed_of(alloc, plan)?;
    text_of(alloc, plan, &way, fed.as_slice())
}
