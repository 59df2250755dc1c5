//! Turns as a chart: a column for each site, a row for each turn that is reported, and an arrow for a message
//! that is put.

ghost use Rattle.std.specs.Prelude.{◌≡◌, ◌<◌, Some, flat_map, length, slice_get};
ghost use Rattle.std.specs.List.{range_with_len};
ghost use Rattle.luworld.specs.Systems.{Item, done, next_item};
ghost use Rattle.luworld.specs.Jobs.{system_of};
ghost use Rattle.lusite.specs.Machine.{IsNext};
ghost use Rattle.luweave_text.specs.WorldText.{Adds};
ghost use Rattle.luweave_text.specs.Charted.{cell, chart_line, crosses, filler, heading, mark, named, own_blank, receiver_of, row, target_of, word_in};

use crate::counts::Counts;
use lubase::Name;
use luchart::pieces::{put_copies, put_right};
use luplace::Plan;
use luweave::{LinkNo, Next, World};
use std::alloc::{AllocError, Global};

/// How wide a column is.
const COLUMN: usize = 24;

/// How wide the numbers before the columns are.
const NUMBER: usize = 6;

/// How many rows a chart has at most.
const MOST_ROWS: usize = 1000;

/// The site that a link leads to; of no link this one.
fn receiver_of(plan: &Plan, link: LinkNo, site: u8) -> u8
    ensures { result ≡ receiver_of (slice_get plan.now.links link) site }
{
    match plan.links().get(link) {
        Some(found) => found.to,
        None => site,
    }
}

/// The site that the message of what a site does next goes to; the site itself where none is put.
pub(crate) fn target_of(plan: &Plan, world: &World, site: u8, next: Next) -> u8
    requires plan_is { world.now.job.plan ≡ plan.now }
    requires next { IsNext world.now.job site (done world.now.dones site) next }
    ensures { (item : Item) → next_item (system_of world.now.job) world.now.dones site ≡ Some item
        → result ≡ target_of world.now.job.plan site item }
{
    match next {
        Next::Put(link, _) => receiver_of(plan, link, site),
        Next::Local => site,
        Next::Take(_) => site,
        Next::Ended => site,
        Next::Faulted => site,
    }
}

/// Whether an arrow between two sites goes from a column to the next one, or comes from there.
fn crosses(site: u8, target: u8, column: usize) -> bool
    ensures { result ≡ crosses site target column }
{
    let (from, to) = (usize::from(site), usize::from(target));
    (from <= column && column < to) || (to <= column && column < from)
}

/// What stands in a column that isn't the site's own: the head of an arrow, a part of one, or the line of a
/// site that does nothing.
fn mark(site: u8, target: u8, column: usize) -> &'static str
    ensures { result.now ≡ mark site target column }
{
    if column == usize::from(target) {
        if site < target { ">" } else { "<" }
    } else if crosses(site, target, column) {
        "-"
    } else {
        "|"
    }
}

/// What a column begins with.
fn word_in<'a>(site: u8, target: u8, word: &'a str, column: usize) -> &'a str
    ensures { result.now ≡ word_in site target word.entry.now column }
{
    if column == usize::from(site) {
        word
    } else {
        mark(site, target, column)
    }
}

/// A blank behind the word in the site's own column.
fn own_blank(site: u8, column: usize) -> &'static str
    ensures { result.now ≡ own_blank site column }
{
    if column == usize::from(site) { " " } else { "" }
}

/// What a column is filled with.
fn filler(site: u8, target: u8, column: usize) -> &'static str
    ensures { result.now ≡ filler site target column }
{
    if crosses(site, target, column) {
        "-"
    } else {
        " "
    }
}

/// Adds the cell of a column.
fn put_cell(
    text: &mut String,
    sites: usize,
    site: u8,
    target: u8,
    word: &str,
    column: usize,
) -> Result<(), AllocError>
    requires { column < sites }
    ensures { Adds result text.old text.new (cell sites site target word.now column) }
{
    let word = word_in(site, target, word, column);
    text.push_str(word)?;
    if column + 1 < sites {
        let blank = own_blank(site, column);
        text.push_str(blank)?;
        let room = COLUMN.saturating_sub(word.len() + blank.len());
        return put_copies(text, filler(site, target, column), room);
    }
    Ok(())
}

/// Adds the cells of a row.
fn put_cells(
    text: &mut String,
    sites: usize,
    site: u8,
    target: u8,
    word: &str,
) -> Result<(), AllocError>
    ensures { Adds result text.old text.new
        (flat_map (cell sites site target word.now) (range_with_len 0 sites)) }
{
    for column in 0..sites {
        put_cell(text, sites, site, target, word, column)?;
    }
    Ok(())
}

/// A row: its number, and its cells.
fn put_row(
    alloc: Global,
    text: &mut String,
    sites: usize,
    number: u64,
    site: u8,
    target: u8,
    word: &str,
) -> Result<(), AllocError>
    ensures { Adds result text.old text.new (row sites number site target word.now) }
{
    let number = format!(in alloc; "{number}")?;
    put_right(text, NUMBER, number.as_str())?;
    text.push_str("  ")?;
    put_cells(text, sites, site, target, word)?;
    text.push_str("\n")
}

/// Adds a row as far as the chart goes, behind so many others: behind its last row a line says that there are
/// more.
pub(crate) fn put_chart_line(
    alloc: Global,
    text: &mut String,
    sites: usize,
    counts: Counts,
    site: u8,
    target: u8,
    word: &str,
) -> Result<(), AllocError>
    ensures { Adds result text.old text.new
        (chart_line counts.shown (row sites counts.moved site target word.now)) }
{
    if counts.shown < MOST_ROWS {
        return put_row(alloc, text, sites, counts.moved, site, target, word);
    }
    if counts.shown == MOST_ROWS {
        return text.push_str("..\n");
    }
    Ok(())
}

/// The name of a site over its column.
fn put_named(text: &mut String, names: &[Name], column: usize) -> Result<(), AllocError>
    requires { column < length names.now }
    ensures { Adds result text.old text.new (named names.now column) }
{
    let name = names[column].as_str();
    text.push_str(name)?;
    if column + 1 < names.len() {
        text.push_str(" ")?;
        return put_copies(text, " ", COLUMN.saturating_sub(name.len() + 1));
    }
    Ok(())
}

/// The names of the sites over their columns.
pub(crate) fn put_heading(text: &mut String, names: &[Name]) -> Result<(), AllocError>
    ensures { Adds result text.old text.new (heading names.now) }
{
    put_right(text, NUMBER, "turn")?;
    text.push_str("  ")?;
    for column in 0..names.len() {
        put_named(text, names, column)?;
    }
    text.push_str("\n")
}
