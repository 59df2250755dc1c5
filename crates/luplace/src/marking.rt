//! What each site needs.

ghost use Rattle.std.specs.Prelude.{◌≡◌, cond, true, [], map, slice_get, slice_set, IfOk};
ghost use Rattle.luflow.specs.Program.{places, clock_reads, flows_of};
ghost use Rattle.luworld.specs.Needs.{is_in};
ghost use Rattle.luplace.specs.Placing.{bare};
ghost use Rattle.luplace.specs.Marks.{is_marked, marked_all, clock_at, AreOwnMarks, AreMarks, AreAllMarks, marked_places, sites_at};

use crate::lookup::{is_in, row_at};
use lubase::{Row, number_at};
use luflow::{Clock, Flat, Flow, Form};
use std::alloc::{AllocError, Global};

/// Whether a flow stands at a site, given for each flow its main variable and for each main variable its
/// sites.
pub fn stands_at(owners: &[usize], placed: &[Row<u8>], place: usize, site: u8) -> bool
    ensures { result ≡ is_in site (sites_at owners.now placed.now place) }
{
    is_in(site, row_at(placed, number_at(owners, place)))
}

pub fn is_marked(marks: &[bool], place: usize) -> bool
    ensures { result ≡ is_marked marks.now place }
{
    match marks.get(place) {
        Some(marked) => *marked,
        None => false,
    }
}

pub fn mark(marks: &mut Vec<bool>, place: usize)
    ensures { marks.new.items ≡ slice_set marks.old.items place true }
{
    if place < marks.len() {
        marks[place] = true;
    }
}

/// Marks all these places.
fn mark_all(marks: &mut Vec<bool>, places: &[usize])
    ensures { marks.new.items ≡ marked_all places.now marks.old.items }
{
    for place in places {
        mark(marks, *place);
    }
}

fn mark_operands(marks: &mut Vec<bool>, form: &Form)
    ensures { marks.new.items ≡ marked_all (places form.now) marks.old.items }
{
    match form {
        Form::Input(_) => {}
        Form::Constant(_) => {}
        Form::Copied(a) => mark(marks, *a),
        Form::Unary(_, a) => mark(marks, *a),
        Form::Binary(_, a, b) => {
            mark(marks, *a);
            mark(marks, *b);
        }
        Form::If(c, a, b) => {
            mark(marks, *c);
            mark(marks, *a);
            mark(marks, *b);
        }
        Form::Pre(a) => mark(marks, *a),
        Form::Arrow(a, b) => {
            mark(marks, *a);
            mark(marks, *b);
        }
        Form::When(a) => mark(marks, *a),
        Form::Current(a) => mark(marks, *a),
        Form::Merge(c, branches) => {
            mark(marks, *c);
            mark_all(marks, branches.as_slice());
        }
    }
}

fn mark_clock(marks: &mut Vec<bool>, clock: Clock)
    ensures { marks.new.items ≡ marked_all (clock_reads clock) marks.old.items }
{
    match clock {
        Clock::Base => {}
        Clock::On(variable, _) => mark(marks, variable),
    }
}

/// Marks what a site's own flow names.
fn mark_own(marks: &mut Vec<bool>, flow: &Flow, own: bool)
    ensures { marks.new.items ≡ cond own (marked_all (clock_reads flow.now.clock)
        (marked_all (places flow.now.form) marks.old.items)) marks.old.items }
{
    if own {
        mark_operands(marks, &flow.form);
        mark_clock(marks, flow.clock);
    }
}

/// Marks the clock variable of a flow that is marked.
fn mark_clock_of(marks: &mut Vec<bool>, flows: &[Flow], place: usize)
    ensures { marks.new.items ≡ cond (is_marked marks.old.items place)
        (marked_all (clock_at (slice_get flows.now place)) marks.old.items) marks.old.items }
{
    if !is_marked(marks.as_slice(), place) {
        return;
    }
    match flows.get(place) {
        Some(flow) => mark_clock(marks, flow.clock),
        None => {}
    }
}

/// Marks what a site's own flows name.
fn own_marks(
    alloc: Global,
    flat: &Flat,
    placed: &[Row<u8>],
    site: u8,
) -> Result<Vec<bool>, AllocError>
    ensures { IfOk result (λ marks. AreOwnMarks (bare flat.now [] placed.now) site
        (flows_of flat.now) marks.items) }
{
    let flows = flat.flows();
    let mut marks = vec![in alloc; false; flows.len()]?;
    for i in 0..flows.len() {
        mark_own(
            &mut marks,
            &flows[i],
            stands_at(flat.owners(), placed, i, site),
        );
    }
    Ok(marks)
}

/// The marks of what a site needs. A clock variable has a lower rank than the flows on its clock, so one pass
/// down the ranks finds the clock variables of all that is marked.
fn site_marks(
    alloc: Global,
    flat: &Flat,
    placed: &[Row<u8>],
    site: u8,
) -> Result<Vec<bool>, AllocError>
    ensures { IfOk result (λ marks. AreMarks (bare flat.now [] placed.now) site marks.items) }
{
    let mut marks = own_marks(alloc, flat, placed, site)?;
    let flows = flat.flows();
    let order = flat.rank();
    for p in (0..order.len()).rev() {
        mark_clock_of(&mut marks, flows, order[p]);
    }
    Ok(marks)
}

/// For each site the marks of what it needs.
pub fn all_marks(
    alloc: Global,
    flat: &Flat,
    placed: &[Row<u8>],
    count: u8,
) -> Result<Vec<Row<bool>>, AllocError>
    ensures { IfOk result (λ rows. AreAllMarks (bare flat.now [] placed.now) count rows.items) }
{
    let mut rows = Vec::new(alloc);
    for site in 0..count {
        rows.push(Row::new(site_marks(alloc, flat, placed, site)?))?;
    }
    Ok(rows)
}

fn marked_places(alloc: Global, marks: &[bool]) -> Result<Vec<usize>, AllocError>
    ensures { IfOk result (λ found. found.items ≡ marked_places marks.now) }
{
    (0..marks.len())
        .filter(|place| is_marked(marks, *place))
        .collect(alloc)
}

/// The places that each site's marks mark, in order.
pub fn needs_of(alloc: Global, rows: &[Row<bool>]) -> Result<Vec<Row<usize>>, AllocError>
    ensures { IfOk result (λ needs. needs.items ≡ map marked_places rows.now) }
{
    let mut needs = Vec::new(alloc);
    for marks in rows {
        needs.push(Row::new(marked_places(alloc, marks.as_slice())?))?;
    }
    Ok(needs)
}
