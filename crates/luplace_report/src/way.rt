//! How the way of a plan is reported.

ghost use Rattle.std.specs.Prelude.{◌≡◌, ◌++◌, nat_lt, IfOk, OnOk};
ghost use Rattle.luworld.specs.Needs.{sites_of};
ghost use Rattle.luplace.specs.Crews.{quickest_crew};
ghost use Rattle.luplace_report.specs.Names.{Adds};
ghost use Rattle.luplace_report.specs.Way.{further_names, variable_list, sent_text, parted_text, nil_text, way_text, way_cells, small_rows, crew_rows};

use crate::cells::text_pair;
use lubase::{Name, Row};
use luflow::Flat;
use luplace::{Plan, Way, quickest_crew};
use std::alloc::{AllocError, Global};

/// A comma and the name of a variable, for each of these.
fn put_further(text: &mut String, flat: &Flat, variables: &[usize]) -> Result<(), AllocError>
    ensures { Adds result text.old text.new (further_names flat.now variables.now) }
{
    for variable in variables {
        let name = flat.variable_name(*variable);
        write!(text, ", {name}")?;
    }
    Ok(())
}

/// The names of variables, with a comma between two.
fn put_list(text: &mut String, flat: &Flat, variables: &[usize]) -> Result<(), AllocError>
    ensures { Adds result text.old text.new (variable_list flat.now variables.now) }
{
    match variables {
        [] => Ok(()),
        [first, rest @ ..] => {
            text.push_str(flat.variable_name(*first))?;
            put_further(text, flat, rest)
        }
    }
}

/// What is said of one variable that is sent and may be nil, or of several.
fn sent_text(variables: &[usize]) -> &'static str
    ensures { result.now ≡ sent_text variables.now }
{
    match variables {
        [_] => " may have no value at first, and is sent",
        _ => " may have no value at first, and are sent",
    }
}

/// That a cycle of these variables is parted.
fn put_parted(text: &mut String, flat: &Flat, variables: &[usize]) -> Result<(), AllocError>
    ensures { Adds result text.old text.new (parted_text flat.now variables.now) }
{
    text.push_str("instant by instant: a cycle of ")?;
    put_list(text, flat, variables)?;
    text.push_str(" is parted over sites")
}

fn put_sent(text: &mut String, variables: &[usize]) -> Result<(), AllocError>
    ensures { Adds result text.old text.new (sent_text variables.now) }
{
    text.push_str(sent_text(variables))
}

/// That these variables are sent and may be nil.
fn put_nil(text: &mut String, flat: &Flat, variables: &[usize]) -> Result<(), AllocError>
    ensures { Adds result text.old text.new (nil_text flat.now variables.now) }
{
    text.push_str("instant by instant: ")?;
    put_list(text, flat, variables)?;
    put_sent(text, variables)
}

/// Adds the way of a plan.
fn put_text(text: &mut String, flat: &Flat, way: &Way) -> Result<(), AllocError>
    ensures { Adds result text.old text.new (way_text flat.now way.now) }
{
    match way {
        Way::Rows => text.push_str("by rows"),
        Way::Parted(variables) => put_parted(text, flat, variables.as_slice()),
        Way::Nil(variables) => put_nil(text, flat, variables.as_slice()),
    }
}

/// The row of a plan's way.
pub fn way_cells(alloc: Global, flat: &Flat, way: &Way) -> Result<Row<Name>, AllocError>
    ensures { IfOk result (λ row. row ≡ way_cells flat.now way.now) }
{
    let mut text = String::new(alloc);
    put_text(&mut text, flat, way)?;
    text_pair(alloc, "run", text)
}

/// Whether so many workers as are quickest by lists are fewer than the sites.
fn has_small_crew(plan: &Plan) -> bool
    ensures { result ≡ nat_lt (quickest_crew plan.now) (sites_of plan.now) }
{
    usize::from(quickest_crew(plan)) < plan.sites().len()
}

fn put_small(rows: &mut Vec<Row<Name>>, alloc: Global, plan: &Plan) -> Result<(), AllocError>
    ensures { OnOk result (rows.new.items ≡ rows.old.items ++ small_rows plan.now) }
{
    if has_small_crew(plan) {
        let text = String::from_str(alloc, "by lists; --workers auto takes one worker")?;
        rows.push(text_pair(alloc, "run", text)?)?;
        return Ok(());
    }
    Ok(())
}

/// Adds a row where a crew of one is likely to be quicker than a thread for each site.
pub fn put_crew(
    rows: &mut Vec<Row<Name>>,
    alloc: Global,
    plan: &Plan,
    way: &Way,
) -> Result<(), AllocError>
    ensures { OnOk result (rows.new.items ≡ rows.old.items ++ crew_rows plan.now way.now) }
{
    match way {
        Way::Rows => Ok(()),
        Way::Parted(_) => put_small(rows, alloc, plan),
        Way::Nil(_) => put_small(rows, alloc, plan),
    }
}
