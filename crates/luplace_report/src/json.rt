//! The report as JSON.

ghost use Rattle.std.specs.Prelude.{◌≡◌, IfOk, codes, string_bytes};
ghost use Rattle.serde_json.specs.Data.{array, number, string, unsigned, put as with_member};
ghost use Rattle.serde_json.specs.View.{view, members_view};
ghost use Rattle.luflow.specs.Rank.{row};
ghost use Rattle.luplace_report.specs.Report.{site_data, names_data, sites_data, flow_data, flows_data, link_data, links_data, report_data, report_text};

use crate::names::{clock_of, clock_text, site_name, type_of};
use lubase::Name;
use luplace::{Link, Plan};
use serde_json::{Map, Value, put};
use std::alloc::{AllocError, Global};

/// Puts a text into an object.
fn put_text(
    members: &mut Map<String, Value>,
    alloc: Global,
    key: &str,
    text: &str,
) -> Result<(), AllocError>
    ensures { IfOk result (λ _. members_view members.new.entries
        ≡ with_member key.now (string text.now) (members_view members.old.entries)) }
{
    let value = Value::try_from_str(alloc, text)?;
    put(members, alloc, key, value)
}

/// Names as an array.
fn names_value(alloc: Global, names: &[Name]) -> Result<Value, AllocError>
    ensures { IfOk result (λ value. view value ≡ names_data names.now) }
{
    let mut values = Vec::new(alloc);
    for name in names {
        values.push(Value::try_from_str(alloc, name.as_str())?)?;
    }
    Ok(Value::Array(values))
}

/// The names of these sites as an array.
fn site_array(alloc: Global, names: &[Name], sites: &[u8]) -> Result<Value, AllocError>
    ensures { IfOk result (λ value. view value ≡ array (sites_data names.now sites.now)) }
{
    let mut values = Vec::new(alloc);
    for site in sites {
        values.push(Value::try_from_str(alloc, site_name(names, *site))?)?;
    }
    Ok(Value::Array(values))
}

/// The name of a site, or an array of the names of several.
fn site_value(alloc: Global, names: &[Name], sites: &[u8]) -> Result<Value, AllocError>
    ensures { IfOk result (λ value. view value ≡ site_data names.now sites.now) }
{
    match sites {
        [site] => Value::try_from_str(alloc, site_name(names, *site)),
        _ => site_array(alloc, names, sites),
    }
}

/// The sites at which a main variable stands.
fn sites_at(plan: &Plan, variable: usize) -> &[u8]
    ensures { result.now ≡ row plan.now.placed variable }
{
    if variable < plan.flat().variables().len() {
        plan.sites_of(variable)
    } else {
        &[]
    }
}

/// A main variable as an object.
fn flow_value(alloc: Global, plan: &Plan, variable: usize) -> Result<Value, AllocError>
    ensures { IfOk result (λ value. view value ≡ flow_data plan.now variable) }
{
    let flat = plan.flat();
    let clock = clock_text(alloc, flat, clock_of(flat, variable))?;
    let mut members = Map::new(alloc);
    put(&mut members, alloc, "clock", Value::String(clock))?;
    put_text(&mut members, alloc, "name", flat.variable_name(variable))?;
    let site = site_value(alloc, plan.sites(), sites_at(plan, variable))?;
    put(&mut members, alloc, "site", site)?;
    put_text(&mut members, alloc, "type", type_of(flat, variable))?;
    Ok(Value::Object(members))
}

/// The main variables as an array.
fn flows_value(alloc: Global, plan: &Plan) -> Result<Value, AllocError>
    ensures { IfOk result (λ value. view value ≡ flows_data plan.now) }
{
    let mut values = Vec::new(alloc);
    for variable in 0..plan.flat().variables().len() {
        values.push(flow_value(alloc, plan, variable)?)?;
    }
    Ok(Value::Array(values))
}

/// A link as an object.
fn link_value(alloc: Global, plan: &Plan, link: Link) -> Result<Value, AllocError>
    ensures { IfOk result (λ value. view value ≡ link_data plan.now link) }
{
    let flat = plan.flat();
    let clock = clock_text(alloc, flat, clock_of(flat, link.flow))?;
    let mut members = Map::new(alloc);
    put(&mut members, alloc, "clock", Value::String(clock))?;
    put_text(&mut members, alloc, "flow", flat.variable_name(link.flow))?;
    put_text(
        &mut members,
        alloc,
        "from",
        site_name(plan.sites(), link.from),
    )?;
    put_text(&mut members, alloc, "to", site_name(plan.sites(), link.to))?;
    Ok(Value::Object(members))
}

/// The links as an array.
fn links_value(alloc: Global, plan: &Plan) -> Result<Value, AllocError>
    ensures { IfOk result (λ value. view value ≡ links_data plan.now) }
{
    let mut values = Vec::new(alloc);
    for link in plan.links() {
        values.push(link_value(alloc, plan, *link)?)?;
    }
    Ok(Value::Array(values))
}

/// Puts what the report has into an object.
fn put_report(
    members: &mut Map<String, Value>,
    alloc: Global,
    plan: &Plan,
) -> Result<(), AllocError>
    ensures { IfOk result (λ _. members_view members.new.entries
        ≡ with_member (codes "sites") (names_data plan.now.names)
        (with_member (codes "links") (links_data plan.now)
        (with_member (codes "flows") (flows_data plan.now)
        (with_member (codes "capacity") (number (unsigned plan.now.capacity))
        (members_view members.old.entries))))) }
{
    let capacity = Value::from(u64::from(plan.capacity()));
    put(members, alloc, "capacity", capacity)?;
    put(members, alloc, "flows", flows_value(alloc, plan)?)?;
    put(members, alloc, "links", links_value(alloc, plan)?)?;
    put(members, alloc, "sites", names_value(alloc, plan.sites())?)
}

fn report_value(alloc: Global, plan: &Plan) -> Result<Value, AllocError>
    ensures { IfOk result (λ value. view value ≡ report_data plan.now) }
{
    let mut members = Map::new(alloc);
    put_report(&mut members, alloc, plan)?;
    Ok(Value::Object(members))
}

/// The report of a plan as compact JSON on one line, without a line feed: its capacity, its main variables in
/// order of declaration, each with its clock, name, site and type, its links in order of number, each with
/// its clock, its variable and the sites that send and receive, and the names of its sites. A clock is `c`,
/// `not c`, `A(c)`, or the empty text for the base clock; the site of a variable that stands at several is an
/// array of their names.
pub fn report_json(alloc: Global, plan: &Plan) -> Result<String, AllocError>
    ensures { IfOk result (λ text. string_bytes text ≡ report_text plan.now) }
{
    report_value(alloc, plan)?.to_string(alloc)
}
