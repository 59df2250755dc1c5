//! What a replay prints.

ghost use Rattle.std.specs.Prelude.{◌≡◌, ◌++◌, ℕ, List, IfOk, length, string_bytes};
ghost use Rattle.luweave_text.specs.WorldText.{datum_text, body_text, status_text, site_name, messages_text, carried_line, link_line, links_text, standing_text, site_line, AreSiteLines, output_line, statuses_text, AreOutputLines, IsWorldText, Adds};
ghost use Rattle.luworld.specs.Needs.{sites_of};
ghost use Rattle.luflow.specs.Types.{variable_names};
ghost use Rattle.luflow.specs.Variables.{variable_name};

use lubase::Name;
use luflow::{Body, Datum, Flat, Msg, Status, name_of};
use luplace::{Link, Plan};
use lusite::{Fault, Standing};
use luweave::World;
use std::alloc::{AllocError, Global};

/// A space and a value of a type with these names.
fn put_datum(text: &mut String, names: &[Name], datum: Datum) -> Result<(), AllocError>
    ensures { Adds result text.old text.new (datum_text names.now datum) }
{
    match datum {
        Datum::Int(number) => write!(text, " {number}"),
        Datum::Bool(truth) => write!(text, " {truth}"),
        Datum::Name(number) => write!(text, " {}", name_of(names, number)),
        Datum::Nil => text.push_str(" nil"),
    }
}

/// A space and what a message says.
pub(crate) fn put_message(text: &mut String, names: &[Name], message: Msg) -> Result<(), AllocError>
    ensures { Adds result text.old text.new (body_text names.now message.body) }
{
    match message.body {
        Body::Value(datum) => put_datum(text, names, datum),
        Body::Close => text.push_str(" close"),
    }
}

/// Adds a space and a status.
fn put_status(text: &mut String, names: &[Name], status: Status) -> Result<(), AllocError>
    ensures { Adds result text.old text.new (status_text names.now status) }
{
    match status {
        Status::Absent => text.push_str(" -"),
        Status::Present(datum) => put_datum(text, names, datum),
    }
}

/// The name of a site.
pub(crate) fn site_name(names: &[Name], site: u8) -> &str
    ensures { result.now ≡ site_name names.now site }
{
    match names.get(site as usize) {
        Some(name) => name.as_str(),
        None => "",
    }
}

/// `link FLOW FROM TO taken`, what was taken, and how much waits.
fn put_link(
    text: &mut String,
    plan: &Plan,
    link: &Link,
    taken: &[Msg],
    queued: usize,
) -> Result<(), AllocError>
    ensures { Adds result text.old text.new (link_line plan.now link.now taken.now queued) }
{
    let flow = plan.flat().variable_name(link.flow);
    let names = plan.flat().variable_names(link.flow);
    let from = site_name(plan.sites(), link.from);
    let to = site_name(plan.sites(), link.to);
    put_carried(text, flow, names, from, to, taken, queued)
}

/// Adds the line of a link: of a flow of this name, whose type has these names, between sites of these names.
fn put_carried(
    text: &mut String,
    flow: &str,
    names: &[Name],
    from: &str,
    to: &str,
    taken: &[Msg],
    queued: usize,
) -> Result<(), AllocError>
    ensures { Adds result text.old text.new
        (carried_line flow.now names.now from.now to.now taken.now queued) }
{
    write!(text, "link {flow} {from} {to} taken")?;
    put_messages(text, names, taken)?;
    writeln!(text, " queued {queued}")
}

/// Adds what each message says.
fn put_messages(text: &mut String, names: &[Name], messages: &[Msg]) -> Result<(), AllocError>
    ensures { Adds result text.old text.new (messages_text names.now messages.now) }
{
    for message in messages {
        put_message(text, names, *message)?;
    }
    Ok(())
}

/// Adds the lines of the links.
fn put_links(text: &mut String, plan: &Plan, world: &World) -> Result<(), AllocError>
    requires { world.now.job.plan ≡ plan.now }
    ensures { Adds result text.old text.new (links_text world.now (length plan.now.links)) }
{
    for (number, link) in plan.links().iter().enumerate() {
        let queued = world.queued(number).len();
        put_link(text, plan, link, world.taken(number), queued)?;
    }
    Ok(())
}

/// Adds how a site stands.
fn put_standing(text: &mut String, flat: &Flat, standing: Standing) -> Result<(), AllocError>
    ensures { Adds result text.old text.new (standing_text flat.now standing) }
{
    match standing {
        Standing::Ended => text.push_str("ended"),
        Standing::Faulted(fault) => put_fault(text, flat, fault),
        Standing::Cut => text.push_str("open"),
    }
}

fn put_fault(text: &mut String, flat: &Flat, fault: Fault) -> Result<(), AllocError>
    ensures { Adds result text.old text.new (standing_text flat.now (Standing.Faulted fault)) }
{
    let variable = flat.variable_name(fault.variable);
    let instant = fault.instant;
    let kind = fault.kind.name();
    write!(text, "faulted {variable} {instant} {kind}")
}

/// `site NAME`, and how the site stands.
fn put_site(text: &mut String, plan: &Plan, site: u8, standing: Standing) -> Result<(), AllocError>
    ensures { Adds result text.old text.new (site_line plan.now site standing) }
{
    let name = site_name(plan.sites(), site);
    write!(text, "site {name} ")?;
    put_standing(text, plan.flat(), standing)?;
    text.push('\n')
}

/// Adds the lines of the sites.
fn put_sites(text: &mut String, plan: &Plan, world: &World) -> Result<(), AllocError>
    requires plan_is { world.now.job.plan ≡ plan.now }
    requires all_sites { length world.now.dones ≡ sites_of plan.now }
    ensures { IfOk result (λ _. (lines : List ℕ) × AreSiteLines world.now (sites_of plan.now) lines
        × (string_bytes text.new ≡ string_bytes text.old ++ lines)) }
{
    plan.recall_invariant();
    let count = plan.sites().len() as u8;
    for site in 0..count {
        put_site(text, plan, site, world.site(site).standing())?;
    }
    Ok(())
}

/// `output NAME`, and its statuses, of a type with these names.
fn put_output(
    text: &mut String,
    name: &str,
    names: &[Name],
    statuses: &[Status],
) -> Result<(), AllocError>
    ensures { Adds result text.old text.new (output_line name.now names.now statuses.now) }
{
    write!(text, "output {name}")?;
    put_statuses(text, names, statuses)?;
    text.push('\n')
}

/// The statuses of an output.
fn put_statuses(text: &mut String, names: &[Name], statuses: &[Status]) -> Result<(), AllocError>
    ensures { Adds result text.old text.new (statuses_text names.now statuses.now) }
{
    for status in statuses {
        put_status(text, names, *status)?;
    }
    Ok(())
}

/// The lines of the outputs.
fn put_outputs(text: &mut String, plan: &Plan, world: &World) -> Result<(), AllocError>
    requires { world.now.job.plan ≡ plan.now }
    ensures { IfOk result (λ _. (lines : List ℕ) × (k : ℕ)
        × AreOutputLines world.now (length plan.now.flat.variables) k lines
        × (string_bytes text.new ≡ string_bytes text.old ++ lines)) }
{
    let flat = plan.flat();
    let mut k = 0;
    for variable in 0..flat.variables().len() {
        if flat.is_output(variable) {
            let name = flat.variable_name(variable);
            put_output(text, name, flat.variable_names(variable), world.outputs(k))?;
            k += 1;
        }
    }
    Ok(())
}

/// What a replay prints of the world at its end: its links, its sites and its outputs, each in order.
pub fn text_of_world(alloc: Global, plan: &Plan, world: &World) -> Result<String, AllocError>
    requires plan_is { world.now.job.plan ≡ plan.now }
    requires all_sites { length world.now.dones ≡ sites_of plan.now }
    ensures { IfOk result (λ text. IsWorldText world.now (string_bytes text)) }
{
    let mut text = String::new(alloc);
    put_links(&mut text, plan, world)?;
    put_sites(&mut text, plan, world)?;
    put_outputs(&mut text, plan, world)?;
    Ok(text)
}
