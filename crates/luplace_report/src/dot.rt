//! The report as a graph.

ghost use Rattle.std.specs.Prelude.{◌≡◌, IfOk, string_bytes};
ghost use Rattle.luplace_report.specs.Names.{Adds};
ghost use Rattle.luplace_report.specs.Graph.{variable_node, variable_nodes, opening, label, point, box, boxes, when_text, head, edge, edges, graph_text};

use crate::cause::{Cause, cause_of};
use crate::names::{clock_of, owner_of, put_clock, site_name};
use luflow::{Clock, Flat};
use luplace::{Link, Plan};
use std::alloc::{AllocError, Global};

/// The node of a variable in a site's box, where it stands there.
fn put_variable(text: &mut String, plan: &Plan, site: u8, variable: usize) -> Result<(), AllocError>
    ensures { Adds result text.old text.new (variable_node plan.now site variable) }
{
    if plan.stands(variable, site) {
        let name = plan.flat().variable_name(variable);
        return writeln!(text, "    s{site}v{variable} [label=\"{name}\"];");
    }
    Ok(())
}

fn put_variables(text: &mut String, plan: &Plan, site: u8) -> Result<(), AllocError>
    ensures { Adds result text.old text.new (variable_nodes plan.now site) }
{
    for variable in 0..plan.flat().variables().len() {
        put_variable(text, plan, site, variable)?;
    }
    Ok(())
}

/// The label of a box: the name of its site.
fn put_label(text: &mut String, plan: &Plan, site: u8) -> Result<(), AllocError>
    ensures { Adds result text.old text.new (label plan.now site) }
{
    let name = site_name(plan.sites(), site);
    writeln!(text, "    label=\"{name}\";")
}

/// Adds the point of a site.
fn put_point(text: &mut String, site: u8) -> Result<(), AllocError>
    ensures { Adds result text.old text.new (point site) }
{
    writeln!(text, "    s{site} [shape=point];")
}

/// The line that opens a box.
fn put_opening(text: &mut String, site: u8) -> Result<(), AllocError>
    ensures { Adds result text.old text.new (opening site) }
{
    writeln!(text, "  subgraph cluster_{site} {{")
}

/// Adds the box of a site.
fn put_box(text: &mut String, plan: &Plan, site: u8) -> Result<(), AllocError>
    ensures { Adds result text.old text.new (box plan.now site) }
{
    put_opening(text, site)?;
    put_label(text, plan, site)?;
    put_point(text, site)?;
    put_variables(text, plan, site)?;
    text.push_str("  }\n")
}

fn put_boxes(text: &mut String, plan: &Plan) -> Result<(), AllocError>
    ensures { Adds result text.old text.new (boxes plan.now) }
{
    plan.recall_invariant();
    let count = plan.sites().len() as u8;
    for site in 0..count {
        put_box(text, plan, site)?;
    }
    Ok(())
}

/// ` when c`, ` when not c` or ` when A(c)`, or nothing for the base clock.
fn put_when(text: &mut String, flat: &Flat, clock: Clock) -> Result<(), AllocError>
    ensures { Adds result text.old text.new (when_text flat.now clock) }
{
    match clock {
        Clock::Base => Ok(()),
        Clock::On(_, _) => {
            text.push_str(" when ")?;
            put_clock(text, flat, clock)
        }
    }
}

/// The node at which an edge ends in a site's box.
fn put_head(
    text: &mut String,
    plan: &Plan,
    site: u8,
    cause: Option<Cause>,
) -> Result<(), AllocError>
    ensures { Adds result text.old text.new (head plan.now site cause) }
{
    match cause {
        Some(Cause::Reader(place)) => {
            let reader = owner_of(plan.flat(), place);
            write!(text, "s{site}v{reader}")
        }
        Some(Cause::Clock(_)) => write!(text, "s{site}"),
        None => write!(text, "s{site}"),
    }
}

/// Adds the edge of a link.
fn put_edge(text: &mut String, plan: &Plan, link: Link) -> Result<(), AllocError>
    ensures { Adds result text.old text.new (edge plan.now link) }
{
    let flat = plan.flat();
    let flow = link.flow;
    let from = link.from;
    let name = flat.variable_name(flow);
    write!(text, "  s{from}v{flow} -> ")?;
    put_head(text, plan, link.to, cause_of(plan, link))?;
    write!(text, " [label=\"{name}")?;
    put_when(text, flat, clock_of(flat, flow))?;
    text.push_str("\"];\n")
}

fn put_edges(text: &mut String, plan: &Plan) -> Result<(), AllocError>
    ensures { Adds result text.old text.new (edges plan.now) }
{
    for link in plan.links() {
        put_edge(text, plan, *link)?;
    }
    Ok(())
}

/// The report of a plan as a graph in the language of Graphviz: a box for each site, in it a node for each
/// main variable that stands there and a point for the site itself; for each link an edge, from its variable
/// in the sending site's box to the main variable in whose equation its first reader stands, in the receiving
/// site's box, or to that site's point where the variable crosses for the sake of a clock alone. An edge is
/// labelled with its variable and the variable's clock. Names are identifiers, so they need no escapes
/// between quotes. The time grows with the number of flows times the number of links.
pub fn report_dot(alloc: Global, plan: &Plan) -> Result<String, AllocError>
    ensures { IfOk result (λ text. string_bytes text ≡ graph_text plan.now) }
{
    let mut text = String::new(alloc);
    text.push_str("digraph plan {\n")?;
    put_boxes(&mut text, plan)?;
    put_edges(&mut text, plan)?;
    text.push_str("}\n")?;
    Ok(text)
}
