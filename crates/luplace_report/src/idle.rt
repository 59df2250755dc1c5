//! The sites of a plan at which nothing stands.

ghost use Rattle.std.specs.Prelude.{◌≡◌, IfOk, codes, string_bytes};
ghost use Rattle.luplace_report.specs.Idle.{idle_line, idle_row, idle_text};
ghost use Rattle.luplace_report.specs.Names.{Adds};

use crate::names::site_name;
use luplace::Plan;
use std::alloc::{AllocError, Global};

/// Adds the end of a line.
fn put_end(text: &mut String) -> Result<(), AllocError>
    ensures { Adds result text.old text.new (codes "`.\n") }
{
    text.push_str("`.\n")
}

/// Adds the line of a site.
fn put_line(text: &mut String, path: &str, plan: &Plan, site: u8) -> Result<(), AllocError>
    ensures { Adds result text.old text.new (idle_line path.now plan.now site) }
{
    text.push_str(path)?;
    text.push_str(": W05 IdleSite: No variable stands at the site `")?;
    text.push_str(site_name(plan.sites(), site))?;
    put_end(text)
}

/// Adds the line of a site at which nothing stands.
fn put_row(text: &mut String, path: &str, plan: &Plan, site: u8) -> Result<(), AllocError>
    ensures { Adds result text.old text.new (idle_row path.now plan.now site) }
{
    if plan.flow_count(site) == 0 {
        return put_line(text, path, plan, site);
    }
    Ok(())
}

/// Adds the lines of all of them.
fn put_rows(text: &mut String, path: &str, plan: &Plan) -> Result<(), AllocError>
    ensures { Adds result text.old text.new (idle_text path.now plan.now) }
{
    plan.recall_invariant();
    let count = plan.sites().len() as u8;
    for site in 0..count {
        put_row(text, path, plan, site)?;
    }
    Ok(())
}

/// A line for each site of a plan at which no variable stands, in order of sites, behind the path of the
/// placement.
///
/// # Errors
///
/// An error means that memory ran out.
pub fn report_idle(alloc: Global, path: &str, plan: &Plan) -> Result<String, AllocError>
    ensures { IfOk result (λ text. string_bytes text ≡ idle_text path.now plan.now) }
{
    let mut text = String::new(alloc);
    put_rows(&mut text, path, plan)?;
    Ok(text)
}
