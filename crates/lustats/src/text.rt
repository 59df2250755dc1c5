//! The lines for a person.

ghost use Rattle.std.specs.Prelude.{◌≡◌, ◌<◌, ◌^◌, IfOk, flat_map, length, string_bytes};
ghost use Rattle.std.specs.List.{range_with_len};
ghost use Rattle.luworld.specs.Needs.{sites_of};
ghost use Rattle.lustats.specs.Text.{Adds, site_name, counted_site, site_line, link_ends, counted_link, link_line, link_line_at, digit, fraction, seconds, rate, run_head, run_line, stats_text};

use crate::counts::{Counts, LinkCounts, SiteCounts, link_counts, site_counts};
use lubase::Name;
use luplace::{Link, Plan};
use std::alloc::{AllocError, Global};

/// The name of a site.
fn site_name(names: &[Name], site: u8) -> &str
    ensures { result.now ≡ site_name names.now site }
{
    match names.get(usize::from(site)) {
        Some(name) => name.as_str(),
        None => "",
    }
}

/// Adds the line of a site with this name.
fn put_counted_site(text: &mut String, name: &str, found: SiteCounts) -> Result<(), AllocError>
    ensures { Adds result text.old text.new (counted_site name.now found) }
{
    let put = found.put;
    let full = found.waited_full;
    let taken = found.taken;
    let empty = found.waited_empty;
    writeln!(
        text,
        "site {name}: put {put}, waited for room {full}; took {taken}, waited for a message {empty}"
    )
}

/// Adds the line of a site.
fn put_site(text: &mut String, plan: &Plan, counts: &Counts, site: u8) -> Result<(), AllocError>
    ensures { Adds result text.old text.new (site_line plan.now counts.now site) }
{
    let name = site_name(plan.sites(), site);
    put_counted_site(text, name, site_counts(counts, site))
}

/// Adds the lines of all sites.
fn put_sites(text: &mut String, plan: &Plan, counts: &Counts) -> Result<(), AllocError>
    ensures { Adds result text.old text.new
        (flat_map (site_line plan.now counts.now) (range_with_len 0 (sites_of plan.now))) }
{
    plan.recall_invariant();
    let count = plan.sites().len() as u8;
    for site in 0..count {
        put_site(text, plan, counts, site)?;
    }
    Ok(())
}

/// Adds the ends of a link.
fn put_link_ends(text: &mut String, plan: &Plan, link: Link) -> Result<(), AllocError>
    ensures { Adds result text.old text.new (link_ends plan.now link) }
{
    let flow = plan.flat().variable_name(link.flow);
    let from = site_name(plan.sites(), link.from);
    let to = site_name(plan.sites(), link.to);
    write!(text, "{flow} {from} -> {to}")
}

/// Adds what was counted of a link of this capacity.
fn put_counted_link(text: &mut String, capacity: u16, found: LinkCounts) -> Result<(), AllocError>
    ensures { Adds result text.old text.new (counted_link capacity found) }
{
    let passed = found.passed;
    let most = found.most;
    writeln!(
        text,
        ": passed {passed}, at most {most} of {capacity} in it"
    )
}

/// Adds the line of a link.
fn put_link(
    text: &mut String,
    plan: &Plan,
    counts: &Counts,
    number: usize,
    link: Link,
) -> Result<(), AllocError>
    ensures { Adds result text.old text.new (link_line plan.now counts.now number link) }
{
    text.push_str("link ")?;
    put_link_ends(text, plan, link)?;
    put_counted_link(text, plan.capacity(), link_counts(counts, number))
}

/// Adds the line of the link of this number.
fn put_link_at(
    text: &mut String,
    plan: &Plan,
    counts: &Counts,
    number: usize,
) -> Result<(), AllocError>
    ensures { Adds result text.old text.new (link_line_at plan.now counts.now number) }
{
    match plan.links().get(number) {
        Some(link) => put_link(text, plan, counts, number, *link),
        None => Ok(()),
    }
}

/// Adds the lines of all links.
fn put_links(text: &mut String, plan: &Plan, counts: &Counts) -> Result<(), AllocError>
    ensures { Adds result text.old text.new (flat_map (link_line_at plan.now counts.now)
        (range_with_len 0 (length plan.now.links))) }
{
    for number in 0..plan.links().len() {
        put_link_at(text, plan, counts, number)?;
    }
    Ok(())
}

/// Adds seconds, with six digits behind the point.
fn put_seconds(text: &mut String, micros: u64) -> Result<(), AllocError>
    ensures { Adds result text.old text.new (seconds micros) }
{
    let whole = micros / 1_000_000;
    let a = micros / 100_000 % 10;
    let b = micros / 10_000 % 10;
    let c = micros / 1_000 % 10;
    let d = micros / 100 % 10;
    let e = micros / 10 % 10;
    let f = micros / 1 % 10;
    write!(text, "{whole}.{a}{b}{c}{d}{e}{f}")
}

/// Adds how many instants a second the run did; nothing where it took no time that could be measured.
fn put_rate(text: &mut String, micros: u64, instants: u32) -> Result<(), AllocError>
    ensures { Adds result text.old text.new (rate micros instants) }
{
    if micros == 0 {
        return Ok(());
    }
    let rate = u64::from(instants) * 1_000_000 / micros;
    write!(text, ", instants a second {rate}")
}

/// Adds what the line of the run begins with.
fn put_run_head(text: &mut String, instants: u32) -> Result<(), AllocError>
    ensures { Adds result text.old text.new (run_head instants) }
{
    write!(text, "run: instants {instants}, seconds ")
}

/// Adds the line of the run.
fn put_run(text: &mut String, micros: u64, instants: u32) -> Result<(), AllocError>
    ensures { Adds result text.old text.new (run_line micros instants) }
{
    put_run_head(text, instants)?;
    put_seconds(text, micros)?;
    put_rate(text, micros, instants)?;
    text.push_str("\n")
}

/// What a run of a plan counted, as lines: one for each site, one for each link, and one for the run, which
/// took so many microseconds and did so many instants. What the counts don't have is 0.
///
/// # Errors
///
/// An error means that memory ran out.
pub fn stats_text(
    alloc: Global,
    plan: &Plan,
    counts: &Counts,
    micros: u64,
    instants: u32,
) -> Result<String, AllocError>
    ensures { IfOk result
        (λ text. string_bytes text ≡ stats_text plan.now counts.now micros instants) }
{
    let mut text = String::new(alloc);
    put_sites(&mut text, plan, counts)?;
    put_links(&mut text, plan, counts)?;
    put_run(&mut text, micros, instants)?;
    Ok(text)
}
