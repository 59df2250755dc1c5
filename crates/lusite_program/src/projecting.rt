//! From a plan to a site's program.

ghost use Rattle.std.specs.Prelude.{◌≡◌, ◌≢◌, ℕ, ◌+◌, ◌<◌, ◌^◌, ◌&&◌, cond, List, [], ◌∷◌, ◌++◌, filter, map, length, IfOk, OnOk, Option, Some, slice_get, slice_index, slice_set, true};
ghost use Rattle.std.specs.List.{range_with_len};
ghost use Rattle.std.specs.Option.{ForSome};
ghost use Rattle.luworld.specs.Needs.{IsPlan, sites_of, home, stands};
ghost use Rattle.luworld.specs.Jobs.{knows, link_into, outputs_of, sends};
ghost use Rattle.lusite_program.specs.Carriers.{HasSources};
ghost use Rattle.lusite_program.specs.Programs.{clock_at_rank, part_of, ranks_of, places_of, AreNumbers, IsSiteFlow, AreSiteFlows, AreReported, Reports, output_names, role_at};
ghost use Rattle.luflow.specs.Program.{flows_of};
ghost use Rattle.luflow.specs.Variables.{is_output_of, is_output, variable_name};
ghost use Rattle.lueval_lines.specs.Cells.{clock_of};
ghost use Rattle.lueval_lines.specs.Operations.{IsLonger};

use crate::carriers::{Carriers, carriers_of, take_row};
use crate::program::{LinkNo, Part, SiteFlow, SiteProgram};
use lubase::{Name, Row, number_at};
use lueval_lines::{LineClock, line_of, moved_branches, moved_line};
use luflow::{Flat, Variable};
use luplace::Plan;
use std::alloc::{AllocError, Global};
use std::snapshot::Snapshot;

/// Adds a number, if it is wanted.
fn push_if(found: &mut Vec<usize>, wanted: bool, number: usize) -> Result<(), AllocError>
    ensures { OnOk result (found.new.items ≡ found.old.items ++ cond wanted (number ∷ []) []) }
{
    if wanted {
        found.push(number)?;
    }
    Ok(())
}

/// Whether a place is that of an output.
fn is_reported(variables: &[Variable], place: usize) -> bool
    ensures { result ≡ role_at variables.now place }
{
    match variables.get(place) {
        Some(variable) => variable.role.is_output(),
        None => false,
    }
}

/// The places of the outputs, in order.
fn reported_places(alloc: Global, variables: &[Variable]) -> Result<Vec<usize>, AllocError>
    ensures { IfOk result (λ v. v.items ≡ filter (role_at variables.now)
        (range_with_len 0 (length variables.now))) }
{
    let mut found = Vec::new(alloc);
    for i in 0..variables.len() {
        push_if(&mut found, is_reported(variables, i), i)?;
    }
    Ok(found)
}

/// The name of a variable.
fn name_of(alloc: Global, flat: &Flat, place: usize) -> Result<Name, AllocError>
    ensures { IfOk result (λ name. name ≡ variable_name flat.now place) }
{
    match flat.variables().get(place) {
        Some(variable) => variable.name.copied(alloc),
        None => Ok(Name::new(String::new(alloc))),
    }
}

/// The names of the variables of these places.
fn names_of(alloc: Global, flat: &Flat, places: &[usize]) -> Result<Vec<Name>, AllocError>
    ensures { IfOk result (λ v. v.items ≡ map (variable_name flat.now) places.now) }
{
    let mut names = Vec::new(alloc);
    for place in places {
        names.push(name_of(alloc, flat, *place)?)?;
    }
    Ok(names)
}

/// The names of the main outputs, in order of declaration.
pub fn output_names(alloc: Global, plan: &Plan) -> Result<Row<Name>, AllocError>
    ensures { IfOk result (λ names. names ≡ output_names plan.now) }
{
    let outputs = reported_places(alloc, plan.flat().variables())?;
    let names = names_of(alloc, plan.flat(), outputs.as_slice())?;
    Ok(Row::new(names))
}

fn part(plan: &Plan, site: u8, place: usize, from: Option<LinkNo>, to: Vec<LinkNo>) -> Part
    requires from { from ≡ link_into plan.now site place }
    requires to { to.items ≡ sends plan.now site place }
    ensures { result ≡ part_of plan.now site place }
{
    Part {
        own: plan.stands(place, site),
        reported: plan.home(place) == site && is_reported(plan.flat().variables(), place),
        from,
        to: Row::new(to),
    }
}

/// Whether a site computes or takes a flow.
fn is_known(plan: &Plan, site: u8, sources: &[Option<LinkNo>], place: usize) -> bool
    requires within { place < flows_of plan.now.flat }
    requires sources { HasSources plan.now site sources.now }
    ensures { result ≡ knows plan.now site place }
{
    if plan.stands(place, site) {
        return true;
    }
    match sources.get(place) {
        Some(source) => source.is_some(),
        None => false,
    }
}

/// The ranks of the flows that a site computes or takes, in order.
fn known_ranks(
    alloc: Global,
    plan: &Plan,
    site: u8,
    sources: &[Option<LinkNo>],
) -> Result<Vec<usize>, AllocError>
    requires { HasSources plan.now site sources.now }
    ensures { IfOk result (λ v. v.items ≡ ranks_of plan.now site) }
{
    let order = plan.flat().rank();
    let mut found = Vec::new(alloc);
    for p in 0..order.len() {
        push_if(&mut found, is_known(plan, site, sources, order[p]), p)?;
    }
    Ok(found)
}

/// The places of these flows.
fn known_places(
    alloc: Global,
    plan: &Plan,
    site: u8,
    ranks: &[usize],
) -> Result<Vec<usize>, AllocError>
    requires { ranks.now ≡ ranks_of plan.now site }
    ensures { IfOk result (λ v. v.items ≡ places_of plan.now site) }
{
    let order = plan.flat().rank();
    let mut places = Vec::with_capacity(alloc, ranks.len())?;
    for rank in ranks {
        places.push_reserved(number_at(order, *rank));
    }
    Ok(places)
}

/// Notes the number of the flow of a place.
fn note_number(numbers: &mut Vec<u16>, place: usize, number: usize)
    requires within { place < length numbers.old.items }
    requires few { number < 65536 }
    ensures { numbers.new.items ≡ slice_set numbers.old.items place number }
{
    numbers[place] = number as u16;
}

/// By its place, the number of each flow that a site computes or takes among these, in order of rank; 0 for
/// the others.
fn numbers_of(alloc: Global, flows: usize, places: &[usize]) -> Result<Vec<u16>, AllocError>
    requires few { length places.now < 65536 }
    requires within { (k : ℕ) → k < length places.now → slice_index places.now k < flows }
    requires once { (j k : ℕ) → j < k → k < length places.now → slice_index places.now j
        ≢ slice_index places.now k }
    ensures { IfOk result (λ v. (k i : ℕ) → slice_get places.now k ≡ Option.Some i
        → slice_get v.items i ≡ Option.Some k) }
{
    let mut numbers = Vec::from_elem(alloc, 0, flows)?;
    for k in 0..places.len() {
        note_number(&mut numbers, places[k], k);
    }
    Ok(numbers)
}

/// A site's part in each flow that it computes or takes, in order of rank.
fn parts(
    alloc: Global,
    plan: &Plan,
    site: u8,
    carriers: &mut Carriers,
    places: &[usize],
) -> Result<Vec<Part>, AllocError>
    requires plan { IsPlan plan.now }
    requires places { places.now ≡ places_of plan.now site }
    requires sources { HasSources plan.now site carriers.old.sources.items }
    requires rows { (i : ℕ) → i < flows_of plan.now.flat → ForSome (slice_get
        carriers.old.rows.items i) (λ x. x.items ≡ sends plan.now site i) }
    requires rows_len { length carriers.old.rows.items ≡ flows_of plan.now.flat }
    requires sources_len { length carriers.old.sources.items ≡ flows_of plan.now.flat }
    ensures { IfOk result (λ v. v.items ≡ map (part_of plan.now site) (places_of plan.now site)) }
{
    let mut all = Vec::with_capacity(alloc, places.len())?;
    for k in 0..places.len() {
        let i = places[k];
        let to = take_row(alloc, &mut carriers.rows, i);
        all.push_reserved(part(plan, site, i, carriers.sources[i], to));
    }
    Ok(all)
}

/// What the machine of a site has of its flows: these in order of rank, the numbers of the branches of the
/// merges among them, and the links by which the site sends them.
struct SiteParts {
    site_flows: Vec<SiteFlow>,
    branches: Vec<u16>,
    links: Vec<LinkNo>,
}

/// Puts links behind others.
fn put_links(links: &mut Vec<LinkNo>, more: &[LinkNo]) -> Result<(), AllocError>
    ensures { OnOk result (links.new.items ≡ links.old.items ++ more.now) }
{
    for link in more {
        links.push(*link)?;
    }
    Ok(())
}

/// Whether two clocks are surely the same.
fn same_clock(a: LineClock, b: LineClock) -> bool
    ensures { result ≡ true → clock_of a ≡ clock_of b }
{
    match (a, b) {
        (LineClock::Base, LineClock::Base) => true,
        (LineClock::Truth(x, c), LineClock::Truth(y, d)) => x == y && c == d,
        (LineClock::Name(x, c), LineClock::Name(y, d)) => x == y && c == d,
        _ => false,
    }
}

/// The flow of a rank, as the machine of a site has it. The places of its branches, where it is a merge, are
/// put behind those of other flows, and the links by which the site sends it behind those of others. The
/// clock of the flow before is given, and its own comes in the place of that.
fn site_flow(
    plan: &Plan,
    site: u8,
    part: &Part,
    numbers: &[u16],
    branches: &mut Vec<u16>,
    links: &mut Vec<LinkNo>,
    clock: &mut LineClock,
    rank: usize,
) -> Result<SiteFlow, AllocError>
    requires rank { rank < length plan.now.flat.order }
    requires part { part.now ≡ part_of plan.now site (slice_index plan.now.flat.order rank) }
    requires numbers { AreNumbers plan.now site numbers.now }
    requires few { length branches.old.items < 2 ^ 32 }
    requires few_links { length links.old.items < 2 ^ 32 }
    ensures site_flow { IfOk result (IsSiteFlow plan.now site (map (slice_index numbers.now)
        branches.new.items) links.new.items rank) }
    ensures longer { OnOk result (IsLonger branches.old.items branches.new.items) }
    ensures links { OnOk result (links.new.items ≡ links.old.items ++ part.now.to) }
    ensures clock { OnOk result (Some (clock_of clock.new) ≡ clock_at_rank plan.now rank) }
    ensures same { IfOk result
        (λ x. x.same ≡ true → clock_of clock.old ≡ clock_of clock.new) }
{
    let line = line_of(plan.flat(), rank, branches)?;
    let same = same_clock(*clock, line.clock);
    *clock = line.clock;
    let first = links.len() as u32;
    put_links(links, part.to.as_slice())?;
    Ok(SiteFlow {
        line: moved_line(&line, numbers),
        owner: number_at(plan.flat().owners(), line.place as usize),
        own: part.own,
        reported: part.reported,
        from: part.from,
        first,
        outs: part.to.as_slice().len() as u32,
        same,
    })
}

/// The flows that a site computes or takes, in order of rank, as its machine has them.
fn site_parts_of(
    alloc: Global,
    plan: &Plan,
    site: u8,
    parts: &[Part],
    ranks: &[usize],
    numbers: &[u16],
) -> Result<SiteParts, AllocError>
    requires plan { IsPlan plan.now }
    requires parts { parts.now ≡ map (part_of plan.now site) (places_of plan.now site) }
    requires ranks { ranks.now ≡ ranks_of plan.now site }
    requires numbers { AreNumbers plan.now site numbers.now }
    ensures { IfOk result (λ x. AreSiteFlows plan.now site x.branches.items x.links.items
        x.site_flows.items) }
{
    let mut site_flows = Vec::with_capacity(alloc, ranks.len())?;
    let mut branches = Vec::new(alloc);
    let mut links = Vec::new(alloc);
    let mut clock = LineClock::Base;
    for k in 0..ranks.len() {
        let next = site_flow(
            plan,
            site,
            &parts[k],
            numbers,
            &mut branches,
            &mut links,
            &mut clock,
            ranks[k],
        )?;
        site_flows.push_reserved(next);
    }
    let branches = moved_branches(alloc, branches.as_slice(), numbers)?;
    Ok(SiteParts {
        site_flows,
        branches,
        links,
    })
}

/// The number of the flow of a place.
fn number_in(numbers: &[u16], place: usize) -> usize
    ensures { result ≡ slice_index numbers.now place }
{
    match numbers.get(place) {
        Some(number) => *number as usize,
        None => 0,
    }
}

/// The number of an output's flow, where the site reports it.
fn reported_flow(plan: &Plan, site: u8, numbers: &[u16], place: usize) -> Option<usize>
    requires plan { IsPlan plan.now }
    requires numbers { AreNumbers plan.now site numbers.now }
    requires output { is_output_of plan.now.flat place ≡ true }
    requires within { place < flows_of plan.now.flat }
    ensures { Reports plan.now site place result }
{
    if plan.home(place) == site {
        return Some(number_in(numbers, place));
    }
    None
}

/// For each main output the number of its flow, where the site reports it; in order of declaration.
fn all_reported(
    alloc: Global,
    plan: &Plan,
    site: u8,
    numbers: &[u16],
    outputs: &[usize],
) -> Result<Vec<Option<usize>>, AllocError>
    requires plan { IsPlan plan.now }
    requires numbers { AreNumbers plan.now site numbers.now }
    requires outputs { outputs.now ≡ outputs_of plan.now }
    ensures { IfOk result (λ v. AreReported plan.now site v.items) }
{
    let mut reported = Vec::with_capacity(alloc, outputs.len())?;
    for k in 0..outputs.len() {
        reported.push_reserved(reported_flow(plan, site, numbers, outputs[k]));
    }
    Ok(reported)
}

/// What of a site's program is said of the main outputs.
struct Outputs {
    reported: Vec<Option<usize>>,
    names: Vec<Name>,
}

/// For each main output the number of its flow, where the site reports it, and its name.
fn outputs_reported(
    alloc: Global,
    plan: &Plan,
    site: u8,
    numbers: &[u16],
) -> Result<Outputs, AllocError>
    requires { AreNumbers plan.now site numbers.now }
    ensures reported { IfOk result (λ x. AreReported plan.now site x.reported.items) }
    ensures names { IfOk result (λ x. x.names.items ≡ output_names plan.now) }
{
    let outputs = reported_places(alloc, plan.flat().variables())?;
    let reported = all_reported(alloc, plan, site, numbers, outputs.as_slice())?;
    let names = names_of(alloc, plan.flat(), outputs.as_slice())?;
    Ok(Outputs { reported, names })
}

/// What of a plan a site runs.
pub fn project(alloc: Global, plan: &Plan, site: u8) -> Result<SiteProgram, AllocError>
    requires { site < sites_of plan.now }
    ensures { IfOk result (λ x. x ≡ record { plan = plan.now; site = site }) }
{
    let flows = plan.flat().flows().len();
    let mut carriers = carriers_of(alloc, plan, site, flows)?;
    let ranks = known_ranks(alloc, plan, site, carriers.sources.as_slice())?;
    let places = known_places(alloc, plan, site, ranks.as_slice())?;
    let numbers = numbers_of(alloc, flows, places.as_slice())?;
    let parts = parts(alloc, plan, site, &mut carriers, places.as_slice())?;
    let SiteParts {
        site_flows,
        branches,
        links,
    } = site_parts_of(
        alloc,
        plan,
        site,
        parts.as_slice(),
        ranks.as_slice(),
        numbers.as_slice(),
    )?;
    let Outputs { reported, names } = outputs_reported(alloc, plan, site, numbers.as_slice())?;
    Ok(SiteProgram {
        site,
        end: plan.flat().rank().len(),
        ranks: Row::new(ranks),
        places: Row::new(places),
        site_flows: Row::new(site_flows),
        branches: Row::new(branches),
        links: Row::new(links),
        reported: Row::new(reported),
        sites: plan.sites().len() as u8,
        names: Row::new(names),
        plan: Snapshot::of(plan),
    })
}
