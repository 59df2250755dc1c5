//! Why a link is there.

ghost use Rattle.std.specs.Prelude.{◌≡◌};
ghost use Rattle.luflow.specs.Program.{places, clock_reads};
ghost use Rattle.luflow.specs.Rank.{row};
ghost use Rattle.luworld.specs.Needs.{is_in};
ghost use Rattle.luplace_report.specs.Cause.{names_at, clocks_at, is_reader, is_clocked, reader, clocked, cause_of};

use luflow::{Clock, Flat, Form};
use luplace::{Link, Plan};

/// Why a site needs a variable that doesn't stand there.
#[derive(Clone, Copy, Debug, Drop, PartialEq, Eq)]
pub enum Cause {
    /// The flow of this place stands there and names the variable.
    Reader(usize),
    /// The flow of this place is needed there, and the variable is that of its clock.
    Clock(usize),
}

/// Whether a form has this place among its operands.
fn is_operand(form: &Form, place: usize) -> bool
    ensures { result ≡ is_in place (places form.now) }
{
    match form {
        Form::Input(_) => false,
        Form::Constant(_) => false,
        Form::Copied(a) => *a == place,
        Form::Unary(_, a) => *a == place,
        Form::Binary(_, a, b) => *a == place || *b == place,
        Form::If(c, a, b) => *c == place || *a == place || *b == place,
        Form::Pre(a) => *a == place,
        Form::Arrow(a, b) => *a == place || *b == place,
        Form::When(a) => *a == place,
        Form::Current(a) => *a == place,
        Form::Merge(c, branches) => *c == place || is_in(place, branches.as_slice()),
    }
}

/// Whether a clock is on this variable.
fn is_on(clock: Clock, variable: usize) -> bool
    ensures { result ≡ is_in variable (clock_reads clock) }
{
    match clock {
        Clock::Base => false,
        Clock::On(c, _) => c == variable,
    }
}

/// Whether the flow of a place names this variable.
fn names_at(flat: &Flat, place: usize, variable: usize) -> bool
    ensures { result ≡ names_at flat.now place variable }
{
    match flat.flows().get(place) {
        Some(flow) => is_operand(&flow.form, variable) || is_on(flow.clock, variable),
        None => false,
    }
}

/// Whether the clock of the flow of a place is on this variable.
fn clocks_at(flat: &Flat, place: usize, variable: usize) -> bool
    ensures { result ≡ clocks_at flat.now place variable }
{
    match flat.flows().get(place) {
        Some(flow) => is_on(flow.clock, variable),
        None => false,
    }
}

/// The places of the flows that a site needs.
fn needs_at(plan: &Plan, site: u8) -> &[usize]
    ensures { result.now ≡ row plan.now.needs site }
{
    plan.recall_invariant();
    if usize::from(site) < plan.sites().len() {
        plan.needs(site)
    } else {
        &[]
    }
}

fn is_in(place: usize, places: &[usize]) -> bool
    ensures { result ≡ is_in place places.now }
{
    places.iter().any(|other| *other == place)
}

/// Whether the flow of a place stands at a site and names this variable.
fn is_reader(plan: &Plan, site: u8, variable: usize, place: usize) -> bool
    ensures { result ≡ is_reader plan.now site variable place }
{
    plan.stands(place, site) && names_at(plan.flat(), place, variable)
}

/// Whether the flow of a place is needed at a site and its clock is on this variable.
fn is_clocked(plan: &Plan, site: u8, variable: usize, place: usize) -> bool
    ensures { result ≡ is_clocked plan.now site variable place }
{
    clocks_at(plan.flat(), place, variable) && is_in(place, needs_at(plan, site))
}

/// The least place whose flow stands at a site and names this variable.
fn reader(plan: &Plan, site: u8, variable: usize) -> Option<usize>
    ensures { result ≡ reader plan.now site variable }
{
    (0..plan.flat().flows().len()).find(|place| is_reader(plan, site, variable, *place))
}

/// The least place whose flow is needed at a site and has its clock on this variable.
fn clocked(plan: &Plan, site: u8, variable: usize) -> Option<usize>
    ensures { result ≡ clocked plan.now site variable }
{
    (0..plan.flat().flows().len()).find(|place| is_clocked(plan, site, variable, *place))
}

/// Why the receiving site of a link needs the link's variable. Takes no memory; the time grows with the
/// number of flows.
pub fn cause_of(plan: &Plan, link: Link) -> Option<Cause>
    ensures { result ≡ cause_of plan.now link }
{
    match reader(plan, link.to, link.flow) {
        Some(place) => Some(Cause::Reader(place)),
        None => match clocked(plan, link.to, link.flow) {
            Some(place) => Some(Cause::Clock(place)),
            None => None,
        },
    }
}
