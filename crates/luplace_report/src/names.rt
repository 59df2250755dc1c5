//! How variables, sites, types and clocks are named.

ghost use Rattle.std.specs.Prelude.{◌≡◌, ◌++◌, IfOk, slice_index, string_bytes};
ghost use Rattle.luflow.specs.Variables.{variable_name};
ghost use Rattle.luplace_report.specs.Names.{site_name, type_name, type_of, clock_text, clock_of, Adds};

use lubase::Name;
use luflow::{Clock, Datum, Enum, Flat, name_of};
use lutree::Kind;
use std::alloc::{AllocError, Global};

/// The main variable in whose equation the flow of a place stands.
pub fn owner_of(flat: &Flat, place: usize) -> usize
    ensures { result ≡ slice_index flat.now.owners place }
{
    match flat.owners().get(place) {
        Some(variable) => *variable,
        None => 0,
    }
}

/// The name of the main variable in whose equation the flow of a place stands.
pub fn owner_name(flat: &Flat, place: usize) -> &str
    ensures { result.now ≡ variable_name flat.now (slice_index flat.now.owners place) }
{
    flat.variable_name(owner_of(flat, place))
}

/// The name of a site.
pub fn site_name(names: &[Name], site: u8) -> &str
    ensures { result.now ≡ site_name names.now site }
{
    match names.get(usize::from(site)) {
        Some(name) => name.as_str(),
        None => "",
    }
}

/// The name of a type of a program with these types.
fn type_name(types: &[Enum], kind: Kind) -> &str
    ensures { result.now ≡ type_name types.now kind }
{
    match kind {
        Kind::Int => "int",
        Kind::Bool => "bool",
        Kind::Enum(place, _) => match types.get(usize::from(place)) {
            Some(found) => found.name.as_str(),
            None => "",
        },
    }
}

/// The name of a main variable's type.
pub fn type_of(flat: &Flat, variable: usize) -> &str
    ensures { result.now ≡ type_of flat.now variable }
{
    match flat.variables().get(variable) {
        Some(found) => type_name(flat.types(), found.kind),
        None => "",
    }
}

/// The clock of a flow.
pub fn clock_of(flat: &Flat, place: usize) -> Clock
    ensures { result ≡ clock_of flat.now place }
{
    match flat.flows().get(place) {
        Some(flow) => flow.clock,
        None => Clock::Base,
    }
}

/// Adds `c`, `not c` or `A(c)`, or nothing for the base clock.
pub fn put_clock(text: &mut String, flat: &Flat, clock: Clock) -> Result<(), AllocError>
    ensures { Adds result text.old text.new (clock_text flat.now clock) }
{
    match clock {
        Clock::Base => Ok(()),
        Clock::On(variable, Datum::Bool(false)) => {
            text.push_str("not ")?;
            text.push_str(flat.variable_name(variable))
        }
        Clock::On(variable, Datum::Name(number)) => {
            let name = name_of(flat.variable_names(variable), number);
            let on = flat.variable_name(variable);
            write!(text, "{name}({on})")
        }
        Clock::On(variable, _) => text.push_str(flat.variable_name(variable)),
    }
}

/// `c`, `not c` or `A(c)`, or the empty text for the base clock.
pub fn clock_text(alloc: Global, flat: &Flat, clock: Clock) -> Result<String, AllocError>
    ensures { IfOk result (λ text. string_bytes text ≡ clock_text flat.now clock) }
{
    let mut text = String::new(alloc);
    put_clock(&mut text, flat, clock)?;
    Ok(text)
}
