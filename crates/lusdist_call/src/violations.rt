//! Outputs that are observed: those that are never to be false.

ghost use Rattle.std.specs.Prelude.{◌≡◌, ◌<◌, ◌⊎◌, ◌||◌, ◌∷◌, [], Some, find, length, slice_get, IfOk, IfErr, OnOk, None, option_map, string_bytes};
ghost use Rattle.std.specs.List.{position};
ghost use Rattle.std.specs.Option.{option_or};
ghost use Rattle.clap.specs.Walk.{texts};
ghost use Rattle.luchart.specs.Pieces.{Adds};
ghost use Rattle.luchart.specs.Signals.{signal_view, signals_of, signals_view};
ghost use Rattle.lusdist_call.specs.Violations.{is_bool, is_false, is_observable, is_unknown, unobserved, violation, violation_if, violation_line, violation_of, violations, AreViolationsOf};
ghost use Rattle.lusdist_call.specs.Stopped.{IsUnobserved};
ghost use Rattle.lusdist_call.specs.declared.call_error.CallError.TheVariants.{Mistaken, OutOfMemory};
ghost use Rattle.lusdist_call.specs.declared.mistake.Mistake.TheVariants.{Unobserved};

use crate::call_error::CallError;
use crate::mistake::Mistake;
use lubase::Name;
use luchart::signal::{Signal, signals_of};
use luflow::{Datum, Enum, Flat, Outputs, Status, Variable};
use luplace::Plan;
use lutree::Kind;
use luweave::World;
use luweave_text::output_signals;
use std::alloc::{AllocError, Global};

/// Whether a type is `bool`.
fn is_bool(kind: Kind) -> bool
    ensures { result ≡ is_bool kind }
{
    match kind {
        Kind::Bool => true,
        Kind::Int | Kind::Enum(_, _) => false,
    }
}

/// Whether a main variable is a bool output of this name.
fn is_observable(x: &Variable, name: &str) -> bool
    ensures { result ≡ is_observable name.now x.now }
{
    x.role.is_output() && is_bool(x.kind) && x.name.is(name)
}

/// Whether one of two is so.
fn either(one: bool, other: bool) -> bool
    ensures { result ≡ (one || other) }
{
    one || other
}

/// Whether no main variable is a bool output of this name.
fn is_unknown(variables: &[Variable], name: &str) -> bool
    ensures { result ≡ is_unknown variables.now name.now }
{
    let mut found = false;
    for x in variables {
        found = either(found, is_observable(x, name));
    }
    !found
}

/// The name of this number.
fn name_at<'a>(names: &[&'a str], k: usize) -> &'a str
    requires { k < length names.now }
    ensures { slice_get names.now k ≡ Some result }
{
    names[k]
}

/// What is found already, or else this name, if it is no bool output.
fn first_of<'a>(found: Option<&'a str>, variables: &[Variable], name: &'a str) -> Option<&'a str>
    ensures { option_map (λ s. s.now) result ≡ option_or (option_map (λ s. s.now) found.entry)
        (find (is_unknown variables.now) (name.now ∷ [])) }
{
    match found {
        Some(first) => Some(first),
        None => {
            if is_unknown(variables, name) {
                Some(name)
            } else {
                None
            }
        }
    }
}

/// The first of the names that is no bool output.
fn unobserved<'a>(variables: &[Variable], names: &[&'a str]) -> Option<&'a str>
    ensures { option_map (λ s. s.now) result ≡ unobserved variables.now (texts names.now) }
{
    let mut found = None;
    for k in 0..names.len() {
        found = first_of(found, variables, name_at(names, k));
    }
    found
}

/// The stop for a name that is no bool output.
fn no_output(alloc: Global, name: &str) -> CallError
    ensures { (result ≡ OutOfMemory) ⊎ (result ≡ Mistaken (Unobserved name.now)) }
{
    match Name::from_text(alloc, name) {
        Ok(name) => CallError::Mistaken(Mistake::Unobserved { name }),
        Err(_) => CallError::OutOfMemory,
    }
}

/// Whether all names that are observed are bool outputs of the main node of a flat program.
///
/// # Errors
///
/// `CallError::Mistaken` with the first name that is none; `CallError::OutOfMemory`.
pub fn observe(alloc: Global, flat: &Flat, names: &[&str]) -> Result<(), CallError>
    ensures observed { OnOk result (unobserved flat.now.variables (texts names.now) ≡ None) }
    ensures stopped { IfErr result (λ stop. (stop ≡ OutOfMemory)
        ⊎ IsUnobserved flat.now (texts names.now) stop) }
{
    match unobserved(flat.variables(), names) {
        None => Ok(()),
        Some(name) => Err(no_output(alloc, name)),
    }
}

/// Whether a flow is present and false.
fn is_false(status: Status) -> bool
    ensures { result ≡ is_false status }
{
    match status {
        Status::Present(Datum::Bool(value)) => !value,
        _ => false,
    }
}

/// The least instant at which a flow is present and false, where there is one.
fn first_false(statuses: &[Status]) -> Option<usize>
    ensures { result ≡ position is_false statuses.now }
{
    statuses.iter().position(|status| is_false(*status))
}

/// Adds the line of a flow that is false.
fn put_line(text: &mut String, name: &str, instant: usize) -> Result<(), AllocError>
    ensures { Adds result text.old text.new (violation_line name.now instant) }
{
    writeln!(text, "A1 Violated {name} {instant}")
}

/// Adds what is told of a flow.
fn put_flow(text: &mut String, flow: &Signal<'_>) -> Result<(), AllocError>
    ensures { Adds result text.old text.new (violation (signal_view flow.now)) }
{
    match first_false(flow.statuses) {
        Some(instant) => put_line(text, flow.name, instant),
        None => Ok(()),
    }
}

/// Adds the same, if the flow has this name.
fn put_if(text: &mut String, flow: &Signal<'_>, name: &str) -> Result<(), AllocError>
    ensures { Adds result text.old text.new (violation_if name.now (signal_view flow.now)) }
{
    if flow.name == name {
        return put_flow(text, flow);
    }
    Ok(())
}

/// Adds what is told of a name.
fn put_name(text: &mut String, flows: &[Signal<'_>], name: &str) -> Result<(), AllocError>
    ensures { Adds result text.old text.new (violation_of (signals_view flows.now) name.now) }
{
    for flow in flows {
        put_if(text, flow, name)?;
    }
    Ok(())
}

/// Adds what is told of all names.
fn put_names(text: &mut String, names: &[&str], flows: &[Signal<'_>]) -> Result<(), AllocError>
    ensures { Adds result text.old text.new
        (violations (texts names.now) (signals_view flows.now)) }
{
    for k in 0..names.len() {
        put_name(text, flows, name_at(names, k))?;
    }
    Ok(())
}

/// What is told of flows that are observed by these names.
fn violations_of(alloc: Global, names: &[&str], flows: &[Signal<'_>]) -> Result<String, AllocError>
    ensures { IfOk result (λ told. string_bytes told
        ≡ violations (texts names.now) (signals_view flows.now)) }
{
    let mut text = String::new(alloc);
    put_names(&mut text, names, flows)?;
    Ok(text)
}

/// What is told of columns of these types, of which those of these names are observed: a line for each that
/// is false at some instant, in the order of the names.
///
/// # Errors
///
/// `AllocError` where memory ran out.
pub fn column_violations(
    alloc: Global,
    names: &[&str],
    types: &[Enum],
    kinds: &[Kind],
    columns: &Outputs,
) -> Result<String, AllocError>
    ensures { IfOk result (λ told. string_bytes told
        ≡ violations (texts names.now) (signals_of types.now kinds.now columns.now)) }
{
    let flows = signals_of(alloc, types, kinds, columns.columns())?;
    violations_of(alloc, names, &flows)
}

/// What is told of the outputs of a world, each as far as it was passed, of which these are observed.
///
/// # Errors
///
/// `AllocError` where memory ran out.
pub fn world_violations(
    alloc: Global,
    names: &[&str],
    plan: &Plan,
    world: &World,
) -> Result<String, AllocError>
    requires { world.now.job.plan ≡ plan.now }
    ensures { IfOk result (λ told. AreViolationsOf (texts names.now) world.now
        (string_bytes told)) }
{
    let flows = output_signals(alloc, plan, world)?;
    violations_of(alloc, names, &flows)
}
