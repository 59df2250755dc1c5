//! A value change dump of outputs, in which the sites are scopes.

ghost use Rattle.std.specs.Prelude.{if◌then◌else◌, ◌≡◌, ◌∷◌, ◌++◌, IfOk, OnOk, cond, [], string_bytes};
ghost use Rattle.luworld.specs.Needs.{stands};
ghost use Rattle.luworld.specs.Jobs.{outputs_of};
ghost use Rattle.luchart.specs.Pieces.{Adds};
ghost use Rattle.luchart.specs.Signals.{signal_view, signals_view};
ghost use Rattle.luchart.specs.Dump.{declaration};
ghost use Rattle.luweave_text.specs.Waves.{scope, scope_end, scope_opening, scopes, site_dump, site_flows, site_header, variable_kind, variable_signal, AreOutputSignals};

use crate::text::site_name;
use lubase::number_at;
use luchart::signal::{Signal, longest};
use luchart::waves::{put_closing, put_declaration, put_opening, put_times};
use luflow::{Flat, Status};
use luplace::Plan;
use lutree::Kind;
use luweave::World;
use std::alloc::{AllocError, Global};

/// Adds a number, if it is wanted.
fn push_if(numbers: &mut Vec<usize>, wanted: bool, number: usize) -> Result<(), AllocError>
    ensures { OnOk result (numbers.new.items
        ≡ numbers.old.items ++ cond wanted (number ∷ []) []) }
{
    if wanted {
        numbers.push(number)?;
    }
    Ok(())
}

/// The numbers of the outputs of a plan's program among its main variables, in order.
fn output_numbers(alloc: Global, plan: &Plan) -> Result<Vec<usize>, AllocError>
    ensures { IfOk result (λ v. v.items ≡ outputs_of plan.now) }
{
    let flat = plan.flat();
    let mut numbers = Vec::new(alloc);
    for v in 0..flat.variables().len() {
        push_if(&mut numbers, flat.is_output(v), v)?;
    }
    Ok(numbers)
}

/// Adds the declaration of flow k, where the site computes the variable of this number.
fn put_declared(
    text: &mut String,
    plan: &Plan,
    site: u8,
    number: usize,
    k: usize,
    signal: &Signal<'_>,
) -> Result<(), AllocError>
    ensures { Adds result text.old text.new
        (if stands plan.now number site then declaration k (signal_view signal.now) else []) }
{
    if plan.stands(number, site) {
        return put_declaration(text, k, signal);
    }
    Ok(())
}

/// Adds the declarations of the outputs that a site computes.
fn put_site_flows(
    text: &mut String,
    plan: &Plan,
    numbers: &[usize],
    signals: &[Signal<'_>],
    site: u8,
) -> Result<(), AllocError>
    requires { numbers.now ≡ outputs_of plan.now }
    ensures { Adds result text.old text.new
        (site_flows plan.now (signals_view signals.now) site) }
{
    for k in 0..signals.len() {
        put_declared(text, plan, site, number_at(numbers, k), k, &signals[k])?;
    }
    Ok(())
}

/// Adds the beginning of a scope of this name.
fn put_scope_opening(text: &mut String, name: &str) -> Result<(), AllocError>
    ensures { Adds result text.old text.new (scope_opening name.now) }
{
    writeln!(text, "$scope module {name} $end")
}

/// Adds the end of a scope.
fn put_scope_end(text: &mut String) -> Result<(), AllocError>
    ensures { Adds result text.old text.new scope_end }
{
    text.push_str("$upscope $end\n")
}

/// Adds the scope of a site.
fn put_scope(
    text: &mut String,
    plan: &Plan,
    numbers: &[usize],
    signals: &[Signal<'_>],
    site: u8,
) -> Result<(), AllocError>
    requires { numbers.now ≡ outputs_of plan.now }
    ensures { Adds result text.old text.new (scope plan.now (signals_view signals.now) site) }
{
    put_scope_opening(text, site_name(plan.sites(), site))?;
    put_site_flows(text, plan, numbers, signals, site)?;
    put_scope_end(text)
}

/// Adds the scopes of all sites.
fn put_scopes(
    text: &mut String,
    plan: &Plan,
    numbers: &[usize],
    signals: &[Signal<'_>],
) -> Result<(), AllocError>
    requires { numbers.now ≡ outputs_of plan.now }
    ensures { Adds result text.old text.new (scopes plan.now (signals_view signals.now)) }
{
    plan.recall_invariant();
    let count = plan.sites().len() as u8;
    for site in 0..count {
        put_scope(text, plan, numbers, signals, site)?;
    }
    Ok(())
}

/// Adds what stands before the first time.
fn put_site_header(
    text: &mut String,
    main: &str,
    plan: &Plan,
    numbers: &[usize],
    signals: &[Signal<'_>],
) -> Result<(), AllocError>
    requires { numbers.now ≡ outputs_of plan.now }
    ensures { Adds result text.old text.new
        (site_header main.now plan.now (signals_view signals.now)) }
{
    put_opening(text, main)?;
    put_scopes(text, plan, numbers, signals)?;
    put_closing(text)
}

/// The value change dump of the outputs of a plan's program, whose main node has this name: an output is
/// declared in the scope of each site that computes it. Where less is known of one output than of another, it
/// is nil from there on. Else it is as `luchart::dump` has it.
///
/// # Errors
///
/// `AllocError` where memory ran out.
pub fn dump_by_site(
    alloc: Global,
    main: &str,
    plan: &Plan,
    signals: &[Signal<'_>],
) -> Result<String, AllocError>
    ensures { IfOk result (λ s. string_bytes s
        ≡ site_dump main.now plan.now (signals_view signals.now)) }
{
    let numbers = output_numbers(alloc, plan)?;
    let mut text = String::new(alloc);
    put_site_header(&mut text, main, plan, &numbers, signals)?;
    put_times(alloc, &mut text, signals, longest(signals))?;
    Ok(text)
}

/// The type of a main variable.
fn variable_kind(flat: &Flat, variable: usize) -> Kind
    ensures { result ≡ variable_kind flat.now variable }
{
    match flat.variables().get(variable) {
        Some(found) => found.kind,
        None => Kind::Int,
    }
}

/// A main variable with these statuses.
fn variable_signal<'a>(flat: &'a Flat, variable: usize, statuses: &'a [Status]) -> Signal<'a>
    ensures { signal_view result ≡ variable_signal flat.now variable statuses.now }
{
    Signal {
        name: flat.variable_name(variable),
        kind: variable_kind(flat, variable),
        names: flat.variable_names(variable),
        statuses,
    }
}

/// The main variables of these numbers, which are the outputs, each as far as a world has passed it.
fn signals_at<'a>(
    alloc: Global,
    plan: &'a Plan,
    world: &'a World,
    numbers: &[usize],
) -> Result<Vec<Signal<'a>>, AllocError>
    requires plan_is { world.now.job.plan ≡ plan.now }
    requires outputs { numbers.now ≡ outputs_of plan.now }
    ensures { IfOk result (λ v. AreOutputSignals world.now (signals_view v.items)) }
{
    let flat = plan.flat();
    let mut signals = Vec::with_capacity(alloc, numbers.len())?;
    for k in 0..numbers.len() {
        let variable = number_at(numbers, k);
        signals.push(variable_signal(flat, variable, world.outputs(k)))?;
    }
    Ok(signals)
}

/// The outputs of a world, in order, each as far as it was passed.
///
/// # Errors
///
/// `AllocError` where memory ran out.
pub fn output_signals<'a>(
    alloc: Global,
    plan: &'a Plan,
    world: &'a World,
) -> Result<Vec<Signal<'a>>, AllocError>
    requires { world.now.job.plan ≡ plan.now }
    ensures { IfOk result (λ v. AreOutputSignals world.now (signals_view v.items)) }
{
    let numbers = output_numbers(alloc, plan)?;
    signals_at(alloc, plan, world, &numbers)
}
