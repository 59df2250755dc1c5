//! A called node's list, moved to where it is called.

ghost use Rattle.std.specs.Prelude.{◌≡◌, ◌+◌, ◌++◌, ◌∷◌, [], length, map, slice_index, IfOk, OnOk};
ghost use Rattle.lucore_laws.specs.Layout.{moved_form, moved_clock, moved};
ghost use Rattle.lucore_build.specs.Operands.{places_of};

use crate::operand::{Operand, sum_of};
use lubase::Row;
use luflow::{Clock, Flow, Form};
use std::alloc::{AllocError, Global};

/// Where the argument of a number stands; 0 where there is none.
fn argument_place(arguments: &[Operand], number: usize) -> usize
    ensures { result ≡ slice_index (places_of arguments.now) number }
{
    match arguments.get(number) {
        Some(argument) => argument.place,
        None => 0,
    }
}

/// The branches of a merge in a list that is moved to a place.
fn branches_moved(alloc: Global, base: usize, branches: &[usize]) -> Result<Row<usize>, AllocError>
    ensures { IfOk result (λ row. row ≡ map (λ x. base + x) branches.now) }
{
    let mut moved = Vec::with_capacity(alloc, branches.len())?;
    for branch in branches {
        moved.push(sum_of(base, *branch)?)?;
    }
    Ok(Row::new(moved))
}

/// A form of a list that is moved to a place.
fn form_moved(
    alloc: Global,
    base: usize,
    arguments: &[Operand],
    form: &Form,
) -> Result<Form, AllocError>
    ensures { IfOk result (λ f. f ≡ moved_form base (places_of arguments.now) form.now) }
{
    match form {
        Form::Input(number) => Ok(Form::Copied(argument_place(arguments, *number))),
        Form::Constant(datum) => Ok(Form::Constant(*datum)),
        Form::Copied(x) => Ok(Form::Copied(sum_of(base, *x)?)),
        Form::Unary(op, x) => Ok(Form::Unary(*op, sum_of(base, *x)?)),
        Form::Binary(op, x, y) => Ok(Form::Binary(*op, sum_of(base, *x)?, sum_of(base, *y)?)),
        Form::If(c, x, y) => Ok(Form::If(sum_of(base, *c)?, sum_of(base, *x)?, sum_of(base, *y)?)),
        Form::Pre(x) => Ok(Form::Pre(sum_of(base, *x)?)),
        Form::Arrow(x, y) => Ok(Form::Arrow(sum_of(base, *x)?, sum_of(base, *y)?)),
        Form::When(x) => Ok(Form::When(sum_of(base, *x)?)),
        Form::Current(x) => Ok(Form::Current(sum_of(base, *x)?)),
        Form::Merge(c, branches) => {
            let moved = branches_moved(alloc, base, branches.as_slice())?;
            Ok(Form::Merge(sum_of(base, *c)?, moved))
        }
    }
}

/// A clock of a list that is moved to a place, where this clock takes the place of the base clock.
fn clock_moved(base: usize, call: Clock, clock: Clock) -> Result<Clock, AllocError>
    ensures { IfOk result (λ k. k ≡ moved_clock base call clock) }
{
    match clock {
        Clock::Base => Ok(call),
        Clock::On(x, value) => Ok(Clock::On(sum_of(base, x)?, value)),
    }
}

/// A flow of a list that is moved to a place.
fn flow_moved(
    alloc: Global,
    base: usize,
    call: Clock,
    arguments: &[Operand],
    flow: &Flow,
) -> Result<Flow, AllocError>
    ensures { IfOk result (λ f. f ≡ moved base call (places_of arguments.now) flow.now) }
{
    Ok(Flow {
        form: form_moved(alloc, base, arguments, &flow.form)?,
        clock: clock_moved(base, call, flow.clock)?,
        kind: flow.kind,
    })
}

/// Puts a list behind the flows before, moved there, on the clock of a call and with its arguments.
///
/// # Errors
///
/// An error means that memory ran out.
pub fn push_moved(
    alloc: Global,
    flows: &mut Vec<Flow>,
    call: Clock,
    arguments: &[Operand],
    list: &[Flow],
) -> Result<(), AllocError>
    ensures { OnOk result (flows.new.items ≡ flows.old.items
        ++ map (moved (length flows.old.items) call (places_of arguments.now)) list.now) }
{
    let base = flows.len();
    for flow in list {
        flows.push(flow_moved(alloc, base, call, arguments, flow)?)?;
    }
    Ok(())
}
