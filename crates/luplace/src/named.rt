//! What a flow reads.

ghost use Rattle.std.specs.Prelude.{◌≡◌, ◌<◌, ◌++◌, All, IfOk, OnOk};
ghost use Rattle.luflow.specs.Program.{flow_at, flows_of, places, clock_reads};
ghost use Rattle.luplace.specs.Ways.{named};

use luflow::{Clock, Flat, Flow, Form};
use std::alloc::{AllocError, Global};

/// Adds an operand.
fn put_one(named: &mut Vec<usize>, a: usize) -> Result<(), AllocError>
    ensures { OnOk result (named.new.items ≡ named.old.items ++ places (Form.Pre a)) }
{
    named.push(a)?;
    Ok(())
}

/// Adds two operands.
fn put_two(named: &mut Vec<usize>, a: usize, b: usize) -> Result<(), AllocError>
    ensures { OnOk result (named.new.items ≡ named.old.items ++ places (Form.Arrow a b)) }
{
    named.push(a)?;
    named.push(b)?;
    Ok(())
}

/// Adds three operands.
fn put_three(named: &mut Vec<usize>, c: usize, a: usize, b: usize) -> Result<(), AllocError>
    ensures { OnOk result (named.new.items ≡ named.old.items ++ places (Form.If c a b)) }
{
    named.push(c)?;
    named.push(a)?;
    named.push(b)?;
    Ok(())
}

/// Adds the operands of a form.
fn put_operands(named: &mut Vec<usize>, form: &Form) -> Result<(), AllocError>
    ensures { OnOk result (named.new.items ≡ named.old.items ++ places form.now) }
{
    match form {
        Form::Input(_) => Ok(()),
        Form::Constant(_) => Ok(()),
        Form::Copied(a) => put_one(named, *a),
        Form::Unary(_, a) => put_one(named, *a),
        Form::Binary(_, a, b) => put_two(named, *a, *b),
        Form::If(c, a, b) => put_three(named, *c, *a, *b),
        Form::Pre(a) => put_one(named, *a),
        Form::Arrow(a, b) => put_two(named, *a, *b),
        Form::When(a) => put_one(named, *a),
        Form::Current(a) => put_one(named, *a),
        Form::Merge(c, branches) => {
            named.push(*c)?;
            named.extend_from_slice(branches.as_slice())
        }
    }
}

/// Adds the variable of a clock.
fn put_clock(named: &mut Vec<usize>, clock: Clock) -> Result<(), AllocError>
    ensures { OnOk result (named.new.items ≡ named.old.items ++ clock_reads clock) }
{
    match clock {
        Clock::Base => Ok(()),
        Clock::On(c, _) => put_one(named, c),
    }
}

/// What a flow reads: its operands, and the variable of its clock.
pub fn named_of(alloc: Global, flat: &Flat, i: usize) -> Result<Vec<usize>, AllocError>
    ensures reads { IfOk result (λ reads. reads.items ≡ named (flow_at flat.now i)) }
    ensures inside { IfOk result (λ reads. All (λ r. r < flows_of flat.now) reads.items) }
{
    let mut named = Vec::new(alloc);
    if let Some(flow) = flat.flows().get(i) {
        put_operands(&mut named, &flow.form)?;
        put_clock(&mut named, flow.clock)?;
    }
    Ok(named)
}
