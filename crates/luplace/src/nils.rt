//! Which flows may be nil: the least classes of initialisation.

ghost use Rattle.std.specs.Prelude.{◌≡◌, ◌<◌, length, true, IfOk};
ghost use Rattle.luflow.specs.Program.{flow_at};
ghost use Rattle.luplace.specs.Classes.{class_in};
ghost use Rattle.luplace.specs.Nils.{nil_by, nil_at, looked, AreLeast};

use crate::marking::mark;
use luflow::{Flat, Form};
use std::alloc::{AllocError, Global};

/// Whether a flow may be nil where its clock is first true, by these classes. One that they don't name may.
pub fn class_in(nils: &[bool], i: usize) -> bool
    ensures { result ≡ class_in nils.now i }
{
    match nils.get(i) {
        Some(nil) => *nil,
        None => true,
    }
}

/// Whether a flow of this form may be nil where its clock is first true, if of what it reads then these may.
fn nil_by(nils: &[bool], form: &Form) -> bool
    ensures { result ≡ nil_by (class_in nils.now) form.now }
{
    match form {
        Form::Input(_) => false,
        Form::Constant(_) => false,
        Form::Copied(a) => class_in(nils, *a),
        Form::Unary(_, a) => class_in(nils, *a),
        Form::Binary(_, a, b) => class_in(nils, *a) || class_in(nils, *b),
        Form::If(c, a, b) => class_in(nils, *c) || class_in(nils, *a) || class_in(nils, *b),
        Form::Pre(_) => true,
        Form::Arrow(a, _) => class_in(nils, *a),
        Form::When(a) => class_in(nils, *a),
        Form::Current(_) => false,
        Form::Merge(_, _) => false,
    }
}

/// Whether the flow of a place may be nil, if of what it reads then these may.
fn nil_at(nils: &[bool], flat: &Flat, i: usize) -> bool
    ensures { result ≡ nil_at (class_in nils.now) (flow_at flat.now i) }
{
    match flat.flows().get(i) {
        Some(flow) => nil_by(nils, &flow.form),
        None => false,
    }
}

/// Looks at the flow of a rank.
fn look_at(nils: &mut Vec<bool>, flat: &Flat, p: usize)
    requires { p < length flat.now.order }
    ensures { nils.new.items ≡ looked flat.now p nils.old.items }
{
    let i = flat.rank()[p];
    if nil_at(nils.as_slice(), flat, i) {
        mark(nils, i);
    }
}

/// The least classes that meet the rules of initialisation: true of the flows that must have it. The time
/// grows with the number of reads.
///
/// # Errors
///
/// Out of memory.
pub fn least_nils(alloc: Global, flat: &Flat) -> Result<Vec<bool>, AllocError>
    ensures { IfOk result (λ nils. AreLeast flat.now nils.items) }
{
    let mut nils = vec![in alloc; false; flat.flows().len()]?;
    for p in 0..flat.rank().len() {
        look_at(&mut nils, flat, p);
    }
    Ok(nils)
}
