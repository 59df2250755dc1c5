//! Which flows a site computes and which it takes, and which variables it keeps statuses of.

ghost use Rattle.std.specs.Prelude.{◌≡◌, ◌<◌, ℕ, IfOk, IfSome, length, true};
ghost use Rattle.luflow.specs.Variables.{is_output_of};
ghost use Rattle.lublock_site.specs.Marks.{marked};
ghost use Rattle.lublock_site.specs.Codes.{AreKnown, AreOwnMarks, AreSiteMarks, AreTakenMarks, output_at, outputs_at};

use crate::parts::{is_marked, is_part};
use lublock_plan::needed_of;
use luflow::Flat;
use luplace::Plan;
use std::alloc::{AllocError, Global};

/// For each flow whether it is computed at a site, and whether it is taken there.
#[derive(Drop)]
pub struct Marks {
    pub own: Vec<bool>,
    pub taken: Vec<bool>,
}

/// Marks the flows that stand at a site.
fn own_marks(alloc: Global, plan: &Plan, site: u8) -> Result<Vec<bool>, AllocError>
    ensures { IfOk result (λ own. AreOwnMarks plan.now site own.items) }
{
    let count = plan.flat().flows().len();
    let mut own = Vec::with_capacity(alloc, count)?;
    for i in 0..count {
        own.push(plan.stands(i, site))?;
    }
    Ok(own)
}

/// Marks one place, if it is there.
fn mark(marks: &mut Vec<bool>, i: usize)
    ensures kept { (r : ℕ) → marked marks.old.items r ≡ true → marked marks.new.items r ≡ true }
    ensures here { i < length marks.old.items → marked marks.new.items i ≡ true }
    ensures len { length marks.new.items ≡ length marks.old.items }
{
    if i < marks.len() {
        marks[i] = true;
    }
}

/// Marks the flows that links bring to a site. None where one isn't among the program's flows, or is computed
/// there.
fn taken_marks(
    alloc: Global,
    plan: &Plan,
    site: u8,
    own: &[bool],
) -> Result<Option<Vec<bool>>, AllocError>
    ensures { IfOk result (λ o. IfSome o (λ taken. AreTakenMarks plan.now site taken.items)) }
{
    let mut taken = vec![in alloc; false; plan.flat().flows().len()]?;
    let links = plan.links();
    for l in 0..links.len() {
        if links[l].to == site {
            let flow = links[l].flow;
            if taken.len() <= flow || is_marked(own, flow) {
                return Ok(None);
            }
            mark(&mut taken, flow);
        }
    }
    Ok(Some(taken))
}

/// Which flows a site computes, and which links bring to it. None where one that a link brings is also
/// computed there, or where they aren't a part of the program.
///
/// # Errors
///
/// Out of memory.
pub fn marks_of(alloc: Global, plan: &Plan, site: u8) -> Result<Option<Marks>, AllocError>
    ensures { IfOk result
        (λ o. IfSome o (λ x. AreSiteMarks plan.now site x.own.items x.taken.items)) }
{
    let own = own_marks(alloc, plan, site)?;
    let Some(taken) = taken_marks(alloc, plan, site, own.as_slice())? else {
        return Ok(None);
    };
    if !is_part(plan.flat(), own.as_slice(), taken.as_slice()) {
        return Ok(None);
    }
    Ok(Some(Marks { own, taken }))
}

/// Whether a main variable is an output.
fn is_output(flat: &Flat, v: usize) -> bool
    ensures { result ≡ is_output_of flat.now v }
{
    match flat.variables().get(v) {
        Some(variable) => variable.role.is_output(),
        None => false,
    }
}

/// This output where the site is its home; none elsewhere.
fn output_at(plan: &Plan, site: u8, v: usize) -> Option<usize>
    ensures { result ≡ output_at plan.now site v }
{
    if plan.home(v) == site { Some(v) } else { None }
}

/// For each output of the main node, in order of declaration, its variable where the site is its home.
///
/// # Errors
///
/// Out of memory.
pub fn outputs_at(alloc: Global, plan: &Plan, site: u8) -> Result<Vec<Option<usize>>, AllocError>
    ensures { IfOk result (λ outputs. outputs.items ≡ outputs_at plan.now site) }
{
    let mut outputs = Vec::new(alloc);
    for v in 0..plan.flat().variables().len() {
        if is_output(plan.flat(), v) {
            outputs.push(output_at(plan, site, v))?;
        }
    }
    Ok(outputs)
}

/// Whether all these variables are computed or taken.
fn are_known(own: &[bool], taken: &[bool], needs: &[usize]) -> bool
    ensures { result ≡ true → AreKnown own.now taken.now needs.now }
{
    for k in 0..needs.len() {
        if !is_marked(own, needs[k]) && !is_marked(taken, needs[k]) {
            return false;
        }
    }
    true
}

/// The variables whose statuses are kept for these outputs: they, and the variables of their clocks. None
/// where some isn't known at the site.
///
/// # Errors
///
/// Out of memory.
pub fn needs_of(
    alloc: Global,
    flat: &Flat,
    marks: &Marks,
    outputs: &[Option<usize>],
) -> Result<Option<Vec<usize>>, AllocError>
    ensures { IfOk result (λ o. IfSome o
        (λ needs. AreKnown marks.now.own.items marks.now.taken.items needs.items)) }
{
    let mut wanted = vec![in alloc; false; flat.variables().len()]?;
    for k in 0..outputs.len() {
        if let Some(v) = outputs[k] {
            mark(&mut wanted, v);
        }
    }
    let needs = needed_of(alloc, flat, wanted.as_slice())?;
    if !are_known(
        marks.own.as_slice(),
        marks.taken.as_slice(),
        needs.as_slice(),
    ) {
        return Ok(None);
    }
    Ok(Some(needs))
}
