//! The main outputs of a site: which of them it reports, and their statuses at the end.

ghost use Rattle.std.specs.Prelude.{◌≡◌, ◌<◌, ◌≤◌, ℕ, [], length, map, true, IfOk, IfSome, Some, slice_get, vec_capacity};
ghost use Rattle.luworld.specs.Jobs.{outputs_of};
ghost use Rattle.lulist.specs.Rows.{reported_number};
ghost use Rattle.lulist.specs.Stations.{AreOutputRows};

use crate::fitting::number_of;
use luflow::Status;
use luplace::Plan;
use std::alloc::{AllocError, Global};

/// The number of a main output where the site is its home.
fn reported_number(plan: &Plan, site: u8, numbers: &[u16], variable: usize) -> Option<usize>
    requires { variable < length plan.now.flat.variables }
    ensures { result ≡ reported_number plan.now site numbers.now variable }
{
    if plan.home(variable) == site {
        Some(number_of(numbers, variable))
    } else {
        None
    }
}

/// Of each main output, in order of declaration, the number of its flow where the site is its home.
///
/// # Errors
///
/// Out of memory.
pub fn reported_of(
    alloc: Global,
    plan: &Plan,
    site: u8,
    numbers: &[u16],
) -> Result<Vec<Option<usize>>, AllocError>
    ensures { IfOk result
        (λ reported. reported.items ≡ map (reported_number plan.now site numbers.now) (outputs_of plan.now)) }
{
    let flat = plan.flat();
    let mut reported = Vec::new(alloc);
    for v in 0..flat.variables().len() {
        if flat.is_output(v) {
            reported.push(reported_number(plan, site, numbers, v))?;
        }
    }
    Ok(reported)
}

/// The numbers among these.
///
/// # Errors
///
/// Out of memory.
pub fn noted_of(alloc: Global, reported: &[Option<usize>]) -> Result<Vec<usize>, AllocError> {
    let mut noted = Vec::new(alloc);
    for number in reported {
        if let Some(k) = number {
            noted.push(*k)?;
        }
    }
    Ok(noted)
}

/// Whether this number is the one at place n.
fn is_at(numbers: &[usize], n: usize, number: usize) -> bool
    ensures { result ≡ true → slice_get numbers.now n ≡ Some number }
{
    match numbers.get(n) {
        Some(found) => *found == number,
        None => false,
    }
}

/// A row for each of these outputs: the log of its flow where it has a number, else an empty one. None where
/// the logs aren't those of these numbers.
pub fn output_rows(
    alloc: Global,
    reported: &[Option<usize>],
    noted: &[usize],
    logs: Vec<Vec<Status>>,
    rows: Vec<Vec<Status>>,
) -> Option<Vec<Vec<Status>>>
    requires none { rows.items ≡ [] }
    requires room { length reported.now ≤ vec_capacity rows }
    ensures { IfSome result (λ rows. AreOutputRows reported.now noted.now logs.items rows.items) }
{
    let mut rows = rows;
    let mut left = logs.into_iter();
    let mut n = 0;
    for number in reported {
        match number {
            Some(k) => {
                if !is_at(noted, n, *k) {
                    return None;
                }
                let row = left.next()?;
                rows.push_reserved(row);
                n += 1;
            }
            None => rows.push_reserved(Vec::new(alloc)),
        }
    }
    Some(rows)
}
