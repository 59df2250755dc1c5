//! One step on the way to a flow: in the list of one node.

ghost use Rattle.std.specs.Prelude.{◌≡◌, ◌∷◌, [], ℕ, List, IfOk, option_map, slice_get};
ghost use Rattle.lutree.specs.Tree.{program_view};
ghost use Rattle.luinside.specs.Steps.{IsInside, Steps};

use crate::passing::{Own, Search};
use crate::reads::operands_read;
use crate::target::{Standing, find};
use lubase::Row;
use lueval::Reads;
use lustat_rules::Catalog;
use lutree::Expr;
use std::alloc::{AllocError, Global};

/// A data operator in a node's text.
#[derive(Drop)]
pub struct Operator {
    pub equation: usize,
    pub part: Row<usize>,
    pub reads: Reads,
}

/// The instance of a call, in the list of its node.
#[derive(Clone, Copy, Drop)]
pub struct Inside {
    /// The number of the call in its node.
    pub number: usize,
    /// The place of the instance's first flow.
    pub at: usize,
    /// The place of the called node in the program's text.
    pub node: usize,
}

/// What a flow of a node's list is of.
#[derive(Drop)]
pub enum Step {
    Nothing,
    Operator(Operator),
    Inside(Inside),
}

/// An operator at these numbers, of which the first is its equation's.
fn with_numbers(alloc: Global, numbers: &[usize], reads: Reads) -> Result<Step, AllocError>
    ensures { IfOk result (λ step. (n : ℕ) (rest : List ℕ) → numbers.now ≡ n ∷ rest → step
        ≡ Step.Operator (record { equation = n; part = rest; reads = reads })) }
{
    let Some((first, others)) = numbers.split_first() else {
        return Ok(Step::Nothing);
    };
    let mut part = Vec::new(alloc);
    part.extend_from_slice(others)?;
    Ok(Step::Operator(Operator {
        equation: *first,
        part: Row::new(part),
        reads,
    }))
}

/// The node of a call, if the expression is one and means a node.
fn called(catalog: &Catalog, own: &Own) -> Option<Inside>
    ensures { IsInside (program_view catalog.now) own.now result }
{
    match own.expression {
        Expr::Call(f, _) => match catalog.place(f.as_str()) {
            Some(node) => Some(Inside {
                number: own.here.calls,
                at: own.here.place,
                node,
            }),
            None => None,
        },
        _ => None,
    }
}

/// A step in the list of the node at a place, given the sizes of all nodes, toward a place of the list.
///
/// # Errors
///
/// An error means that memory ran out.
pub fn step_at(
    alloc: Global,
    catalog: &Catalog,
    counts: &[usize],
    node: usize,
    target: usize,
) -> Result<Step, AllocError>
    ensures { IfOk result (λ step. Steps (program_view catalog.now) counts.now
        (slice_get (program_view catalog.now).nodes node) target step) }
{
    let Some(scope) = catalog.scopes().get(node) else {
        return Ok(Step::Nothing);
    };
    let search = Search {
        catalog,
        counts,
        target,
    };
    let mut numbers = Vec::new(alloc);
    match find(&search, scope, &mut numbers)? {
        Standing::Nothing => Ok(Step::Nothing),
        Standing::Root(own) => match operands_read(&search, scope, &own)? {
            Some(reads) => {
                let found = with_numbers(alloc, numbers.as_slice(), reads)?;
                Ok(found)
            }
            None => Ok(Step::Nothing),
        },
        Standing::Inner(own) => match operands_read(&search, scope, &own)? {
            Some(reads) => {
                let found = with_numbers(alloc, numbers.as_slice(), reads)?;
                Ok(found)
            }
            None => match called(catalog, &own) {
                Some(inside) => Ok(Step::Inside(inside)),
                None => Ok(Step::Nothing),
            },
        },
    }
}
