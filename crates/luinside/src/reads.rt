//! The flows that a data operator reads.

ghost use Rattle.std.specs.Prelude.{◌≡◌, ◌+◌, IfOk};
ghost use Rattle.lutree.specs.Tree.{view, node_view, program_view};
ghost use Rattle.lusource.specs.Names.{variables_of, place_of};
ghost use Rattle.lustat_rules.specs.Scope.{node_called};
ghost use Rattle.lucore_laws.specs.Layout.{inputs_in};
ghost use Rattle.luinside.specs.Reads.{operand_place, expression_reads};

use crate::passing::{Own, Search, made};
use lucore_build::{count_of, sum_of};
use lueval::Reads;
use lustat_rules::{Catalog, Scope};
use lutree::{Expr, Infix, Prefix};
use std::alloc::AllocError;

/// The place of a variable; behind all variables where the name is none.
fn variable_place(scope: &Scope, name: &str) -> usize
    ensures { result ≡ place_of (variables_of (node_view scope.now)) name.now }
{
    match scope.place(name) {
        Some(place) => place,
        None => scope.declarations().len(),
    }
}

/// How many inputs the node has that a call means; 0 where it means none.
fn inputs_of(catalog: &Catalog, name: &str) -> usize
    ensures { result ≡ inputs_in (node_called (program_view catalog.now) name.now) }
{
    match catalog.find(name) {
        Some(scope) => scope.node().inputs.as_slice().len(),
        None => 0,
    }
}

/// The place of an operand, whose flows end before a place.
fn operand_place(
    search: &Search,
    scope: &Scope,
    e: &Expr,
    behind: usize,
) -> Result<usize, AllocError>
    ensures { IfOk result (λ place. place ≡ operand_place (program_view search.now.catalog.now)
        search.now.counts.now (node_view scope.now) (view e.now) behind) }
{
    match e {
        Expr::Variable(x) => Ok(variable_place(scope, x.as_str())),
        Expr::Call(f, _) => {
            let count = count_of(search.catalog, search.counts, f.as_str());
            let inputs = inputs_of(search.catalog, f.as_str());
            let place = sum_of(behind.saturating_sub(count), inputs)?;
            Ok(place)
        }
        _ => Ok(behind.saturating_sub(1)),
    }
}

/// What an expression reads, if it is a data operator.
///
/// # Errors
///
/// An error means that memory ran out.
pub fn operands_read(search: &Search, scope: &Scope, own: &Own) -> Result<Option<Reads>, AllocError>
    ensures { IfOk result (λ found. found ≡ expression_reads
        (program_view search.now.catalog.now) search.now.counts.now (node_view scope.now)
        (view own.now.expression.now) own.now.here.place) }
{
    let place = own.here.place;
    match own.expression {
        Expr::Unary(Prefix::Data(_), a) => {
            let left = operand_place(search, scope, a, place)?;
            Ok(Some(Reads { left, right: None }))
        }
        Expr::Binary(Infix::Data(_), a, b) => {
            let behind = place.saturating_sub(made(search, b)?);
            let left = operand_place(search, scope, a, behind)?;
            let right = operand_place(search, scope, b, place)?;
            Ok(Some(Reads {
                left,
                right: Some(right),
            }))
        }
        _ => Ok(None),
    }
}
