//! What a place of a node's list is of.

ghost use Rattle.std.specs.Prelude.{◌≡◌, ◌≤◌, [], length, IfOk};
ghost use Rattle.lutree.specs.Tree.{equation_view, node_view, program_view};
ghost use Rattle.lusource.specs.Names.{variables_of};
ghost use Rattle.luinside.specs.Owns.{is_defined};
ghost use Rattle.luinside.specs.Standing.{FindsInner, FindsRoot, Stands};

use crate::passing::{Here, Own, Reached, Search, enter, made, own_count, root};
use lucore_build::sum_of;
use lustat_rules::Scope;
use lutree::Equation;
use std::alloc::AllocError;

/// What the target is.
#[derive(Clone, Copy)]
pub enum Standing<'a> {
    /// No operator's flow, and no call's.
    Nothing,
    /// The flow of a variable, with the right side of its equation.
    Root(Own<'a>),
    /// An inner flow of an equation.
    Inner(Own<'a>),
}

/// Whether a variable stands on the left side of an equation.
fn defines(equation: &Equation, name: &str) -> bool
    ensures { result ≡ is_defined name.now (equation_view equation.now) }
{
    equation.left.as_slice().iter().any(|y| y.is(name))
}

/// The inner flow of an equation that the target is, behind the variables.
fn inner_at<'a>(
    search: &Search,
    scope: &Scope<'a>,
    part: &mut Vec<usize>,
) -> Result<Option<Own<'a>>, AllocError>
    requires fresh { part.old.items ≡ [] }
    requires behind { length (variables_of (node_view scope.now)) ≤ search.now.target }
    ensures { IfOk result (λ own. FindsInner (program_view search.now.catalog.now)
        search.now.counts.now (node_view scope.now) search.now.target part.new.items own) }
{
    let mut here = Here {
        place: scope.declarations().len(),
        calls: 0,
    };
    for (number, equation) in scope.node().equations.as_slice().iter().enumerate() {
        let e = &equation.right;
        let count = own_count(search, e).saturating_sub(root(e));
        match enter(search, number, e, count, here, part)? {
            Reached::Behind(behind) => here = behind,
            Reached::At(own) => return Ok(Some(own)),
        }
    }
    Ok(None)
}

/// The right side of the first equation that defines a variable, and where its flows but the root's end.
fn root_at<'a>(
    search: &Search,
    scope: &Scope<'a>,
    name: &str,
    part: &mut Vec<usize>,
) -> Result<Option<Own<'a>>, AllocError>
    requires { part.old.items ≡ [] }
    ensures { IfOk result (λ own. FindsRoot (program_view search.now.catalog.now)
        search.now.counts.now (node_view scope.now) name.now part.new.items own) }
{
    let mut place = scope.declarations().len();
    for (number, equation) in scope.node().equations.as_slice().iter().enumerate() {
        let e = &equation.right;
        let behind = sum_of(place, made(search, e)?.saturating_sub(root(e)))?;
        if defines(equation, name) {
            part.push(number)?;
            return Ok(Some(Own {
                expression: e,
                here: Here {
                    place: behind,
                    calls: 0,
                },
            }));
        }
        place = behind;
    }
    Ok(None)
}

/// What the target is in a node's list. The number of its equation is put down, and those that lead on to it.
///
/// # Errors
///
/// An error means that memory ran out.
pub fn find<'a>(
    search: &Search,
    scope: &Scope<'a>,
    part: &mut Vec<usize>,
) -> Result<Standing<'a>, AllocError>
    requires { part.old.items ≡ [] }
    ensures { IfOk result (λ standing. Stands (program_view search.now.catalog.now)
        search.now.counts.now (node_view scope.now) search.now.target part.new.items standing) }
{
    let variables = scope.declarations();
    if search.target >= variables.len() {
        return match inner_at(search, scope, part)? {
            Some(own) => Ok(Standing::Inner(own)),
            None => Ok(Standing::Nothing),
        };
    }
    if search.target < scope.node().inputs.as_slice().len() {
        return Ok(Standing::Nothing);
    }
    let name = variables[search.target].name.as_str();
    match root_at(search, scope, name, part)? {
        Some(own) => Ok(Standing::Root(own)),
        None => Ok(Standing::Nothing),
    }
}
