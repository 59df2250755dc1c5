//! The flows of expressions, passed in order of their places, up to one that is looked for.

ghost use Rattle.std.specs.Prelude.{◌≡◌, ◌≤◌, ◌+◌, ◌-◌, ℕ, List, IfOk};
ghost use Rattle.lutree.specs.Tree.{view, views, trees_of, program_view};
ghost use Rattle.lucore_laws.specs.Sizes.{root_size, made_size, all_size};
ghost use Rattle.luinside.specs.Parts.{operands};
ghost use Rattle.luinside.specs.Owns.{own_size, own_calls};
ghost use Rattle.luinside.specs.FlowsPassed.{IsBefore, PassesAll, PassesOwn, Passes};
ghost use Rattle.luinside.specs.FlowsPassed.{Enters, Leaves};
ghost use Rattle.luinside.specs.declared.passing.Here.{Here};

use lucore_build::{count_of, sum_of};
use lustat_rules::Catalog;
use lutree::{Expr, Infix};
use std::alloc::AllocError;

/// What is looked for: a place of a node's list, given the sizes of all nodes.
#[derive(Clone, Copy)]
pub struct Search<'c, 's> {
    pub catalog: &'c Catalog<'s>,
    pub counts: &'c [usize],
    pub target: usize,
}

/// How far a node's list has been passed.
#[derive(Clone, Copy)]
pub struct Here {
    /// The place of the next flow.
    pub place: usize,
    /// How many calls stand before it.
    pub calls: usize,
}

/// An expression among whose own flows the target is.
#[derive(Clone, Copy)]
pub struct Own<'a> {
    pub expression: &'a Expr,
    /// Where the flows of its operands end.
    pub here: Here,
}

/// How far the search has come: behind these flows, or at the target.
#[derive(Clone, Copy)]
pub enum Reached<'a> {
    Behind(Here),
    At(Own<'a>),
}

/// How many flows an expression makes behind those of its operands.
pub fn own_count(search: &Search, e: &Expr) -> usize
    ensures { result ≡ own_size (program_view search.now.catalog.now) search.now.counts.now
        (view e.now) }
{
    match e {
        Expr::Variable(_) => 0,
        Expr::Call(f, _) => count_of(search.catalog, search.counts, f.as_str()),
        Expr::Binary(Infix::FollowedBy, _, _) => 2,
        _ => 1,
    }
}

/// How many flows the root of an expression is: none for a variable and a call, one for any other.
pub fn root(e: &Expr) -> usize
    ensures { result ≡ root_size (view e.now) }
{
    match e {
        Expr::Variable(_) | Expr::Call(_, _) => 0,
        _ => 1,
    }
}

/// How many calls an expression is itself.
fn calls(e: &Expr) -> usize
    ensures { result ≡ own_calls (view e.now) }
{
    match e {
        Expr::Call(_, _) => 1,
        _ => 0,
    }
}

/// How many flows an expression makes, its operands' among them.
///
/// # Errors
///
/// An error means that memory ran out.
#[cycle(made)]
pub fn made(search: &Search, e: &Expr) -> Result<usize, AllocError>
    ensures { IfOk result (λ count. count ≡ made_size (program_view search.now.catalog.now)
        search.now.counts.now (view e.now)) }
{
    let operands = match e {
        Expr::Number(_) | Expr::Truth(_) | Expr::Label(_) | Expr::Variable(_) | Expr::Current(_) =>
            0,
        Expr::Unary(_, a) | Expr::When(a, _) => made(search, a)?,
        Expr::Binary(_, a, b) => sum_of(made(search, a)?, made(search, b)?)?,
        Expr::If(c, a, b) => sum_of(
            sum_of(made(search, c)?, made(search, a)?)?,
            made(search, b)?,
        )?,
        Expr::Merge(_, _, all) | Expr::Call(_, all) => all_made(search, all)?,
    };
    sum_of(operands, own_count(search, e))
}

/// The same of the arguments of a call, or the branches of a merge.
#[cycle(made)]
fn all_made(search: &Search, all: &[Expr]) -> Result<usize, AllocError>
    ensures { IfOk result (λ count. count ≡ all_size (program_view search.now.catalog.now)
        search.now.counts.now (trees_of (views all.now))) }
{
    let mut count = 0;
    for a in all {
        count = sum_of(count, made(search, a)?)?;
    }
    Ok(count)
}

/// The own flows of an expression, so many, passed behind those of its operands.
fn with_own<'a>(
    search: &Search,
    e: &'a Expr,
    count: usize,
    reached: Reached<'a>,
) -> Result<Reached<'a>, AllocError>
    requires { count ≤ own_size (program_view search.now.catalog.now) search.now.counts.now
        (view e.now) }
    ensures { IfOk result (λ passed. (h : Here) (old new : List ℕ) → PassesAll
        (program_view search.now.catalog.now) search.now.counts.now search.now.target
        (operands (view e.now)) h old new reached.entry → PassesOwn
        (program_view search.now.catalog.now) search.now.counts.now search.now.target
        (view e.now) count h old new passed) }
{
    match reached {
        Reached::Behind(here) => {
            let behind = sum_of(here.place, count)?;
            if search.target < behind {
                return Ok(Reached::At(Own {
                    expression: e,
                    here,
                }));
            }
            Ok(Reached::Behind(Here {
                place: behind,
                calls: sum_of(here.calls, calls(e))?,
            }))
        }
        Reached::At(_) => Ok(reached),
    }
}

/// The last number taken away, unless the target is reached.
fn leave(reached: Reached<'_>, part: &mut Vec<usize>)
    ensures { Leaves reached.entry part.old.items part.new.items }
{
    if let Reached::Behind(_) = reached {
        part.pop();
    }
}

/// An expression of a number, passed with so many of its own flows. The number is put behind those before,
/// and with it those that lead on to the target, if it is found.
///
/// # Errors
///
/// An error means that memory ran out.
#[cycle(passing)]
pub fn enter<'a>(
    search: &Search,
    number: usize,
    e: &'a Expr,
    count: usize,
    here: Here,
    part: &mut Vec<usize>,
) -> Result<Reached<'a>, AllocError>
    requires count { count ≤ own_size (program_view search.now.catalog.now)
        search.now.counts.now (view e.now) }
    requires before { here.place ≤ search.now.target }
    ensures { IfOk result (λ reached. Enters (program_view search.now.catalog.now)
        search.now.counts.now search.now.target number (view e.now) count here part.old.items
        part.new.items reached) }
{
    part.push(number)?;
    let inside = inside(search, e, here, part)?;
    let reached = with_own(search, e, count, inside)?;
    leave(reached, part);
    Ok(reached)
}

/// The operands of an expression, passed.
#[cycle(passing)]
fn inside<'a>(
    search: &Search,
    e: &'a Expr,
    here: Here,
    part: &mut Vec<usize>,
) -> Result<Reached<'a>, AllocError>
    requires { here.place ≤ search.now.target }
    ensures { IfOk result (λ reached. PassesAll (program_view search.now.catalog.now)
        search.now.counts.now search.now.target (operands (view e.now)) here part.old.items
        part.new.items reached) }
{
    let start = Reached::Behind(here);
    match e {
        Expr::Number(_) | Expr::Truth(_) | Expr::Label(_) | Expr::Variable(_) | Expr::Current(_) =>
            Ok(start),
        Expr::Unary(_, a) => {
            let first = pass(search, 0, a, start, part)?;
            Ok(first)
        }
        Expr::When(a, _) => {
            let first = pass(search, 0, a, start, part)?;
            Ok(first)
        }
        Expr::Binary(_, a, b) => {
            let first = pass(search, 0, a, start, part)?;
            let second = pass(search, 1, b, first, part)?;
            Ok(second)
        }
        Expr::If(c, a, b) => {
            let first = pass(search, 0, c, start, part)?;
            let second = pass(search, 1, a, first, part)?;
            let third = pass(search, 2, b, second, part)?;
            Ok(third)
        }
        Expr::Merge(_, _, branches) => {
            let all = pass_all(search, branches, here, part)?;
            Ok(all)
        }
        Expr::Call(_, arguments) => {
            let all = pass_all(search, arguments, here, part)?;
            Ok(all)
        }
    }
}

/// An operand of a number, passed unless the target is reached before.
#[cycle(passing)]
fn pass<'a>(
    search: &Search,
    number: usize,
    e: &'a Expr,
    reached: Reached<'a>,
    part: &mut Vec<usize>,
) -> Result<Reached<'a>, AllocError>
    requires { IsBefore search.now.target reached }
    ensures { IfOk result (λ then. Passes (program_view search.now.catalog.now)
        search.now.counts.now search.now.target number (view e.now) reached.entry part.old.items
        part.new.items then) }
{
    match reached {
        Reached::Behind(here) => enter(search, number, e, own_count(search, e), here, part),
        Reached::At(_) => Ok(reached),
    }
}

/// The arguments of a call, or the branches of a merge, passed.
#[cycle(passing)]
fn pass_all<'a>(
    search: &Search,
    all: &'a [Expr],
    here: Here,
    part: &mut Vec<usize>,
) -> Result<Reached<'a>, AllocError>
    requires { here.place ≤ search.now.target }
    ensures { IfOk result (λ reached. PassesAll (program_view search.now.catalog.now)
        search.now.counts.now search.now.target (views all.now) here part.old.items part.new.items
        reached) }
{
    let mut reached = Reached::Behind(here);
    for (number, a) in all.iter().enumerate() {
        reached = pass(search, number, a, reached, part)?;
    }
    Ok(reached)
}
