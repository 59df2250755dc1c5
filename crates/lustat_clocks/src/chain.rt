//! Clocks whose variables have the types of their patterns, in chains that end.

ghost use Rattle.std.specs.Prelude.{◌≡◌, ◌↔◌, IsTrue, Some, length, slice_get, All, IfOk, IfSome};
ghost use Rattle.lutree.specs.Tree.{declaration_view, equation_view, node_view, view, views, trees_of};
ghost use Rattle.lustat_rules.specs.Scope.{declarations_of, kind_of};
ghost use Rattle.lustat_rules.specs.Parts.{EachPart, EachPartOf};
ghost use Rattle.lustat_rules.specs.Clocks.{pattern_kind, IsTypedClock, CanMerge, NamesClocks, IsClock, ClocksAreTyped};
ghost use Rattle.lubase.specs.Search.{Has};
ghost use Rattle.lustat_rules.specs.Lent.{lent_view};
ghost use Rattle.lustat_clocks.specs.Chains.{MarksEnds, AreBased, AreClocked};
ghost use Rattle.lustat_rules.specs.ClockRefs.{place_before};

use lubase::{Link, reached};
use lustat_rules::Scope;
use lutree::{Condition, Declaration, Equation, Expr, Kind, Pattern};
use std::alloc::{AllocError, Global};

/// The place of the variable that a declared clock names.
fn place_of_clock(scope: &Scope, declaration: &Declaration) -> Option<usize>
    ensures { result ≡ place_before (node_view scope.now) declaration.now.clock }
{
    match &declaration.clock {
        None => None,
        Some(c) => scope.place(c.variable.as_str()),
    }
}

/// The places of declarations on the base clock.
fn based(alloc: Global, declarations: &[&Declaration]) -> Result<Vec<usize>, AllocError>
    ensures { IfOk result (λ starts. AreBased (lent_view declarations.now)
        (length declarations.now) starts.items) }
{
    let mut starts = Vec::new(alloc);
    for (i, d) in declarations.iter().enumerate() {
        if d.clock.is_none() {
            starts.push(i)?;
        }
    }
    Ok(starts)
}

/// A link to each declaration from that of the variable that its clock names.
fn clocked(
    alloc: Global,
    scope: &Scope,
    declarations: &[&Declaration],
) -> Result<Vec<Link>, AllocError>
    ensures { IfOk result (λ links. AreClocked (node_view scope.now) (lent_view declarations.now)
        (length declarations.now) links.items) }
{
    let mut links = Vec::new(alloc);
    for (i, d) in declarations.iter().enumerate() {
        if let Some(u) = place_of_clock(scope, d) {
            links.push(Link { from: u, to: i })?;
        }
    }
    Ok(links)
}

/// For each declaration of a node, inputs, outputs and locals in order, whether its chain of clocks ends at
/// the base clock. The time grows with the length of the declarations.
///
/// # Errors
///
/// An error means that memory ran out.
pub fn chain_ends(alloc: Global, scope: &Scope) -> Result<Vec<bool>, AllocError>
    ensures { IfOk result (λ marks. MarksEnds (node_view scope.now) marks.items) }
{
    let declarations = scope.declarations();
    let starts = based(alloc, declarations)?;
    let links = clocked(alloc, scope, declarations)?;
    reached(alloc, declarations.len(), &starts, &links)
}

/// The type of what a pattern may be.
fn kind_of_pattern(pattern: &Pattern) -> Kind
    ensures { result ≡ pattern_kind pattern.now }
{
    match pattern {
        Pattern::Truth(_) => Kind::Bool,
        Pattern::Label(l) => l.kind,
    }
}

/// Whether an expression of a type may be what a pattern asks for.
fn is_kind_of(kind: Option<Kind>, pattern: &Pattern) -> bool
    ensures { IsTrue result ↔ (kind ≡ Some (pattern_kind pattern.now)) }
{
    kind == Some(kind_of_pattern(pattern))
}

/// Whether the variable of a clock has the type of its pattern.
fn is_typed(scope: &Scope, clock: &Condition) -> bool
    ensures { IsTrue result ↔ IsTypedClock (node_view scope.now) clock.now }
{
    is_kind_of(scope.kind(clock.variable.as_str()), &clock.pattern)
}

/// Whether the variable of a declaration's clock, if it has one, has the type of the pattern.
fn is_on_typed(scope: &Scope, declaration: &Declaration) -> bool
    ensures { IsTrue result ↔ IfSome declaration.now.clock (IsTypedClock (node_view scope.now)) }
{
    match &declaration.clock {
        None => true,
        Some(c) => is_typed(scope, c),
    }
}

/// Whether a place has a mark.
fn has_mark(marks: &[bool], place: usize) -> bool
    ensures { IsTrue result ↔ Has marks.now place }
{
    place < marks.len() && marks[place]
}

/// `E21` at a declaration: the variable of its clock, if it has one, has the type of the pattern, and its
/// chain of clocks ends. `place` is where it stands among the declarations of its node, `ends` is what
/// [`chain_ends`] gives.
pub fn is_clock(scope: &Scope, declaration: &Declaration, place: usize, ends: &[bool]) -> bool
    requires ends { MarksEnds (node_view scope.now) ends.now }
    requires place { slice_get (declarations_of (node_view scope.now)) place
        ≡ Some (declaration_view declaration.now) }
    ensures { IsTrue result ↔ IsClock (node_view scope.now) (declaration_view declaration.now) }
{
    is_on_typed(scope, declaration) && has_mark(ends, place)
}

/// Whether a merge may be on an expression of a type.
fn can_merge(kind: Option<Kind>) -> bool
    ensures { IsTrue result ↔ CanMerge kind }
{
    match kind {
        Some(Kind::Bool) | Some(Kind::Enum(_, _)) => true,
        Some(Kind::Int) | None => false,
    }
}

/// Whether an expression of a type may be what each of some patterns asks for.
fn is_kind_of_all(kind: Option<Kind>, patterns: &[Pattern]) -> bool
    ensures { IsTrue result ↔ All (λ p. kind ≡ Some (pattern_kind p)) patterns.now }
{
    patterns.iter().all(|p| is_kind_of(kind, p))
}

/// Whether a merge is on a bool or on a variable of an enumeration, which has the type of its patterns.
fn merge_names_clocks(scope: &Scope, name: &str, patterns: &[Pattern]) -> bool
    ensures { IsTrue result ↔ (CanMerge (kind_of (node_view scope.now) name.now)
        × All (λ p. kind_of (node_view scope.now) name.now ≡ Some (pattern_kind p)) patterns.now) }
{
    let kind = scope.kind(name);
    can_merge(kind) && is_kind_of_all(kind, patterns)
}

/// Whether what an expression names as clocks are clocks, form by form.
#[cycle(clocks)]
fn names_clocks_inside(scope: &Scope, e: &Expr) -> bool
    ensures { IsTrue result ↔ EachPart (NamesClocks (node_view scope.now)) (view e.now) }
{
    match e {
        Expr::Number(_) | Expr::Truth(_) | Expr::Label(_) | Expr::Variable(_) | Expr::Current(_) =>
            true,
        Expr::Unary(_, a) => names_clocks_inside(scope, a),
        Expr::Binary(_, a, b) => names_clocks_inside(scope, a) && names_clocks_inside(scope, b),
        Expr::If(c, a, b) => {
            names_clocks_inside(scope, c)
                && names_clocks_inside(scope, a)
                && names_clocks_inside(scope, b)
        }
        Expr::When(a, c) => names_clocks_inside(scope, a) && is_typed(scope, c),
        Expr::Merge(c, patterns, branches) => {
            merge_names_clocks(scope, c.as_str(), patterns.as_slice())
                && all_name_clocks(scope, branches)
        }
        Expr::Call(_, arguments) => all_name_clocks(scope, arguments),
    }
}

/// Whether what the arguments of a call or the branches of a merge name as clocks are clocks.
#[cycle(clocks)]
fn all_name_clocks(scope: &Scope, arguments: &[Expr]) -> bool
    ensures { IsTrue result ↔ EachPartOf (NamesClocks (node_view scope.now))
        (trees_of (views arguments.now)) }
{
    for a in arguments {
        if names_clocks_inside(scope, a) {
            continue;
        }
        return false;
    }
    true
}

/// `E21` at an equation: the variable of a clock after `when`, and of a merge, has the type of the patterns.
/// Takes no memory.
pub fn names_clocks(scope: &Scope, equation: &Equation) -> bool
    ensures { IsTrue result ↔ ClocksAreTyped (node_view scope.now) (equation_view equation.now) }
{
    names_clocks_inside(scope, &equation.right)
}
