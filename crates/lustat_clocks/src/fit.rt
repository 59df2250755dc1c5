//! Which expressions fit a clock.

ghost use Rattle.std.specs.Prelude.{◌≡◌, ◌↔◌, IsTrue, Some};
ghost use Rattle.lubase.specs.Places.{first_place};
ghost use Rattle.lustat_rules.specs.Scope.{declarations_of, names_of};
ghost use Rattle.lutree.specs.Tree.{view, views, trees_of, node_view};
ghost use Rattle.lutree.specs.Tree as tree;
ghost use Rattle.lustat_rules.specs.Clocks.{on, HasClock, FitsClock, FitsClockInside, AllFitInside, BranchesFitInside};
ghost use Rattle.lustat_rules.specs.ClockRefs.{the_clock, placed_view, clock_under, IsPlaced};

use lustat_rules::{ClockRef, PatternRef, PlacedClock, Scope};
use lutree::{Expr, Pattern};

/// Whether a variable has a clock.
pub fn has_clock(scope: &Scope, name: &str, k: PlacedClock) -> bool
    requires { IsPlaced (node_view scope.now) k }
    ensures { IsTrue result ↔ HasClock (node_view scope.now) name.now (placed_view k.entry) }
{
    match scope.placed_clock(name) {
        None => false,
        Some(j) => scope.are_one(j, k),
    }
}

/// Whether the variable that a clock names has another clock.
fn is_under(scope: &Scope, j: PlacedClock, k: PlacedClock) -> bool
    requires sampled { IsPlaced (node_view scope.now) j }
    requires under { IsPlaced (node_view scope.now) k }
    ensures { IsTrue result
        ↔ (clock_under (node_view scope.now) (placed_view j.entry) ≡ Some (placed_view k.entry)) }
{
    match scope.clock_under(j) {
        None => false,
        Some(i) => scope.are_one(i, k),
    }
}

/// Whether `current` of a variable fits a clock.
fn current_fits(scope: &Scope, name: &str, k: PlacedClock) -> bool
    requires { IsPlaced (node_view scope.now) k }
    ensures { IsTrue result ↔ FitsClockInside (node_view scope.now) (tree.current name.now)
        (placed_view k.entry) }
{
    match scope.placed_clock(name) {
        None => false,
        Some(j) => is_under(scope, j, k),
    }
}

/// Whether an expression fits a clock, form by form.
#[cycle(fits)]
fn fits_inside(scope: &Scope, e: &Expr, k: PlacedClock) -> bool
    requires { IsPlaced (node_view scope.now) k }
    ensures { IsTrue result ↔ FitsClockInside (node_view scope.now) (view e.now) (placed_view k.entry) }
{
    match e {
        Expr::Number(_) | Expr::Truth(_) | Expr::Label(_) => true,
        Expr::Variable(x) => has_clock(scope, x.as_str(), k),
        Expr::Unary(_, a) => fits_inside(scope, a, k),
        Expr::Binary(_, a, b) => fits_inside(scope, a, k) && fits_inside(scope, b, k),
        Expr::If(c, a, b) => {
            fits_inside(scope, c, k) && fits_inside(scope, a, k) && fits_inside(scope, b, k)
        }
        Expr::When(a, c) => {
            let sampled = scope.placed(ClockRef::of(c));
            scope.are_one(k, sampled)
                && match scope.clock_under(sampled) {
                    None => false,
                    Some(j) => fits_inside(scope, a, j),
                }
        }
        Expr::Current(x) => current_fits(scope, x.as_str(), k),
        Expr::Merge(c, patterns, branches) => {
            let name = c.as_str();
            has_clock(scope, name, k)
                && branches_fit(
                    scope,
                    name,
                    scope.place(name),
                    patterns.as_slice(),
                    branches,
                )
        }
        Expr::Call(_, arguments) => all_fit(scope, arguments, k),
    }
}

/// Whether a branch of a merge fits the clock of its pattern. The place is that of the merge's variable.
#[cycle(fits)]
fn branch_fits(scope: &Scope, name: &str, place: Option<usize>, pattern: &Pattern, e: &Expr) -> bool
    requires { place ≡ first_place (names_of (declarations_of (node_view scope.now))) name.now }
    ensures { IsTrue result
        ↔ FitsClockInside (node_view scope.now) (view e.now) (on name.now pattern.now) }
{
    let clock = ClockRef::On(name, PatternRef::of(pattern));
    fits_inside(scope, e, PlacedClock { clock, place })
}

/// Whether the branches of a merge fit the clocks of their patterns, and are as many.
#[cycle(fits)]
fn branches_fit(
    scope: &Scope,
    name: &str,
    place: Option<usize>,
    patterns: &[Pattern],
    branches: &[Expr],
) -> bool
    requires { place ≡ first_place (names_of (declarations_of (node_view scope.now))) name.now }
    ensures { IsTrue result ↔ BranchesFitInside (node_view scope.now) name.now patterns.now
        (trees_of (views branches.now)) }
{
    for (i, e) in branches.iter().enumerate() {
        if i >= patterns.len() || !branch_fits(scope, name, place, &patterns[i], e) {
            return false;
        }
    }
    branches.len() == patterns.len()
}

/// Whether all arguments of a call fit a clock.
#[cycle(fits)]
fn all_fit(scope: &Scope, arguments: &[Expr], k: PlacedClock) -> bool
    requires { IsPlaced (node_view scope.now) k }
    ensures { IsTrue result ↔ AllFitInside (node_view scope.now) (trees_of (views arguments.now))
        (placed_view k.entry) }
{
    for a in arguments {
        if fits_inside(scope, a, k) {
            continue;
        }
        return false;
    }
    true
}

/// Whether an expression of a node fits a clock whose variable's place is known. The time grows with the
/// length of the expression, whatever the length of the clock's name. Takes no memory.
pub fn fits_placed(scope: &Scope, e: &Expr, k: PlacedClock) -> bool
    requires { IsPlaced (node_view scope.now) k }
    ensures { IsTrue result ↔ FitsClock (node_view scope.now) (view e.now) (placed_view k.entry) }
{
    fits_inside(scope, e, k)
}

/// Whether an expression of a node fits a clock. The time grows with the length of the expression and of the
/// clock's name. Takes no memory.
pub fn fits(scope: &Scope, e: &Expr, k: ClockRef) -> bool
    ensures { IsTrue result ↔ FitsClock (node_view scope.now) (view e.now) (the_clock k.entry) }
{
    fits_placed(scope, e, scope.placed(k))
}
