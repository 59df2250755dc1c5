//! The one clock that an expression can fit, where it doesn't fit all or none.

ghost use Rattle.std.specs.Prelude.{◌≡◌, ◌↔◌, IsTrue, option_map};
ghost use Rattle.lutree.specs.Tree.{view, views, trees_of, node_view};
ghost use Rattle.lustat_rules.specs.Scope.{Clock};
ghost use Rattle.lustat_rules.specs.Clocks.{FitsClock};
ghost use Rattle.lustat_rules.specs.ClockRefs.{the_clock};
ghost use Rattle.lustat_clocks.specs.Anchors.{current_anchor, anchor, anchor_of_all};

use crate::fit::fits;
use lustat_rules::{ClockRef, Scope};
use lutree::Expr;

/// The clock of the clock of a variable.
fn anchor_of_current<'a>(scope: &Scope<'a>, name: &str) -> Option<ClockRef<'a>>
    ensures { option_map the_clock result ≡ current_anchor (node_view scope.now) name.now }
{
    match scope.clock(name) {
        Some(ClockRef::On(c, _)) => scope.clock(c),
        _ => None,
    }
}

/// The clock that the first part with one names.
#[cycle(anchors)]
fn anchor_of<'s: 'e, 'e>(scope: &Scope<'s>, e: &'e Expr) -> Option<ClockRef<'e>>
    ensures { option_map the_clock result ≡ anchor (node_view scope.now) (view e.now) }
{
    match e {
        Expr::Number(_) | Expr::Truth(_) | Expr::Label(_) => None,
        Expr::Variable(x) => scope.clock(x.as_str()),
        Expr::Unary(_, a) => anchor_of(scope, a),
        Expr::Binary(_, a, b) => match anchor_of(scope, a) {
            None => anchor_of(scope, b),
            found => found,
        },
        Expr::If(c, a, b) => match anchor_of(scope, c) {
            None => match anchor_of(scope, a) {
                None => anchor_of(scope, b),
                found => found,
            },
            found => found,
        },
        Expr::When(_, c) => Some(ClockRef::of(c)),
        Expr::Current(x) => anchor_of_current(scope, x.as_str()),
        Expr::Merge(c, _, _) => scope.clock(c.as_str()),
        Expr::Call(_, arguments) => anchor_of_arguments(scope, arguments),
    }
}

/// The clock that the first argument with one names.
#[cycle(anchors)]
fn anchor_of_arguments<'s: 'e, 'e>(scope: &Scope<'s>, arguments: &'e [Expr]) -> Option<ClockRef<'e>>
    ensures { option_map the_clock result ≡ anchor_of_all (node_view scope.now)
        (trees_of (views arguments.now)) }
{
    for a in arguments {
        if let Some(k) = anchor_of(scope, a) {
            return Some(k);
        }
    }
    None
}

/// Whether there is a clock that an expression fits.
pub fn fits_some(scope: &Scope, e: &Expr) -> bool
    ensures { IsTrue result ↔ ((k : Clock) × FitsClock (node_view scope.now) (view e.now) k) }
{
    match anchor_of(scope, e) {
        None => fits(scope, e, ClockRef::Base),
        Some(k) => fits(scope, e, k),
    }
}
