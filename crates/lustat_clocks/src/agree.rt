//! Equations on one clock.

ghost use Rattle.std.specs.Prelude.{◌≡◌, ◌↔◌, IsTrue, All};
ghost use Rattle.lutree.specs.Tree.{equation_view, node_view};
ghost use Rattle.lustat_rules.specs.Clocks.{HasClock, ClocksAgree};
ghost use Rattle.lustat_rules.specs.ClockRefs.{placed_view, IsPlaced};

use crate::anchor::fits_some;
use crate::fit::{fits_placed, has_clock};
use lubase::Name;
use lustat_rules::{PlacedClock, Scope};
use lutree::Equation;

/// Whether all variables have a clock.
fn all_have(scope: &Scope, names: &[Name], k: PlacedClock) -> bool
    requires { IsPlaced (node_view scope.now) k }
    ensures { IsTrue result ↔ All (λ x. HasClock (node_view scope.now) x (placed_view k.entry))
        names.now }
{
    names.iter().all(|x| has_clock(scope, x.as_str(), k))
}

/// `E20`: whether the variables on an equation's left have one clock, which the right side fits.
/// The time grows with the length of the equation, whatever the length of its clock's name. Takes no memory.
pub fn agrees(scope: &Scope, equation: &Equation) -> bool
    ensures { IsTrue result ↔ ClocksAgree (node_view scope.now) (equation_view equation.now) }
{
    let names = equation.left.as_slice();
    match names.first() {
        None => fits_some(scope, &equation.right),
        Some(x) => match scope.placed_clock(x.as_str()) {
            None => false,
            Some(k) => all_have(scope, names, k) && fits_placed(scope, &equation.right, k),
        },
    }
}
