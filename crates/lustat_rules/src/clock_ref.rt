//! Clocks, lent.

ghost use Rattle.std.specs.Prelude.{◌≡◌, ◌↔◌, IsTrue, Some};
ghost use Rattle.lustat_rules.specs.ClockRefs.{the_pattern, the_clock};

use lutree::{Condition, Label, Pattern};

/// A pattern, lent.
#[derive(Clone, Copy)]
pub enum PatternRef<'a> {
    Truth(bool),
    Label(&'a Label),
}

/// Whether two names of enumerations are one: of one spelling, of one type and of one number.
fn is_label(l: &Label, m: &Label) -> bool
    ensures { IsTrue result ↔ (l.now ≡ m.now) }
{
    l.number == m.number && l.kind == m.kind && l.name.as_str() == m.name.as_str()
}

impl<'a> PatternRef<'a> {
    /// A pattern of the tree, lent.
    pub fn of(pattern: &'a Pattern) -> PatternRef<'a>
        ensures { the_pattern result ≡ pattern.now }
    {
        match pattern {
            Pattern::Truth(b) => PatternRef::Truth(*b),
            Pattern::Label(l) => PatternRef::Label(l),
        }
    }

    /// Whether two patterns are one.
    pub fn is(&self, other: &PatternRef) -> bool
        ensures { IsTrue result ↔ (the_pattern self.now ≡ the_pattern other.now) }
    {
        match (*self, *other) {
            (PatternRef::Truth(b), PatternRef::Truth(c)) => b == c,
            (PatternRef::Label(l), PatternRef::Label(m)) => is_label(l, m),
            _ => false,
        }
    }
}

/// A clock, lent: the base clock of the node, or a variable with a pattern.
#[derive(Clone, Copy)]
pub enum ClockRef<'a> {
    Base,
    On(&'a str, PatternRef<'a>),
}

impl<'a> ClockRef<'a> {
    /// A clock of the tree, lent.
    pub fn of(condition: &'a Condition) -> ClockRef<'a>
        ensures { the_clock result ≡ Some condition.now }
    {
        ClockRef::On(
            condition.variable.as_str(),
            PatternRef::of(&condition.pattern),
        )
    }

    /// Whether two clocks are one.
    pub fn is(&self, other: &ClockRef) -> bool
        ensures { IsTrue result ↔ (the_clock self.now ≡ the_clock other.now) }
    {
        match (*self, *other) {
            (ClockRef::Base, ClockRef::Base) => true,
            (ClockRef::On(c, p), ClockRef::On(d, q)) => c == d && p.is(&q),
            _ => false,
        }
    }
}

/// A clock, lent, and where its variable is declared first in a node; no place where it has no variable, or
/// none that is declared. Places are compared in place of names, however long those are.
#[derive(Clone, Copy)]
pub struct PlacedClock<'a> {
    pub clock: ClockRef<'a>,
    pub place: Option<usize>,
}
