//! What an expression is laid out in, and what its names mean there.

ghost use Rattle.std.specs.Prelude.{◌≡◌, length, option_map, unwrap_or, ◌∷◌, [], map};
ghost use Rattle.lutree.specs.Tree.{node_view, program_view};
ghost use Rattle.lusource.specs.Names.{variables_of, place_of, clock_of};
ghost use Rattle.lusource.specs.Source.{pattern_value};
ghost use Rattle.lustat_rules.specs.Scope.{kind_of, node_called};
ghost use Rattle.lucore_laws.specs.Layout.{clock_place, inputs_in, list_of};
ghost use Rattle.lustat_rules.specs.ClockRefs.{the_pattern, placed_view, IsPlaced};
ghost use Rattle.lucore_build.specs.Walks.{flow_on, plain};

use crate::root::{Root, Walked};
use luflow::{Clock, Datum, Flow, Form};
use lustat_rules::{Catalog, ClockRef, PatternRef, PlacedClock, Scope};
use lutree::Kind;

/// What an expression is laid out in: the program, its node, and the lists of all nodes.
#[derive(Clone, Copy)]
pub struct Context<'c, 'l, 's> {
    pub catalog: &'c Catalog<'s>,
    pub scope: &'c Scope<'s>,
    pub lists: &'l [Vec<Flow>],
}

/// A place that was looked up; behind all variables where none was found.
fn place_or_end(scope: &Scope, place: Option<usize>) -> usize
    ensures { result ≡ unwrap_or place (length (variables_of (node_view scope.now))) }
{
    match place {
        Some(place) => place,
        None => scope.declarations().len(),
    }
}

/// The place of a variable; behind all variables where the name is none.
pub fn variable_place(scope: &Scope, name: &str) -> usize
    ensures { result ≡ place_of (variables_of (node_view scope.now)) name.now }
{
    place_or_end(scope, scope.place(name))
}

/// The declared clock of a variable; the base clock where the name is none.
pub fn variable_clock<'a>(scope: &Scope<'a>, name: &str) -> PlacedClock<'a>
    ensures clock { placed_view result ≡ clock_of (node_view scope.now) name.now }
    ensures placed { IsPlaced (node_view scope.now) result }
{
    match scope.placed_clock(name) {
        Some(clock) => clock,
        None => scope.placed(ClockRef::Base),
    }
}

/// The value at which a clock with a pattern is true.
fn pattern_value(pattern: &PatternRef) -> Datum
    ensures { result ≡ pattern_value (the_pattern pattern.now) }
{
    match *pattern {
        PatternRef::Truth(sign) => Datum::Bool(sign),
        PatternRef::Label(label) => Datum::Name(label.number),
    }
}

/// A clock by the place of its variable.
pub fn clock_by_place(scope: &Scope, clock: PlacedClock) -> Clock
    requires { IsPlaced (node_view scope.now) clock }
    ensures { result ≡ clock_place (node_view scope.now) (placed_view clock.entry) }
{
    match clock.clock {
        ClockRef::Base => Clock::Base,
        ClockRef::On(_name, pattern) => {
            Clock::On(place_or_end(scope, clock.place), pattern_value(&pattern))
        }
    }
}

/// A flow on a clock; its type is int where it has none.
pub fn flow_of(scope: &Scope, clock: PlacedClock, kind: Option<Kind>, form: Form) -> Flow
    requires { IsPlaced (node_view scope.now) clock }
    ensures { result ≡ flow_on (clock_place (node_view scope.now) (placed_view clock.entry)) kind
        form }
{
    Flow {
        form,
        clock: clock_by_place(scope, clock),
        kind: kind.unwrap_or(Kind::Int),
    }
}

/// A root that is a flow of its own.
pub fn own(scope: &Scope, clock: PlacedClock, kind: Option<Kind>, form: Form) -> Walked
    requires { IsPlaced (node_view scope.now) clock }
    ensures root { result.root ≡ Root.Own (flow_on (clock_place (node_view scope.now)
        (placed_view clock.entry)) kind form) }
    ensures kind { result.kind ≡ kind }
{
    Walked {
        root: Root::Own(flow_of(scope, clock, kind, form)),
        kind,
    }
}

/// How many inputs the node has that a call means; 0 where it means none.
pub fn inputs_of(catalog: &Catalog, name: &str) -> usize
    ensures { result ≡ inputs_in (node_called (program_view catalog.now) name.now) }
{
    match catalog.find(name) {
        Some(scope) => scope.node().inputs.as_slice().len(),
        None => 0,
    }
}

/// The list of the node that a call means; an empty one where it means none.
pub fn called_list<'a>(catalog: &Catalog, lists: &'a [Vec<Flow>], name: &str) -> &'a [Flow]
    ensures { result.now ≡ list_of (program_view catalog.now) (plain lists.now) name.now }
{
    match catalog.place(name) {
        Some(place) if place < lists.len() => lists[place].as_slice(),
        _ => &[],
    }
}
