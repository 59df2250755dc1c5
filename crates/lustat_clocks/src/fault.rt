//! The faults of clocks at single places.

ghost use Rattle.std.specs.Prelude.{◌≡◌, ◌↔◌, Some, IsTrue, IfSome, slice_get};
ghost use Rattle.lutree.specs.declared.program.Program.{Program};
ghost use Rattle.lutree.specs.Tree.{node_view, program_view};
ghost use Rattle.lustat_rules.specs.Scope.{node_called};
ghost use Rattle.lustat_rules.specs.Clocks.{HasUnclockedOutputs};
ghost use Rattle.lustat_rules.specs.Faults.{declared_in, IsJudged, DeclarationFault, DeclarationKept, EquationFault, EquationKept};
ghost use Rattle.lustat_rules.specs.Told.{Tells};
ghost use Rattle.lustat_clocks.specs.Chains.{MarksEnds};
ghost use Rattle.lustat_clocks.specs.Asked.{is_asked};

use crate::agree::agrees;
use crate::chain::{is_clock, names_clocks};
use crate::parameter::{calls_unclocked, is_unclocked, is_visible};
use lustat_rules::{Catalog, Scope, StatError, least_of, reported};
use lutree::{Declaration, Equation};

/// The faults of a declaration, rule by rule, whatever the program round its node.
pub(crate) fn declaration_faults(
    scope: &Scope,
    ends: &[bool],
    main: &str,
    place: usize,
    declaration: &Declaration,
) -> [Option<StatError>; 3]
    requires ends { MarksEnds (node_view scope.now) ends.now }
    requires at { slice_get (declared_in scope.now) place ≡ Some declaration.now }
    ensures { (program : Program)
        → Tells (DeclarationFault is_asked program main.now scope.now place declaration.now)
        (DeclarationKept is_asked program main.now scope.now place declaration.now) result }
{
    let byte = declaration.byte;
    let is_clock = is_clock(scope, declaration, place, ends);
    let is_unclocked = is_unclocked(scope, declaration, main);
    let is_visible = is_visible(scope, declaration, main);
    let clock = reported(is_clock, StatError::NotAClock { byte });
    let parameter = reported(is_unclocked, StatError::ClockedParameter { byte });
    let hidden = reported(is_visible, StatError::HiddenClock { byte });
    [clock, parameter, hidden]
}

/// The least fault of a declaration, whatever the program round its node.
pub fn declaration_fault(
    scope: &Scope,
    ends: &[bool],
    main: &str,
    place: usize,
    declaration: &Declaration,
) -> Option<StatError>
    requires ends { MarksEnds (node_view scope.now) ends.now }
    requires at { slice_get (declared_in scope.now) place ≡ Some declaration.now }
    ensures { (program : Program)
        → IsJudged (DeclarationFault is_asked program main.now scope.now place declaration.now)
        (DeclarationKept is_asked program main.now scope.now place declaration.now) result }
{
    let row = declaration_faults(scope, ends, main, place, declaration);
    least_of(&row)
}

/// The faults of an equation, rule by rule. `unclocked` is what [`crate::main_is_unclocked`] reports.
pub(crate) fn equation_faults(
    catalog: &Catalog,
    scope: &Scope,
    main: &str,
    unclocked: bool,
    place: usize,
    equation: &Equation,
) -> [Option<StatError>; 3]
    requires { IsTrue unclocked ↔ IfSome (node_called (program_view catalog.now) main.now)
        HasUnclockedOutputs }
    ensures { Tells (EquationFault is_asked catalog.now main.now scope.now place equation.now)
        (EquationKept is_asked catalog.now main.now scope.now place equation.now) result }
{
    let byte = equation.byte;
    let agrees = agrees(scope, equation);
    let names_clocks = names_clocks(scope, equation);
    let calls_unclocked = calls_unclocked(equation, main, unclocked);
    let mismatch = reported(agrees, StatError::ClockMismatch { byte });
    let clock = reported(names_clocks, StatError::NotAClock { byte });
    let parameter = reported(calls_unclocked, StatError::ClockedParameter { byte });
    [mismatch, clock, parameter]
}

/// The least fault of an equation. `unclocked` is what [`crate::main_is_unclocked`] reports.
pub fn equation_fault(
    catalog: &Catalog,
    scope: &Scope,
    main: &str,
    unclocked: bool,
    place: usize,
    equation: &Equation,
) -> Option<StatError>
    requires { IsTrue unclocked ↔ IfSome (node_called (program_view catalog.now) main.now)
        HasUnclockedOutputs }
    ensures { IsJudged (EquationFault is_asked catalog.now main.now scope.now place equation.now)
        (EquationKept is_asked catalog.now main.now scope.now place equation.now) result }
{
    let row = equation_faults(catalog, scope, main, unclocked, place, equation);
    least_of(&row)
}
