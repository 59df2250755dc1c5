//! What holds of the definitions, as contracts of functions that do nothing.

ghost use Rattle.lustat_rules.specs.Accepted.{BreaksIsNotKept};
ghost use Rattle.lustat_rules.specs.Chains.{FollowedVectors, NeededVectors, ClockChainVectors, CallVectors};
ghost use Rattle.lustat_rules.specs.ClassVectors.{ClassVectors, BeginningVectors};
ghost use Rattle.lustat_rules.specs.Classes.{LeastDecides};
ghost use Rattle.lustat_rules.specs.Clocks.{FitsClockLaw};
ghost use Rattle.lustat_rules.specs.EnumVectors.{EnumVectors, EnumClockVectors, EnumProgramsAre};
ghost use Rattle.lustat_rules.specs.Naming.{CallOrderLaw, DefinedOnceLaw};
ghost use Rattle.lustat_rules.specs.Vectors.{VectorsLaw, NamedEquations, TypedEquations, ClockedEquations, InitialisedNodes, DeclarationsAndNodes, ProgramsAre};

/// A program that breaks a rule somewhere doesn't keep it.
pub fn breaks_law()
    ensures { BreaksIsNotKept }
{}

/// What it asks of an expression to fit a clock, form by form.
pub fn fits_law()
    ensures { FitsClockLaw }
{}

/// Where some assignment of classes meets all rules, the least one that meets the rules but the needs does.
pub fn least_decides_law()
    ensures { LeastDecides }
{}

/// Where each equation defines what none before it does, no variable has two equations.
pub fn defined_once_law()
    ensures { DefinedOnceLaw }
{}

/// Worked names, calls and types.
pub fn vectors_law()
    ensures { VectorsLaw }
{}

/// Equations that keep and that break the rules of names and arities.
pub fn naming_vectors_law()
    ensures { NamedEquations }
{}

/// Equations that are well typed, and that aren't.
pub fn typing_vectors_law()
    ensures { TypedEquations }
{}

/// Equations that keep and that break the rules of clocks.
pub fn clock_vectors_law()
    ensures { ClockedEquations }
{}

/// Nodes with and without classes, and the condition of `current`.
pub fn initialisation_vectors_law()
    ensures { InitialisedNodes }
{}

/// Declarations, nodes and programs that keep and that break rules.
pub fn declaration_vectors_law()
    ensures { DeclarationsAndNodes }
{}

/// One program that is accepted, and one that is refused.
pub fn program_vectors_law()
    ensures { ProgramsAre }
{}

/// Where all nodes stand in an order with each behind those that it calls, none reaches itself.
pub fn call_order_law()
    ensures { CallOrderLaw }
{}

/// `fby` in clocks and in classes.
pub fn followed_vectors_law()
    ensures { FollowedVectors }
{}

/// What is needed in class 0, and is of class 1.
pub fn needed_vectors_law()
    ensures { NeededVectors }
{}

/// Clocks on clocks, loops of clocks, and `current` by a negated clock.
pub fn clock_chain_vectors_law()
    ensures { ClockChainVectors }
{}

/// Calls through two nodes, and orders of calls.
pub fn call_vectors_law()
    ensures { CallVectors }
{}

/// The class of each form, where class 0 is needed and where it isn't, and which variables stand after
/// `when`, `merge` and `current`.
pub fn class_vectors_law()
    ensures { ClassVectors }
{}

/// Which outputs may be nil, and how the variable of a clock has to begin for `current`.
pub fn beginning_vectors_law()
    ensures { BeginningVectors }
{}

/// Names of enumerations: their types, equal names, names that aren't known, and merges of all names and of
/// others.
pub fn enum_vectors_law()
    ensures { EnumVectors }
{}

/// Clocks on names of enumerations, and `current` by them.
pub fn enum_clock_vectors_law()
    ensures { EnumClockVectors }
{}

/// One program with an enumeration that is accepted, and one that is refused.
pub fn enum_program_vectors_law()
    ensures { EnumProgramsAre }
{}
