//! What holds of the definitions, as contracts of functions that do nothing.

ghost use Rattle.luflow.specs.FlatLaws.{SolutionLaw, TidyLaw, StuckLaw, SplitLaw, MergeLaw, FaultLaw};
ghost use Rattle.luflow.specs.Prefixes.{PrefixLaw};
ghost use Rattle.luflow.specs.Tables.{FitsProgramLaw};
ghost use Rattle.luflow.specs.Vectors.{SolutionVectors};
ghost use Rattle.luflow.specs.OperatorVectors.{OperatorVectors};
ghost use Rattle.luflow.specs.FormVectors.{FormVectors};
ghost use Rattle.luflow.specs.ShapeVectors.{ShapeVectors};

/// A flat program whose reads come first has exactly one solution, faults or not: every two give each flow
/// the same stream, and there is one.
pub fn solution_law()
    ensures { SolutionLaw }
{}

/// Tables that agree on their first instants have solutions that agree there: what a flow has at an instant
/// isn't changed by what the inputs have later, nor by how many instants there are.
pub fn prefix_law()
    ensures { PrefixLaw }
{}

/// In every solution of a sound program each flow is present exactly where its clock is true, until it is
/// broken; its values have its type; and clock variables and outputs are never nil.
pub fn tidy_law()
    ensures { TidyLaw }
{}

/// In every solution of a sound program a value is stuck only where something that it looks at is broken.
pub fn stuck_law()
    ensures { StuckLaw }
{}

/// Where a variable has a value, exactly one of the clocks of its type's values is true.
pub fn split_law()
    ensures { SplitLaw }
{}

/// Where a merge has a value, exactly one of its branches is present, with that value.
pub fn merge_law()
    ensures { MergeLaw }
{}

/// An operator has no value exactly where the language says that it is a fault, and of that kind.
pub fn fault_law()
    ensures { FaultLaw }
{}

/// The solutions of six worked programs at their tables: two counters that feed each other, a sum beside a
/// doubled sample on a slow clock, a division that breaks at its second instant, a sample that is held, a
/// clock on a clock, and a choice among three names. They are flat programs, so the rules of types, clocks
/// and ranks can be met.
pub fn solution_vectors_law()
    ensures { SolutionVectors }
{}

/// The data operators at chosen data: at the ends of 64 bits, at negative numbers and zero, at equal ones, at
/// all truths, at names, and at nil; and their types.
pub fn operator_vectors_law()
    ensures { OperatorVectors }
{}

/// What each form gives where a stream that it looks at breaks, when it is there again and when it isn't, on
/// clocks that break too; what a link carries of such streams, and of none; a division that breaks and goes
/// on.
pub fn form_vectors_law()
    ensures { FormVectors }
{}

/// What flows of each form read, which orders are those of ranks and which aren't, which columns are a
/// program's and which aren't, its types and their names, and its variables by their roles.
pub fn shape_vectors_law()
    ensures { ShapeVectors }
{}

/// A table whose columns are the program's inputs in order gives each flow that reads it a value of its type
/// at each instant.
pub fn fits_law()
    ensures { FitsProgramLaw }
{}
