//! What holds of the definitions, as contracts of functions that do nothing.

ghost use Rattle.luinside.specs.Columns.{DeepColumnsLaw};

/// The columns of all variables of all instances are, in each solution of the source, what these variables
/// have there.
pub fn deep_columns_law()
    ensures { DeepColumnsLaw }
{}
