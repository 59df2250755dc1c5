//! What holds of the definitions, as contracts of functions that do nothing.

ghost use Rattle.lutab.specs.FirstTable.{FirstTableLaw};

/// The table that a user begins with is one of the program's inputs, where it has no more instants than a
/// table may have, and each enumeration has a first name, which a field spells.
pub fn first_table_law()
    ensures { FirstTableLaw }
{}
