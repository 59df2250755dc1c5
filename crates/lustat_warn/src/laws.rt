//! What holds of the definitions, as contracts of functions that do nothing.

ghost use Rattle.lustat_warn.specs.Vectors.{NamesAre, BranchesAre, WarningsAre};

/// What worked programs read and call.
pub fn name_vectors_law()
    ensures { NamesAre }
{}

/// Expressions with and without a division in a branch.
pub fn branch_vectors_law()
    ensures { BranchesAre }
{}

/// The warnings of a worked program.
pub fn warning_vectors_law()
    ensures { WarningsAre }
{}
