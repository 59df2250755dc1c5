//! What holds of resolving names, as contracts of functions that do nothing.

ghost use Rattle.lusyn_parser.specs.Laws.{OnceLaw, BareLaw, UntypedLaw, NamesAre};

/// Resolving a second time changes nothing.
pub fn once_law()
    ensures { OnceLaw }
{}

/// Resolving changes nothing but what names stand for.
pub fn bare_law()
    ensures { BareLaw }
{}

/// Resolving changes nothing where there are no types.
pub fn untyped_law()
    ensures { UntypedLaw }
{}

/// What names stand for in a worked program.
pub fn names_law()
    ensures { NamesAre }
{}
