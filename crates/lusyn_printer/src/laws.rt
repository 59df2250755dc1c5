//! What holds of the canonical text of every program that a text spells, and that of a worked one, as
//! contracts of functions that do nothing.

ghost use Rattle.lusyn_printer.specs.Laws.{ReadBackLaw, AsciiLaw, CanonicalVector};

/// The canonical text of a program that a text spells has tokens, they spell the same program, and no run of
/// them is too long where none of the text was.
pub fn read_back_law()
    ensures { ReadBackLaw }
{}

/// The canonical text of a program that a text spells is ASCII.
pub fn ascii_law()
    ensures { AsciiLaw }
{}

/// The canonical text of a worked program.
pub fn canonical_vector_law()
    ensures { CanonicalVector }
{}
