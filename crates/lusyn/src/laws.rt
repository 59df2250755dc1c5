//! What holds of the definitions, as contracts of functions that do nothing.

ghost use Rattle.lusyn.specs.Laws.{OneProgramLaw, NotRefusedLaw, OneRefusalLaw};
ghost use Rattle.lusyn.specs.Places.{OnePlacesLaw, PlacesVector};

/// No text spells two programs.
pub fn one_program_law()
    ensures { OneProgramLaw }
{}

/// No refusal is true of a text that spells a program.
pub fn not_refused_law()
    ensures { NotRefusedLaw }
{}

/// No two refusals are true of one text.
pub fn one_refusal_law()
    ensures { OneRefusalLaw }
{}

/// No text has two lists of places.
pub fn one_places_law()
    ensures { OnePlacesLaw }
{}

/// A worked text with its places.
pub fn places_vector_law()
    ensures { PlacesVector }
{}
