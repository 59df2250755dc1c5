//! What holds of the definitions, as a contract of a function that does nothing.

ghost use Rattle.luexplain.specs.Vectors.{NearVectors, PlaceVectors};

/// Worked places: tabs, line feeds, the end of a text, and lines that are cut.
pub fn place_vectors_law()
    ensures { PlaceVectors }
{}

/// Worked names: one letter more, less or another, two letters, names that are too far, and names that are
/// too short.
pub fn near_vectors_law()
    ensures { NearVectors }
{}
