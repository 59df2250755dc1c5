//! What holds of the definitions, as contracts of functions that do nothing.

ghost use Rattle.luplace_file.specs.Vectors.{VectorsLaw};

/// Worked files of both versions: what they say; which refusal comes of each rule, and which of two.
pub fn vectors_law()
    ensures { VectorsLaw }
{}
