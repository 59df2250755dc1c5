//! What holds of the definitions, as contracts of functions that do nothing.

ghost use Rattle.lucore_laws.specs.CausalityLaws.{CauseLaw};
ghost use Rattle.lucore_laws.specs.Owners.{OwnerLaw};
ghost use Rattle.lucore_laws.specs.CausalityVectors.{VectorsLaw};

/// A flow of the flat list reads itself through a chain exactly where an occurrence of the source does.
pub fn cause_law()
    ensures { CauseLaw }
{}

/// A cycle that passes a call, one that passes a clock, and none where a `pre` breaks it.
pub fn vectors_law()
    ensures { VectorsLaw }
{}

/// Where a flow reads itself through a chain, an occurrence does that its main variable owns.
pub fn owner_law()
    ensures { OwnerLaw }
{}
