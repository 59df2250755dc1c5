//! Worked placements, and what holds of ways, as contracts of functions that do nothing.

ghost use Rattle.luplace.specs.Laws.{OneWay};
ghost use Rattle.luplace.specs.Vectors.{PlacingVectors};

/// Where worked placements put the variables of a program, and which are refused.
pub fn placing_vectors_law()
    ensures { PlacingVectors }
{}

/// A plan has one way at most.
pub fn one_way_law()
    ensures { OneWay }
{}
