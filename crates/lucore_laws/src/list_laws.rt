//! What holds of the definitions, as contracts of functions that do nothing.

ghost use Rattle.lucore_laws.specs.ListLaws.{AgreesLaw, InstancesLaw, OneListLaw, ListsLaw, FlatListLaw, ClosedLaw};
ghost use Rattle.lucore_laws.specs.FaultLaws.{FaultsLaw, AllFaultsLaw};
ghost use Rattle.lucore_laws.specs.Loop.{LoopLaw};
ghost use Rattle.lucore_laws.specs.Open.{NodesLaw};
ghost use Rattle.lucore_laws.specs.Sizes.{SizesLaw, CountLaw};
ghost use Rattle.lucore_laws.specs.ListVectors.{VectorsLaw};

/// The flows, owners and variables of worked programs, the sizes of the nodes of one, and that one has the
/// solutions of its source.
pub fn vectors_law()
    ensures { VectorsLaw }
{}

/// The flat list of an accepted program has the solutions of its source, if its flows have an order of rank.
pub fn agrees_law()
    ensures { AgreesLaw }
{}

/// Each variable of each instance has a flow, whose stream in the flat program's solutions is the variable's
/// in the source's.
pub fn instances_law()
    ensures { InstancesLaw }
{}

/// Without such an order it may have others: where two variables are copies of each other.
pub fn loop_law()
    ensures { LoopLaw }
{}

/// The list of each node of an accepted program has the solutions of the node, on any base clock and for any
/// inputs.
pub fn nodes_law()
    ensures { NodesLaw }
{}

/// A program has at most one flat list.
pub fn one_list_law()
    ensures { OneListLaw }
{}

/// A program none of whose nodes reaches itself by calls has a list for each node.
pub fn lists_law()
    ensures { ListsLaw }
{}

/// An accepted program has a flat list.
pub fn flat_list_law()
    ensures { FlatListLaw }
{}

/// What a flow of the list names is a flow of the list, and the main variables stand first.
pub fn closed_law()
    ensures { ClosedLaw }
{}

/// A program none of whose nodes reaches itself by calls has a size for each node.
pub fn sizes_law()
    ensures { SizesLaw }
{}

/// The flat list has as many flows as are counted without making it.
pub fn count_law()
    ensures { CountLaw }
{}

/// A fault of the flat list is a fault of the source, in the equation of the same main variable.
pub fn faults_law()
    ensures { FaultsLaw }
{}

/// Each fault of the source is a fault of the flat list, at the same main variable.
pub fn all_faults_law()
    ensures { AllFaultsLaw }
{}
