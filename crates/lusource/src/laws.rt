//! What holds of the definitions, as contracts of functions that do nothing.

ghost use Rattle.lusource.specs.Agreement.{OneMainMeaningLaw, OneMeaningLaw};
ghost use Rattle.lusource.specs.Causal.{CausalLaw};
ghost use Rattle.lusource.specs.FaultPaths.{FaultPathsLaw};
ghost use Rattle.lusource.specs.FaultVectors.{FaultVectorsLaw};
ghost use Rattle.lusource.specs.Instances.{CalledLaw, InstanceLaw};
ghost use Rattle.lusource.specs.RunLaws.{SourceLaw};
ghost use Rattle.lusource.specs.Vectors.{VectorsLaw};
ghost use Rattle.lusource.specs.StreamVectors.{StreamVectors};

/// Worked expressions of all forms, on the base clock and on slower ones; calls, with their numbers, nodes,
/// clocks and arguments; the instances of nested calls; the right sides of two counters that count each
/// other; and what a table gives the main node.
pub fn vectors_law()
    ensures { VectorsLaw }
{}

/// The calls of an instance are of the nodes that its node calls in the text, in the same order.
pub fn called_law()
    ensures { CalledLaw }
{}

/// In a solution, an instance stands at each path that the text has, and is of the node that the text says.
pub fn instance_law()
    ensures { InstanceLaw }
{}

/// Worked expressions where a stream that they look at breaks: which of them are there again after it and
/// which never, at which instants they look, and in which order they take their operands.
pub fn stream_vectors_law()
    ensures { StreamVectors }
{}

/// A program that agrees with a flat program has a solution, and all its solutions give the main variables
/// the same streams.
pub fn one_main_meaning_law()
    ensures { OneMainMeaningLaw }
{}

/// Where each variable of each instance has a flow as well, all solutions give all of them the same streams.
pub fn one_meaning_law()
    ensures { OneMeaningLaw }
{}

/// Where worked expressions are at fault and where they aren't, and of which main variable a fault in a
/// called node is reported.
pub fn fault_vectors_law()
    ensures { FaultVectorsLaw }
{}

/// In a solution, a fault is one of an operator of an instance, at a path of calls that the text has.
pub fn fault_paths_law()
    ensures { FaultPathsLaw }
{}

/// What a variable has at an instant is settled by what the inputs have up to it: tables that agree on their
/// first instants have solutions that agree there, in every instance of every node.
pub fn causal_law()
    ensures { CausalLaw }
{}

/// In each solution of a run's source the main variables have the streams, and the links the lists, that the
/// flat program's only solution gives them.
pub fn source_law()
    ensures { SourceLaw }
{}
