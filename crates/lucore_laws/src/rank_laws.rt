//! What holds of orders of ranks, as contracts of functions that do nothing.

ghost use Rattle.lucore_laws.specs.RankLaws.{EachOnce, OneOrder, OrderUnlessCycle, ReadsFirst};

/// There is one order of ranks at most.
pub fn one_order_law()
    ensures { OneOrder }
{}

/// Where all reads are places, there is an order of ranks exactly where no place reads itself through a chain
/// of reads.
pub fn order_unless_cycle_law()
    ensures { OrderUnlessCycle }
{}

/// In an order of ranks what a place reads stands before it.
pub fn reads_first_law()
    ensures { ReadsFirst }
{}

/// An order of ranks has each place, once, and nothing else.
pub fn each_once_law()
    ensures { EachOnce }
{}
