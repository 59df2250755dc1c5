//! What holds of blocks, as contracts of functions that do nothing.

ghost use Rattle.lublock_kernels.specs.Blocks.{BlockLaw};
ghost use Rattle.lublock_kernels.specs.Parts.{JoinLaw, PartLaw};
ghost use Rattle.lublock_kernels.specs.Wholes.{NextLaw, SubLaw, WholeLaw};

/// A block whose words solve each flow by itself, tick by tick, has the program's solution at the block's
/// instants, whatever order the words were found in.
pub fn block_law()
    ensures { BlockLaw }
{}

/// A block of a part of a program, whose own flows are solved each by itself and whose taken flows came as
/// messages of what computes them, has the solution of the whole program at all flows of the part.
pub fn part_law()
    ensures { PartLaw }
{}

/// What a right block has of a flow goes out as the flow's next messages.
pub fn join_law()
    ensures { JoinLaw }
{}

/// The rows of a part that stand, of which all is there, are right.
pub fn whole_law()
    ensures { WholeLaw }
{}

/// Behind a right block the next one begins.
pub fn next_law()
    ensures { NextLaw }
{}

/// Rows that stand for a part stand for fewer of its flows.
pub fn sub_law()
    ensures { SubLaw }
{}
