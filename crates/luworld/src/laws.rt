//! What holds over every schedule, as contracts of functions that do nothing.

ghost use Rattle.luworld.specs.Laws.{CountsLaw, TurnLaw, ReachableLaw, QuietLaw, SameEndLaw, MovesLaw, EnabledLaw, NumbersLaw, StepCountsLaw};
ghost use Rattle.luworld.specs.Vectors.{VectorsLaw, ExampleIsOutline};
ghost use Rattle.luworld.specs.OutlineLaws.{PartsLaw, WiredLaw, WholeLaw, NeverStuckLaw, LeftLaw, ItemCountLaw, EndedLaw, DoneEndsLaw, PassedWholeLaw};
ghost use Rattle.luworld.specs.RunLaws.{JobOfRunLaw, ListLengthLaw};
ghost use Rattle.luworld.specs.RunVectors.{RunVectors};
ghost use Rattle.luworld.specs.PlanVectors.{PlanVectors, IdleVectors};

/// Messages taken are at most those put, and at most the capacity fewer.
pub fn counts_law()
    ensures { CountsLaw }
{}

/// A turn changes what one site has done, by one item at most.
pub fn turn_law()
    ensures { TurnLaw }
{}

/// Done items are reachable.
pub fn reachable_law()
    ensures { ReachableLaw }
{}

/// No turn moves exactly where all reachable items are done.
pub fn quiet_law()
    ensures { QuietLaw }
{}

/// Schedules that go on until no turn moves end in the same world.
pub fn same_end_law()
    ensures { SameEndLaw }
{}

/// Moving turns are bounded by the number of items.
pub fn moves_law()
    ensures { MovesLaw }
{}

/// A script is a site's part in all events.
pub fn parts_law()
    ensures { PartsLaw }
{}

/// A plan's system is wired.
pub fn wired_law()
    ensures { WiredLaw }
{}

/// Without a fault every item is reachable.
pub fn whole_law()
    ensures { WholeLaw }
{}

/// Without a fault all is done or a turn moves.
pub fn never_stuck_law()
    ensures { NeverStuckLaw }
{}

/// What the items left are.
pub fn left_law()
    ensures { LeftLaw }
{}

/// What the enabled site is.
pub fn enabled_law()
    ensures { EnabledLaw }
{}

/// Messages of a link are put and taken in order of number.
pub fn numbers_law()
    ensures { NumbersLaw }
{}

/// Worked counts of one program.
pub fn vectors_law()
    ensures { VectorsLaw }
{}

/// How many items there are.
pub fn item_count_law()
    ensures { ItemCountLaw }
{}

/// What a move does to the counts of links.
pub fn step_counts_law()
    ensures { StepCountsLaw }
{}

/// The example meets what is asked of plans.
pub fn example_law()
    ensures { ExampleIsOutline }
{}

/// What the end of a site says of faults.
pub fn ended_law()
    ensures { EndedLaw }
{}

/// Without a fault a done script is an ended one.
pub fn done_ends_law()
    ensures { DoneEndsLaw }
{}

/// Without a fault a link's list was put whole where its sender has ended, and taken whole where its receiver
/// has.
pub fn passed_whole_law()
    ensures { PassedWholeLaw }
{}

/// Worked runs on two or three sites: counters that feed each other, a sum beside a doubled sample on a slow
/// clock, a division that breaks, and a held sample. Each plan and each table is what a plan and a table have
/// to be.
pub fn run_vectors_law()
    ensures { RunVectors }
{}

/// What the machines of a run's sites rest on follows from what a run is.
pub fn job_of_run_law()
    ensures { JobOfRunLaw }
{}

/// A link's list is as long as the scripts make it.
pub fn list_length_law()
    ensures { ListLengthLaw }
{}

/// Two plans over three sites in full, with needs, links, scripts and lists: a sample that is handed on from
/// a site that doesn't have its clock, and a clock on a clock.
pub fn plan_vectors_law()
    ensures { PlanVectors }
{}

/// Runs without instants, a site without items, what is left where something is passed as absent or never
/// comes, and counts of the examples.
pub fn idle_vectors_law()
    ensures { IdleVectors }
{}
