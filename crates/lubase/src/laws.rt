//! What holds of orders, cycles and limits, as contracts of functions that do nothing.

ghost use Rattle.std.specs.Prelude.{◌≡◌};
ghost use Rattle.lubase.specs.Graph.{OrderExcludesCycle, OrderOrCycle};
ghost use Rattle.lubase.specs.Limits.{longest_program, longest_run, most_nodes, most_types, most_names, most_flows, longest_placement, longest_site_name, most_sites, most_capacity, usual_capacity, longest_table, most_instants, most_workers, longest_schedule};

use crate::limits::{
    LONGEST_PLACEMENT, LONGEST_PROGRAM, LONGEST_RUN, LONGEST_SCHEDULE, LONGEST_SITE_NAME,
    LONGEST_TABLE, MOST_CAPACITY, MOST_FLOWS, MOST_INSTANTS, MOST_NAMES, MOST_NODES, MOST_SITES,
    MOST_TYPES, MOST_WORKERS, USUAL_CAPACITY,
};

/// Where a graph has an order, no vertex reaches itself.
pub fn order_excludes_cycle_law()
    ensures { OrderExcludesCycle }
{}

/// A graph has an order, or some vertex reaches itself.
pub fn order_or_cycle_law()
    ensures { OrderOrCycle }
{}

/// Each limit of the code is the one of its name that contracts cite.
pub fn limits_law()
    ensures longest_program { LONGEST_PROGRAM ≡ longest_program }
    ensures longest_run { LONGEST_RUN ≡ longest_run }
    ensures most_nodes { MOST_NODES ≡ most_nodes }
    ensures most_types { MOST_TYPES ≡ most_types }
    ensures most_names { MOST_NAMES ≡ most_names }
    ensures most_flows { MOST_FLOWS ≡ most_flows }
    ensures longest_placement { LONGEST_PLACEMENT ≡ longest_placement }
    ensures longest_site_name { LONGEST_SITE_NAME ≡ longest_site_name }
    ensures most_sites { MOST_SITES ≡ most_sites }
    ensures most_capacity { MOST_CAPACITY ≡ most_capacity }
    ensures usual_capacity { USUAL_CAPACITY ≡ usual_capacity }
    ensures longest_table { LONGEST_TABLE ≡ longest_table }
    ensures most_instants { MOST_INSTANTS ≡ most_instants }
    ensures most_workers { MOST_WORKERS ≡ most_workers }
    ensures longest_schedule { LONGEST_SCHEDULE ≡ longest_schedule }
{}
