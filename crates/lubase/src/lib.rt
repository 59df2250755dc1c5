//! The bases of the distributor: plain data that contracts compare, names in a row, directed graphs, and the
//! limits.
//!
//! # Plain data
//!
//! - [`Row`]: a list that never changes; a contract sees the list.
//! - [`Name`]: a text that never changes; a contract sees its bytes.
//! - [`SharedName`]: the same for several owners, in memory once.
//! - [`Number`]: a number that a program's text may have; a contract sees the number.
//!
//! # Names in a row, looked up by a table
//!
//! - [`Places`]: names in a row, with a table of where each stands first. What a look-up finds is said by the
//!   plain scan of the row.
//!
//! # Graphs: orders, cycles, and what is reached
//!
//! A graph is a list of lists: the vertices are its places, from 0, and the list at a place has the places
//! that it points to, in any order and any number of times. A number that is no place of the graph is passed
//! over.
//!
//! - [`order_of`], [`Order`]: an order with each vertex behind those that it points to, or the least vertex
//!   that reaches itself. There is an order exactly where none does.
//! - [`cycles_of`]: for each vertex whether it reaches itself.
//! - [`reached`], [`Link`]: a mark for each number that links lead to from where one starts.
//! - [`laws`]: what holds of the definitions.
//!
//! The time grows with the number of vertices and edges, nothing recurses, and all memory is asked for before
//! a search begins. The only error is out of memory.
//!
//! An order is found by a search in depth with marks "entered" and "placed": an edge to a vertex that is
//! entered and not placed closes a cycle. The least vertex on a cycle is found by a second search, made only
//! then, that groups vertices which reach each other. `specs/Graph.antt` has the definitions of edges, ways
//! and orders; what holds in the middle of a search is said by `specs/Search.antt`, `specs/Grouped.antt`,
//! `specs/ReachStates.antt` and `specs/States.antt`.
//!
//! In an order ([`Order::Sorted`]) the places serve as ranks: an edge leads to a lesser place (`IsOrder`,
//! `behind`). So what is computed along edges can be computed in that order.
//!
//! # Limits
//!
//! The limits of the product, each named once: in code by [`limits`], in contracts by `specs/Limits.antt`. A
//! law ([`laws::limits_law`]) says that each of them is the number of its namesake.
#![tactic(auto)]

mod groups;
pub mod laws;
pub mod limits;
mod link;
mod name;
mod number;
mod order;
mod places;
mod reach;
mod row;
mod search;
mod shared;

pub use link::Link;
pub use name::Name;
pub use number::Number;
pub use order::{Order, cycles_of, order_of};
pub use places::Places;
pub use reach::reached;
pub use row::{Row, number_at};
pub use shared::SharedName;
