//! Makes the flat list of a program, as `lucore_laws` defines it.
//!
//! # Counting, before the list is made
//!
//! - [`sizes`]: the size of each node, counted up to 4,097; [`count_of`]: that of the node that a name means.
//! - [`is_too_large`]: whether the flat list of the main node is longer than 4,096.
//!
//! The sizes are those of `lucore_laws`; `specs/Counted.antt` says what a count is.
//!
//! # The list
//!
//! - [`lay_out`], [`FlatList`]: the flows of the main node's list, their owners and the main variables.
//!
//! Each node has one open list, made once, in an order in which calls go backward, and only of nodes that the
//! main node reaches. An expression is walked once: its inner flows are put behind those before, and the walk
//! gives its root and its type. A call puts a copy of the called node's list in place, moved.
//!
//! # A called node's list, put in place where it is called
//!
//! - [`push_moved`]: the list, moved behind the flows before, on the clock of the call and with its
//!   arguments.
//! - [`Operand`], [`sum_of`]: where an argument stands, and sums of places.
#![tactic(auto)]

mod context;
mod count;
mod laying;
mod moved;
mod needed;
mod node;
mod nodes;
mod open;
mod operand;
mod owners;
mod root;
mod types;
mod variables;
mod walk;

pub use count::count_of;
pub use laying::{FlatList, lay_out};
pub use moved::push_moved;
pub use nodes::{is_too_large, sizes};
pub use operand::{Operand, sum_of};
