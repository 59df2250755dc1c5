//! The first stage of the static checks: names and types. The rules are those of `lustat_rules`.
//!
//! # The stage
//!
//! - [`names`]: whether the names and types of a program are in order, or a `StatError` that names a rule
//!   that is broken.
//! - [`Typed`]: a program whose names and types are in order.
//! - [`least_fault`]: the fault that is reported, by the rules that look at one place alone.
//! - [`all_name_faults`]: all faults by the rules of names and types, in order of place.
//!
//! # The types of operators, by those of their operands
//!
//! - [`kind_of_unary`], [`kind_of_binary`], [`kind_of_choice`]: the type of an operator, of a choice too.
//! - [`agreed_kind`]: the type that two expressions both have; [`kind_with`]: that of the branches of a merge
//!   so far, with one more.
//! - [`asked_kind`], [`kind_of_result`]: what an operator asks of its two operands, and what it gives.
//! - [`is_of_kind`]: whether an expression has a type.
//!
//! These rules stand in `specs/Typing.antt` of `lustat_rules`.
//!
//! # Whether a declaration or an equation keeps a rule
//!
//! - [`declaration_is_known`], [`names_are_known`]: whether the names of a declaration, of an equation, are
//!   known.
//! - [`calls_are_known`], [`arities_are_right`]: whether the calls of an equation are of nodes, and have
//!   their arities.
//! - [`merges_are_whole`]: whether each merge of an equation has the branches of its variable's type.
//! - [`is_well_typed`]: whether an equation's right side has the types of the variables on the left.
//! - [`Definitions`], [`is_defined`], [`defines_anew`]: which equations define a variable, whether one does,
//!   and whether an equation defines what none before it does.
//!
//! # What is reported where a rule is broken
//!
//! - [`program_fault`], [`type_fault`], [`label_fault`], [`name_fault`]: the fault of a program as a whole,
//!   of a type's name, of a name of an enumeration, of a node's name.
//! - [`declaration_fault`], [`equation_fault`]: the least fault of a declaration, of an equation.
//! - [`with_recursion`]: of a fault, if there is one, and that of recursion the one that is reported.
//!
//! Which rules are asked for stands in `specs/Asked.antt`.
//!
//! # Calls
//!
//! - [`graph_of`]: the places of the nodes that each node calls.
//! - [`call_order`], [`CallOrder`]: all nodes, each behind those that it calls, or the first node in order of
//!   text that calls itself, directly or through others.
//!
//! A call means the first node of its name, and a call of no node is passed over: so there is an order or a
//! recursion for any program, whatever other rules it breaks. The nodes are the vertices of a graph of calls
//! (`specs/CallGraph.antt`), and the order is that of the graph.
#![tactic(auto)]

mod calls;
mod checked;
mod defined;
mod enumerations;
mod faults;
mod graph;
mod kinds;
mod known;
mod merges;
mod order;
mod parts;
mod search;
mod survey;
mod typed;
mod typing;

pub use calls::{arities_are_right, calls_are_known};
pub use checked::names;
pub use defined::{Definitions, defines_anew, is_defined};
pub use faults::{
    declaration_fault, equation_fault, label_fault, name_fault, program_fault, type_fault,
    with_recursion,
};
pub use graph::graph_of;
pub use kinds::{
    agreed_kind, asked_kind, is_of_kind, kind_of_binary, kind_of_choice, kind_of_result,
    kind_of_unary, kind_with,
};
pub use known::{declaration_is_known, names_are_known};
pub use lustat_rules::StatError;
pub use order::{CallOrder, call_order};
pub use parts::merges_are_whole;
pub use search::least_fault;
pub use survey::all_name_faults;
pub use typed::Typed;
pub use typing::{is_well_typed, only_kind};
