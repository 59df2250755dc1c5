//! An order of calls, or a recursion.

ghost use Rattle.std.specs.Prelude.{ℕ, List, IfOk};
ghost use Rattle.lutree.specs.Tree.{program_view};
ghost use Rattle.lustat_rules.specs.Naming.{Reaches, IsCallOrder};
ghost use Rattle.lutype.specs.CallGraph.{AreOnce, IsRecursive, NoneRecursiveBefore};
ghost use Rattle.lutype.specs.CallAnswer.{IfSorted, IfRecursive};

use crate::graph::graph_of;
use lubase::{Order, order_of};
use lustat_rules::Catalog;
use std::alloc::{AllocError, Global};

/// What [`call_order`] finds. Nodes are given by their places in order of text, from 0.
#[derive(Drop)]
pub enum CallOrder {
    /// All nodes, each once, and each behind those that it calls.
    Sorted(Vec<usize>),
    /// The first node in order of text whose name reaches itself by calls.
    Recursive(usize),
}

/// An order of a program's nodes in which calls go backward, or the first node in order of text that reaches
/// itself by calls.
///
/// A call means the first node of its name; where there is none, it is passed over. There is an order exactly
/// where no name reaches itself. A node that merely calls a recursive one isn't reported. The expected time
/// grows with the length of the program.
///
/// # Errors
///
/// An error means that memory ran out.
pub fn call_order(alloc: Global, catalog: &Catalog) -> Result<CallOrder, AllocError>
    ensures order { IfOk result (λ o. IfSorted o (IsCallOrder (program_view catalog.now))) }
    ensures once { IfOk result (λ o. IfSorted o (AreOnce (program_view catalog.now))) }
    ensures straight { IfOk result (λ o. IfSorted o (λ _. (f : List ℕ)
        → ¬ Reaches (program_view catalog.now) f f)) }
    ensures recursive { IfOk result (λ o. IfRecursive o (IsRecursive (program_view catalog.now))) }
    ensures first { IfOk result (λ o. IfRecursive o (NoneRecursiveBefore
        (program_view catalog.now))) }
{
    let graph = graph_of(alloc, catalog)?;
    match order_of(alloc, &graph)? {
        Order::Sorted(order) => Ok(CallOrder::Sorted(order)),
        Order::Cyclic(place) => Ok(CallOrder::Recursive(place)),
    }
}
