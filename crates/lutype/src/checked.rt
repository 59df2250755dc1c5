//! The check of names and types.

ghost use Rattle.std.specs.Prelude.{◌≡◌, ◌<◌, Some, IfOk, IfErr, length, slice_get};
ghost use Rattle.lutree.specs.declared.program.Node.{Node};
ghost use Rattle.lutree.specs.Tree.{program_view};
ghost use Rattle.lustat_rules.specs.Accepted.{IsNamed};
ghost use Rattle.lustat_rules.specs.Reported.{ReportsRule};
ghost use Rattle.lutype.specs.First.{IsReportedFirst};
ghost use Rattle.lutype.specs.Named.{AreInOrder};

use crate::search::least_fault;
use crate::typed::Typed;
use crate::{CallOrder, call_order, with_recursion};
use lustat_rules::{Catalog, StatError};
use lutree::Program;
use std::alloc::Global;

/// The place of a node's name in the text.
pub(crate) fn byte_of_node(catalog: &Catalog, place: usize) -> usize
    requires { place < length catalog.now.nodes }
    ensures { (node : Node) → slice_get catalog.now.nodes place ≡ Some node → result ≡ node.byte }
{
    catalog.program().nodes.as_slice()[place].byte
}

/// An order of all nodes in which calls go backward, of a program whose names and types are in order.
fn order_of_names(alloc: Global, catalog: &Catalog, main: &str) -> Result<Vec<usize>, StatError>
    ensures order { IfOk result (λ order. AreInOrder (record {
      program = catalog.now;
      main = main.now;
      order = order.items;
    })) }
    ensures reported { IfErr result (ReportsRule 1 (program_view catalog.now) main.now) }
    ensures first { IfErr result (IsReportedFirst catalog.now main.now) }
{
    let found = least_fault(alloc, catalog, main)?;
    match call_order(alloc, catalog)? {
        CallOrder::Sorted(order) => match found {
            None => Ok(order),
            Some(fault) => Err(fault),
        },
        CallOrder::Recursive(place) => {
            let byte = byte_of_node(catalog, place);
            Err(with_recursion(found, StatError::RecursiveNode { byte }))
        }
    }
}

/// Whether the names and types of a program are in order: its names are declared once and known, its calls
/// are of nodes and have their arities, no node reaches itself by calls, its equations are well typed and
/// define each variable once that is no input, and some node has the name of the main node.
///
/// The expected time grows with the size of the program.
///
/// # Errors
///
/// An error other than out of memory reports a rule that is broken: that of the least byte, at equal bytes
/// that of the least number. Of several nodes that reach themselves only the first in order of text is
/// thought of, at its name.
pub fn names<'a>(alloc: Global, program: &'a Program, main: &'a str) -> Result<Typed<'a>, StatError>
    ensures program { IfOk result (λ typed. typed.program ≡ program.now) }
    ensures main { IfOk result (λ typed. typed.main ≡ main.now) }
    ensures named { IfOk result (λ _. IsNamed (program_view program.now) main.now) }
    ensures reported { IfErr result (ReportsRule 1 (program_view program.now) main.now) }
    ensures first { IfErr result (IsReportedFirst program.now main.now) }
{
    let catalog = Catalog::new(alloc, program)?;
    let order = order_of_names(alloc, &catalog, main)?;
    Ok(Typed::new(catalog, main, order))
}
