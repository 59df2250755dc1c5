//! The operator of a flow.

ghost use Rattle.std.specs.Prelude.{◌≡◌, IfOk};
ghost use Rattle.lutree.specs.Tree.{program_view};
ghost use Rattle.luinside.specs.Reads.{moved_by};
ghost use Rattle.luinside.specs.Sites.{ReadsAsItsFlow, TellsFaults, Follows};

use crate::step::{Operator, Step, step_at};
use lubase::Row;
use lucore_build::{sizes, sum_of};
use lueval::Reads;
use lustat::Checked;
use lustat_rules::Catalog;
use std::alloc::{AllocError, Global};

/// A data operator in the text of a program, in one of its instances.
#[derive(Drop)]
pub struct FaultSite {
    /// The numbers of the calls that lead to its instance, from the main node on, each among the calls of its
    /// node, counted from 0. Calls are numbered as their arguments end in the text.
    pub path: Row<usize>,
    /// The place of its node in the program's text, counted from 0.
    pub node: usize,
    /// The place of its equation among those of the node, counted from 0.
    pub equation: usize,
    /// Where it stands in the equation's right side: from the root on the numbers of the operands that have
    /// it inside, counted from 0. The operands of a `merge` are its branches, and those of a call its
    /// arguments.
    pub part: Row<usize>,
    /// The places in the flat program of its operands' flows.
    pub reads: Reads,
}

/// The operator where it stands in an instance, which begins at a place of the flat program.
fn site(
    path: Vec<usize>,
    node: usize,
    start: usize,
    found: Operator,
) -> Result<FaultSite, AllocError>
    ensures { IfOk result (λ site. site ≡ record {
      path = path.items;
      node = node;
      equation = found.equation;
      part = found.part;
      reads = moved_by start found.reads;
    }) }
{
    let Operator {
        equation,
        part,
        reads,
    } = found;
    let left = sum_of(start, reads.left)?;
    let right = match reads.right {
        Some(right) => Some(sum_of(start, right)?),
        None => None,
    };
    Ok(FaultSite {
        path: Row::new(path),
        node,
        equation,
        part,
        reads: Reads { left, right },
    })
}

/// The operator of a flow, sought from the main node's instance on.
fn follow(
    alloc: Global,
    catalog: &Catalog,
    counts: &[usize],
    main: usize,
    place: usize,
) -> Result<Option<FaultSite>, AllocError>
    ensures { IfOk result (λ found. Follows (program_view catalog.now) counts.now main place found) }
{
    let mut path = Vec::new(alloc);
    let mut node = main;
    let mut start = 0;
    while start <= place {
        match step_at(alloc, catalog, counts, node, place - start)? {
            Step::Nothing => return Ok(None),
            Step::Operator(found) => return Ok(Some(site(path, node, start, found)?)),
            Step::Inside(inside) => {
                if inside.at == 0 {
                    return Ok(None);
                }
                path.push(inside.number)?;
                start = sum_of(start, inside.at)?;
                node = inside.node;
            }
        }
    }
    Ok(None)
}

/// The operator of the source that a flow of the flat program is of, by the flow's place; none where the flow
/// is of no data operator, as that of a constant, an `if` or a `pre`, or where there is none.
///
/// The expected time grows with the length of the program and with the text of the nodes on the way.
///
/// # Errors
///
/// An error means that memory ran out.
pub fn operator_at(
    alloc: Global,
    program: &Checked,
    place: usize,
) -> Result<Option<FaultSite>, AllocError>
    ensures reads { IfOk result (λ found. ReadsAsItsFlow (program_view program.now.program)
        program.now.main place found) }
    ensures faults { IfOk result (λ found. TellsFaults (program_view program.now.program)
        program.now.main place found) }
{
    let catalog = program.catalog();
    let counts = sizes(alloc, program)?;
    let Some(main) = catalog.place(program.main()) else {
        return Ok(None);
    };
    let found = follow(alloc, catalog, counts.as_slice(), main, place)?;
    Ok(found)
}
