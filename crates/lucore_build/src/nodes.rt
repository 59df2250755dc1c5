//! The counts of all nodes.

ghost use Rattle.std.specs.Prelude.{◌≡◌, IfOk, length};
ghost use Rattle.lutree.specs.Tree.{program_view};
ghost use Rattle.lucore_build.specs.Counted.{AreCounted, IsTooLarge, IsTooLong};

use crate::count::{count_of, node_count};
use lubase::limits::MOST_FLOWS;
use lustat::Checked;
use std::alloc::{AllocError, Global};

/// The sizes of a program's nodes, by place in the text, each counted up to 4,097.
///
/// The expected time grows with the length of the program.
///
/// # Errors
///
/// An error means that memory ran out.
pub fn sizes(alloc: Global, program: &Checked) -> Result<Vec<usize>, AllocError>
    ensures count { IfOk result (λ counts. length counts.items
        ≡ length (program_view program.now.program).nodes) }
    ensures counted { IfOk result (λ counts. AreCounted (program_view program.now.program)
        counts.items) }
{
    let catalog = program.catalog();
    let nodes = catalog.program().nodes.as_slice();
    let mut counts = vec![in alloc; 0; nodes.len()]?;
    for place in program.order() {
        if *place >= nodes.len() {
            continue;
        }
        let count = node_count(catalog, counts.as_slice(), &nodes[*place]);
        counts[*place] = count;
    }
    Ok(counts)
}

/// Whether the flat list of a program has more than 4,096 flows.
///
/// The expected time grows with the length of the program, and not with that of the list.
///
/// # Errors
///
/// An error means that memory ran out.
pub fn is_too_large(alloc: Global, program: &Checked) -> Result<bool, AllocError>
    ensures size { IfOk result (λ large. IsTooLarge (program_view program.now.program)
        program.now.main large) }
    ensures flows { IfOk result (λ large. IsTooLong (program_view program.now.program)
        program.now.main large) }
{
    let counts = sizes(alloc, program)?;
    let count = count_of(program.catalog(), counts.as_slice(), program.main());
    Ok(count > MOST_FLOWS)
}
