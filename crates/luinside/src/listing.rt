//! The list of all instances.

ghost use Rattle.std.specs.Prelude.{◌≡◌, ◌≤◌, ◌+◌, ◌++◌, ◌∷◌, [], All, IfOk, OnOk, slice_get, slice_index};
ghost use Rattle.lutree.specs.Tree.{program_view};
ghost use Rattle.luinside.specs.Starts.{starts_in, AreBounds};
ghost use Rattle.luinside.specs.Listing.{all_from};
ghost use Rattle.luinside.specs.Listed.{IsLow, ListsInstances};

use crate::starts::{CallStart, call_starts};
use lubase::limits::MOST_FLOWS;
use lubase::{Row, number_at};
use lucore_build::sizes;
use lustat::Checked;
use lustat_rules::Catalog;
use std::alloc::{AllocError, Global};

/// An instance of a node.
#[derive(Drop)]
pub struct Instance {
    /// The numbers of the calls that lead to it, from the main node on, each among the calls of its node,
    /// counted from 0. Calls are numbered as their arguments end in the text.
    pub path: Row<usize>,
    /// The place of its node in the program's text, counted from 0.
    pub node: usize,
    /// The place in the flat program of its first variable; the others stand behind it in order of
    /// declaration.
    pub start: usize,
}

/// A copy of an instance.
fn copied(alloc: Global, instance: &Instance) -> Result<Instance, AllocError>
    ensures { IfOk result (λ copy. copy ≡ instance.now) }
{
    let mut items = Vec::with_capacity(alloc, instance.path.as_slice().len())?;
    items.extend_from_slice(instance.path.as_slice())?;
    Ok(Instance {
        path: Row::new(items),
        node: instance.node,
        start: instance.start,
    })
}

/// The path of a call of the instance at a path.
fn with_call(alloc: Global, path: &[usize], call: usize) -> Result<Row<usize>, AllocError>
    ensures { IfOk result (λ row. row ≡ path.now ++ call ∷ []) }
{
    let mut items = Vec::new(alloc);
    items.extend_from_slice(path)?;
    items.push(call)?;
    Ok(Row::new(items))
}

/// The calls of the node at a place; none where there is no node.
fn starts_at(
    alloc: Global,
    catalog: &Catalog,
    counts: &[usize],
    place: usize,
) -> Result<Vec<CallStart>, AllocError>
    requires bounds { AreBounds (program_view catalog.now) counts.now }
    requires small { slice_index counts.now place ≤ 4096 }
    ensures { IfOk result (λ found. found.items ≡ starts_in (program_view catalog.now) counts.now
        (slice_get (program_view catalog.now).nodes place)) }
{
    match catalog.program().nodes.as_slice().get(place) {
        Some(node) => call_starts(alloc, catalog, counts, node),
        None => Ok(Vec::new(alloc)),
    }
}

/// Puts an instance behind those before, and then the instances inside it to which so many calls lead at
/// most.
fn push_from(
    alloc: Global,
    catalog: &Catalog,
    counts: &[usize],
    here: &Instance,
    depth: usize,
    found: &mut Vec<Instance>,
) -> Result<(), AllocError>
    requires bounds { AreBounds (program_view catalog.now) counts.now }
    requires small { here.now.start + slice_index counts.now here.now.node ≤ 4096 }
    ensures { OnOk result (found.new.items ≡ found.old.items ++ all_from (program_view catalog.now)
        counts.now depth here.now.path here.now.node here.now.start) }
{
    found.push(copied(alloc, here)?)?;
    if depth == 0 {
        return Ok(());
    }
    let starts = starts_at(alloc, catalog, counts, here.node)?;
    for (k, call) in starts.iter().enumerate() {
        if let Some(node) = call.node {
            let inner = Instance {
                path: with_call(alloc, here.path.as_slice(), k)?,
                node,
                start: here.start + call.at,
            };
            push_from(alloc, catalog, counts, &inner, depth - 1, found)?;
        }
    }
    Ok(())
}

/// The instance of the main node, by its place.
fn main_instance(alloc: Global, place: usize) -> Instance
    ensures { result ≡ record { path = []; node = place; start = 0 } }
{
    Instance {
        path: Row::new(Vec::new(alloc)),
        node: place,
        start: 0,
    }
}

/// All instances of a program, the main one first: each before those that it calls, and these in order of
/// their calls. Where the flat list has more than 4,096 flows, none is listed.
///
/// The expected time grows with the length of the program, and with the text and the path of each instance.
///
/// # Errors
///
/// An error means that memory ran out.
pub fn instances(alloc: Global, program: &Checked) -> Result<Vec<Instance>, AllocError>
    ensures lists { IfOk result (λ found. ListsInstances (program_view program.now.program)
        program.now.main found.items) }
    ensures low { IfOk result (λ found. All (IsLow (program_view program.now.program))
        found.items) }
{
    let catalog = program.catalog();
    let counts = sizes(alloc, program)?;
    let mut found = Vec::new(alloc);
    if let Some(place) = catalog.place(program.main()) {
        if number_at(counts.as_slice(), place) <= MOST_FLOWS {
            let main = main_instance(alloc, place);
            let depth = program.order().len();
            push_from(alloc, catalog, counts.as_slice(), &main, depth, &mut found)?;
        }
    }
    Ok(found)
}
