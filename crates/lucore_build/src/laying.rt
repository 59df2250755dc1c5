//! The lists of a program's nodes, up to that of the main node.

ghost use Rattle.std.specs.Prelude.{◌≡◌, ◌<◌, ◌≤◌, ◌↔◌, IsTrue, ℕ, Some, length, slice_get, map, replicate, [], IfOk, Contains};
ghost use Rattle.std.specs.Option.{ForSome};
ghost use Rattle.lutree.specs.Tree.{NodeTree, node_view, program_view};
ghost use Rattle.lustat_rules.specs.Naming.{IsCallOrder};
ghost use Rattle.lubase.specs.Search.{Has};
ghost use Rattle.lucore_laws.specs.Layout.{node_flows, node_owners, main_variables, types_of};
ghost use Rattle.lucore_build.specs.Walks.{plain};
ghost use Rattle.lucore_build.specs.Listed.{AreClosed, AreBuilt, IsNodeList, IsListOf};

use crate::context::Context;
use crate::needed::needed_by;
use crate::owners::{NodeList, node_list};
use crate::types::types_in;
use crate::variables::variables_in;
use luflow::{Enum, Flow, Variable};
use lustat_rules::Catalog;
use std::alloc::{AllocError, Global};

/// A flat list: the flows, for each flow the number of the main variable in whose equation it stands, the
/// main variables, and the program's types.
#[derive(Drop)]
pub struct FlatList {
    pub flows: Vec<Flow>,
    pub owners: Vec<usize>,
    pub variables: Vec<Variable>,
    pub types: Vec<Enum>,
}

/// An empty list for each node.
fn no_lists(alloc: Global, count: usize) -> Result<Vec<Vec<Flow>>, AllocError>
    ensures { IfOk result (λ lists. length lists.items ≡ count) }
{
    let mut lists = Vec::with_capacity(alloc, count)?;
    for _ in 0..count {
        lists.push(Vec::new(alloc))?;
    }
    Ok(lists)
}

/// The list of the node at a place, given the lists of the nodes that it calls.
fn list_at(
    alloc: Global,
    catalog: &Catalog,
    lists: &[Vec<Flow>],
    place: usize,
) -> Result<NodeList, AllocError>
    requires { place < length (program_view catalog.now).nodes }
    ensures flows { IfOk result (λ list. ForSome (slice_get (program_view catalog.now).nodes place)
        (λ n. list.flows.items ≡ node_flows (program_view catalog.now) (plain lists.now) n)) }
    ensures owners { IfOk result (λ list. ForSome (slice_get (program_view catalog.now).nodes place)
        (λ n. list.owners.items ≡ node_owners (program_view catalog.now) (plain lists.now) n)) }
{
    let scope = &catalog.scopes()[place];
    let context = Context {
        catalog,
        scope,
        lists,
    };
    node_list(alloc, &context)
}

/// Whether a place has a mark.
fn has_mark(marks: &[bool], place: usize) -> bool
    ensures { IsTrue result ↔ Has marks.now place }
{
    match marks.get(place) {
        Some(mark) => *mark,
        None => false,
    }
}

/// The lists of the nodes with a mark among the first of an order.
fn lists_before(
    alloc: Global,
    catalog: &Catalog,
    order: &[usize],
    marks: &[bool],
    end: usize,
) -> Result<Vec<Vec<Flow>>, AllocError>
    requires calls { IsCallOrder (program_view catalog.now) order.now }
    requires closed { AreClosed (program_view catalog.now) marks.now }
    requires inside { end ≤ length order.now }
    ensures long { IfOk result (λ lists. length lists.items
        ≡ length (program_view catalog.now).nodes) }
    ensures built { IfOk result (λ lists. AreBuilt (program_view catalog.now) order.now marks.now
        end (plain lists.items)) }
{
    let count = catalog.scopes().len();
    let mut lists = no_lists(alloc, count)?;
    for number in 0..end {
        let place = order[number];
        if place < count && has_mark(marks, place) {
            let list = list_at(alloc, catalog, &lists, place)?;
            lists[place] = list.flows;
        }
    }
    Ok(lists)
}

/// Where a place stands first in an order; behind all where it stands nowhere.
fn number_of(order: &[usize], place: usize) -> usize
    ensures inside { result ≤ length order.now }
    ensures there { Contains order.now place → slice_get order.now result ≡ Some place }
{
    for (number, other) in order.iter().enumerate() {
        if *other == place {
            return number;
        }
    }
    order.len()
}

/// The list of the node at a place, and those of the nodes that it calls before it.
fn laid_at(
    alloc: Global,
    catalog: &Catalog,
    order: &[usize],
    place: usize,
) -> Result<FlatList, AllocError>
    requires calls { IsCallOrder (program_view catalog.now) order.now }
    requires inside { place < length (program_view catalog.now).nodes }
    ensures list { IfOk result (λ laid. ForSome (slice_get (program_view catalog.now).nodes place)
        (λ n. IsNodeList (program_view catalog.now) n laid.flows.items laid.owners.items)) }
    ensures variables { IfOk result (λ laid. ForSome
        (slice_get (program_view catalog.now).nodes place)
        (λ n. laid.variables.items ≡ main_variables n)) }
    ensures types { IfOk result (λ laid. laid.types.items ≡ types_of (program_view catalog.now)) }
{
    let marks = needed_by(alloc, catalog, place)?;
    let end = number_of(order, place);
    let lists = lists_before(alloc, catalog, order, &marks, end)?;
    let list = list_at(alloc, catalog, &lists, place)?;
    let variables = variables_in(alloc, catalog.scopes()[place].node())?;
    let types = types_in(alloc, catalog.program().types.as_slice())?;
    Ok(FlatList {
        flows: list.flows,
        owners: list.owners,
        variables,
        types,
    })
}

/// The flat list of a program, given an order of its nodes in which calls go backward. The lists of the nodes
/// that the main node reaches are made, each once, and no others. Where no node has the main node's name,
/// there is nothing in it.
///
/// The time grows with the length of the program and of these lists.
///
/// # Errors
///
/// An error means that memory ran out.
pub fn lay_out(
    alloc: Global,
    catalog: &Catalog,
    order: &[usize],
    main: &str,
) -> Result<FlatList, AllocError>
    requires calls { IsCallOrder (program_view catalog.now) order.now }
    ensures { IfOk result (IsListOf (program_view catalog.now) main.now) }
{
    match catalog.place(main) {
        Some(place) => {
            let laid = laid_at(alloc, catalog, order, place)?;
            Ok(laid)
        }
        None => Ok(FlatList {
            flows: Vec::new(alloc),
            owners: Vec::new(alloc),
            variables: Vec::new(alloc),
            types: Vec::new(alloc),
        }),
    }
}
