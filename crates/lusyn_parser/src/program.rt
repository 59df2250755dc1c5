//! Nodes and whole programs.

ghost use Rattle.std.specs.Prelude.{◌≡◌, map, IfOk};
ghost use Rattle.lutree.specs.Tree.{node_view, program_view};
ghost use Rattle.lutree.specs.Places.{node_places, places_view};
ghost use Rattle.lusyn_parser.specs.Resolved.{resolved_node, resolved};
ghost use Rattle.lusyn_parser.specs.Tables.{types_view, AreFew};
ghost use Rattle.lusyn_parser.specs.Known.{types_of};

use crate::labels::Labels;
use crate::trees::{resolve_declarations, resolve_equations};
use lubase::Row;
use lutree::{Node, Program, TypeDeclaration};
use std::alloc::{AllocError, Global};
use std::mem;

fn resolve_node(alloc: Global, labels: &Labels<'_>, node: &mut Node) -> Result<(), AllocError>
    ensures tree { IfOk result (λ _. node_view node.new
        ≡ resolved_node (types_of labels.now) (node_view node.old)) }
    ensures places { IfOk result (λ _. node_places node.new ≡ node_places node.old) }
{
    let inputs = mem::replace(&mut node.inputs, Row::new(Vec::new(alloc)));
    node.inputs = resolve_declarations(labels, inputs);
    let outputs = mem::replace(&mut node.outputs, Row::new(Vec::new(alloc)));
    node.outputs = resolve_declarations(labels, outputs);
    let locals = mem::replace(&mut node.locals, Row::new(Vec::new(alloc)));
    node.locals = resolve_declarations(labels, locals);
    let equations = mem::replace(&mut node.equations, Row::new(Vec::new(alloc)));
    node.equations = resolve_equations(alloc, labels, equations)?;
    Ok(())
}

fn resolve_nodes(
    alloc: Global,
    labels: &Labels<'_>,
    nodes: Row<Node>,
) -> Result<Row<Node>, AllocError>
    ensures trees { IfOk result (λ found. map node_view found
        ≡ map (resolved_node (types_of labels.now)) (map node_view nodes)) }
    ensures places { IfOk result (λ found. map node_places found ≡ map node_places nodes) }
{
    let mut items = nodes.into_items();
    for node in items.iter_mut() {
        resolve_node(alloc, labels, node)?;
    }
    Ok(Row::new(items))
}

/// The nodes with their names resolved by these types.
fn resolve_by(
    alloc: Global,
    types: &[TypeDeclaration],
    nodes: Row<Node>,
) -> Result<Row<Node>, AllocError>
    requires { AreFew (types_view types.now) }
    ensures trees { IfOk result (λ found. map node_view found
        ≡ map (resolved_node (types_view types.now)) (map node_view nodes)) }
    ensures places { IfOk result (λ found. map node_places found ≡ map node_places nodes) }
{
    let labels = Labels::new(alloc, types)?;
    resolve_nodes(alloc, &labels, nodes)
}

/// The program with its names resolved by its types. It takes memory for a table of their names and for each
/// name that is found to be one of an enumeration, and none where there are no types.
pub fn resolve(alloc: Global, program: Program) -> Result<Program, AllocError>
    requires { AreFew (types_view program.types) }
    ensures program { IfOk result (λ found. program_view found
        ≡ resolved (program_view program)) }
    ensures places { IfOk result (λ found. places_view found ≡ places_view program) }
{
    if program.types.as_slice().is_empty() {
        return Ok(program);
    }
    let Program { types, nodes } = program;
    let nodes = resolve_by(alloc, types.as_slice(), nodes)?;
    Ok(Program { types, nodes })
}
