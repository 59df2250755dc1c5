//! The search for warnings.

ghost use Rattle.std.specs.Prelude.{◌≡◌, ◌≢◌, ◌↔◌, IfOk, OnOk, IsTrue, All, AllPairs, Contains};
ghost use Rattle.lutree.specs.Tree.{node_view, program_view};
ghost use Rattle.lustat_warn.specs.declared.warning.Warning.{Warning};
ghost use Rattle.lustat_warn.specs.Warnings.{Among, UnreadIn, DividingIn, UnusedNodeAt, InNode, IsWarning, IsBefore};
ghost use Rattle.lustat_warn.specs.Scans.{Adds};

use crate::dividing::has_dividing_branch;
use crate::mentions::{names_called, names_read};
use crate::warning::{Warning, WarningKind};
use lustat_rules::Places;
use lutree::{Declaration, Equation, Node, Program};
use std::alloc::{AllocError, Global};

/// Adds a warning where it is told.
fn push_if(found: &mut Vec<Warning>, is_told: bool, warning: Warning) -> Result<(), AllocError>
    ensures { OnOk result (Adds (λ w. (w ≡ warning) × IsTrue is_told)
        found.old.items found.new.items) }
{
    if is_told {
        found.push(warning)?;
    }
    Ok(())
}

/// Whether a node isn't the main node, and isn't called.
fn is_unused(called: &Places, main: &str, node: &Node) -> bool
    ensures { IsTrue result ↔ ((node.now.name ≢ main.now) × ¬ Contains called.now node.now.name) }
{
    !node.name.is(main) && !called.has(node.name.as_str())
}

/// Adds the warning of a node that isn't used.
fn push_unused_node(
    found: &mut Vec<Warning>,
    called: &Places,
    main: &str,
    place: usize,
    node: &Node,
) -> Result<(), AllocError>
    ensures { OnOk result (Adds (UnusedNodeAt called.now main.now place node.now)
        found.old.items found.new.items) }
{
    let warning = Warning {
        kind: WarningKind::UnusedNode,
        node: place,
        number: 0,
        byte: node.byte,
    };
    push_if(found, is_unused(called, main, node), warning)
}

/// Whether a variable isn't read.
fn is_unread(read: &Places, declaration: &Declaration) -> bool
    ensures { IsTrue result ↔ ¬ Contains read.now declaration.now.name }
{
    !read.has(declaration.name.as_str())
}

/// Adds the warnings of variables of a node that aren't read.
fn push_unread(
    found: &mut Vec<Warning>,
    read: &Places,
    kind: WarningKind,
    place: usize,
    declarations: &[Declaration],
) -> Result<(), AllocError>
    ensures { OnOk result (Adds (Among declarations.now (UnreadIn read.now kind place))
        found.old.items found.new.items) }
{
    for (j, d) in declarations.iter().enumerate() {
        let warning = Warning {
            kind,
            node: place,
            number: j,
            byte: d.byte,
        };
        push_if(found, is_unread(read, d), warning)?;
    }
    Ok(())
}

/// Adds the warnings of equations with a division in a branch.
fn push_dividing(
    found: &mut Vec<Warning>,
    place: usize,
    equations: &[Equation],
) -> Result<(), AllocError>
    ensures { OnOk result (Adds (Among equations.now (DividingIn place))
        found.old.items found.new.items) }
{
    for (j, q) in equations.iter().enumerate() {
        let warning = Warning {
            kind: WarningKind::DividingBranch,
            node: place,
            number: j,
            byte: q.byte,
        };
        push_if(found, has_dividing_branch(&q.right), warning)?;
    }
    Ok(())
}

/// Adds the warnings of a node.
fn push_in_node(
    alloc: Global,
    found: &mut Vec<Warning>,
    called: &Places,
    main: &str,
    place: usize,
    node: &Node,
) -> Result<(), AllocError>
    ensures { OnOk result (Adds (InNode called.now main.now place node.now)
        found.old.items found.new.items) }
{
    let read = names_read(alloc, node)?;
    push_unused_node(found, called, main, place, node)?;
    push_unread(
        found,
        &read,
        WarningKind::UnusedInput,
        place,
        node.inputs.as_slice(),
    )?;
    push_unread(
        found,
        &read,
        WarningKind::UnusedLocal,
        place,
        node.locals.as_slice(),
    )?;
    push_dividing(found, place, node.equations.as_slice())
}

/// Adds the warnings of all nodes.
fn push_of_nodes(
    alloc: Global,
    found: &mut Vec<Warning>,
    called: &Places,
    main: &str,
    nodes: &[Node],
) -> Result<(), AllocError>
    ensures { OnOk result (Adds (Among nodes.now (InNode called.now main.now))
        found.old.items found.new.items) }
{
    for (i, node) in nodes.iter().enumerate() {
        push_in_node(alloc, found, called, main, i, node)?;
    }
    Ok(())
}

/// All warnings of a program with a main node of this name, if there is one: each once, in order of text.
/// They are told of any program, whether it keeps the static rules or not.
///
/// The time grows with the size of the program times the logarithm of the number of its names.
///
/// # Errors
///
/// An error means that memory ran out, and says nothing of the program. All that was taken is given back.
pub fn warnings(alloc: Global, program: &Program, main: &str) -> Result<Vec<Warning>, AllocError>
    ensures only { IfOk result (λ found. All (IsWarning program.now main.now) found.items) }
    ensures all { IfOk result
        (λ found. (w : Warning) → IsWarning program.now main.now w → Contains found.items w) }
    ensures once { IfOk result (λ found. AllPairs (λ v w. v ≢ w) found.items) }
    ensures in_order { IfOk result (λ found. AllPairs IsBefore found.items) }
{
    let called = names_called(alloc, program)?;
    let mut found = Vec::new(alloc);
    push_of_nodes(alloc, &mut found, &called, main, program.nodes.as_slice())?;
    Ok(found)
}
