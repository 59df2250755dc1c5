//! What stands at a byte of a program, and the parts of an expression.

use crate::sentences;
use lubase::Name;
use lustat_rules::{Catalog, Scope};
use lutree::{Declaration, DeclaredName, Equation, Expr, Node, Program, TypeDeclaration};
use std::alloc::AllocError;

/// A refused equation, with the program, its node, and the parts of its right side, each with its first token
/// (see `tokens`).
#[derive(Clone, Copy)]
pub(crate) struct Spot<'s, 'a> {
    pub(crate) catalog: &'s Catalog<'a>,
    pub(crate) scope: &'s Scope<'a>,
    pub(crate) equation: &'a Equation,
    pub(crate) parts: &'s [&'a Expr],
    pub(crate) starts: &'s [usize],
}

/// The first token of a part.
pub(crate) fn start_of_part(spot: &Spot, number: usize) -> usize {
    match spot.starts.get(number) {
        Some(start) => *start,
        None => 0,
    }
}

/// The first node of a name.
pub(crate) fn node_named<'a>(program: &'a Program, name: &str) -> Option<&'a Node> {
    for node in program.nodes.as_slice() {
        if node.name.is(name) {
            return Some(node);
        }
    }
    None
}

/// The node that a call in an equation means.
pub(crate) fn called<'a>(spot: &Spot<'_, 'a>, f: &Name) -> Option<&'a Node> {
    Some(spot.catalog.find(f.as_str())?.node())
}

/// The enumeration at a place that has so many names; none of a type that isn't declared, which has 0.
pub(crate) fn type_at_place(program: &Program, place: u8, count: u8) -> Option<&TypeDeclaration> {
    if count == 0 {
        return None;
    }
    for (i, declared) in program.types.as_slice().iter().enumerate() {
        if i == usize::from(place) {
            return Some(declared);
        }
    }
    None
}

/// The equation that begins at a byte, with its node.
pub(crate) fn equation_at<'c, 'a>(
    catalog: &'c Catalog<'a>,
    byte: usize,
) -> Option<(&'c Scope<'a>, &'a Equation)> {
    for scope in catalog.scopes() {
        for equation in scope.node().equations.as_slice() {
            if equation.byte == byte {
                return Some((scope, equation));
            }
        }
    }
    None
}

/// The declaration whose name stands at a byte, with its node.
pub(crate) fn declaration_at<'c, 'a>(
    catalog: &'c Catalog<'a>,
    byte: usize,
) -> Option<(&'c Scope<'a>, &'a Declaration)> {
    for scope in catalog.scopes() {
        for declared in scope.declarations() {
            if declared.byte == byte {
                return Some((scope, *declared));
            }
        }
    }
    None
}

/// The first name of an enumeration that is spelled so.
pub(crate) fn label_named<'a>(
    types: &'a [TypeDeclaration],
    name: &str,
) -> Option<&'a DeclaredName> {
    for declared in types {
        for label in declared.names.as_slice() {
            if label.name.is(name) {
                return Some(label);
            }
        }
    }
    None
}

/// The first type with a name that is spelled so.
pub(crate) fn type_of_label<'a>(
    types: &'a [TypeDeclaration],
    name: &str,
) -> Option<&'a TypeDeclaration> {
    for declared in types {
        for label in declared.names.as_slice() {
            if label.name.is(name) {
                return Some(declared);
            }
        }
    }
    None
}

/// Whether the variable whose name stands at a byte is an input, an output or a local of a node.
pub(crate) fn role_at(node: &Node, byte: usize) -> &'static str {
    for declared in node.inputs.as_slice() {
        if declared.byte == byte {
            return sentences::INPUT;
        }
    }
    for declared in node.outputs.as_slice() {
        if declared.byte == byte {
            return sentences::OUTPUT;
        }
    }
    sentences::LOCAL
}

/// The parts of an expression, itself among them, behind those before: as they begin in the text, but for
/// what is sampled, which stands before the `when`.
pub(crate) fn push_parts<'e>(e: &'e Expr, parts: &mut Vec<&'e Expr>) -> Result<(), AllocError> {
    if let Expr::When(a, _) = e {
        push_parts(a, parts)?;
    }
    parts.push(e)?;
    if let Expr::If(c, _, _) = e {
        push_parts(c, parts)?;
    }
    if let Expr::Binary(_, a, _) | Expr::If(_, a, _) = e {
        push_parts(a, parts)?;
    }
    match e {
        Expr::Unary(_, last) | Expr::Binary(_, _, last) | Expr::If(_, _, last) => {
            push_parts(last, parts)
        }
        Expr::Merge(_, _, all) | Expr::Call(_, all) => {
            for a in all {
                push_parts(a, parts)?;
            }
            Ok(())
        }
        _ => Ok(()),
    }
}
