//! Types, declarations, equations and nodes.

ghost use Rattle.std.specs.Prelude.{◌≡◌, ◌++◌, IfOk, string_bytes, map, flat_map, codes};
ghost use Rattle.lutree.specs.Tree.{type_view, declaration_view, declarations_view, equation_view, node_view, program_view};
ghost use Rattle.lusyn_grammar.specs.Printing.{written_type};
ghost use Rattle.lusyn_printer.specs.Canonical.{joined, type_text, declaration, declarations, heading, locals, left_side, equation, node, type_declaration, canonical};

use crate::expr::{put_expr, put_when};
use lubase::Name;
use lutree::{Declaration, DeclaredName, Equation, Kind, Node, Program, TypeDeclaration};
use std::alloc::{AllocError, Global};

/// `int` or `bool`; an enumeration has a name instead.
fn kind_text(kind: Kind) -> &'static str
    ensures { result.now ≡ type_text (written_type kind None) }
{
    match kind {
        Kind::Int => "int",
        Kind::Bool => "bool",
        Kind::Enum(_, _) => "",
    }
}

/// `int`, `bool`, or the name of an enumeration.
fn put_type(text: &mut String, declared: &Declaration) -> Result<(), AllocError>
    ensures { IfOk result (λ _. string_bytes text.new ≡ string_bytes text.old
        ++ type_text (written_type declared.now.kind declared.now.type_name)) }
{
    match &declared.type_name {
        Some(name) => text.push_str(name.as_str()),
        None => text.push_str(kind_text(declared.kind)),
    }
}

/// `x: int`
fn put_declaration(text: &mut String, declared: &Declaration) -> Result<(), AllocError>
    ensures { IfOk result (λ _. string_bytes text.new ≡ string_bytes text.old
        ++ declaration (declaration_view declared.now)) }
{
    text.push_str(declared.name.as_str())?;
    text.push_str(": ")?;
    put_type(text, declared)?;
    match &declared.clock {
        Some(condition) => put_when(text, condition),
        None => Ok(()),
    }
}

/// `x: int; y: bool`
fn put_declarations(text: &mut String, declared: &[Declaration]) -> Result<(), AllocError>
    ensures { IfOk result (λ _. string_bytes text.new ≡ string_bytes text.old
        ++ declarations (declarations_view declared.now)) }
{
    match declared {
        [] => Ok(()),
        [first, others @ ..] => {
            put_declaration(text, first)?;
            for other in others {
                text.push_str("; ")?;
                put_declaration(text, other)?;
            }
            Ok(())
        }
    }
}

/// `node f(x: int; y: bool) returns (z: int);`
fn put_heading(text: &mut String, node: &Node) -> Result<(), AllocError>
    ensures { IfOk result (λ _. string_bytes text.new ≡ string_bytes text.old
        ++ heading (node_view node.now)) }
{
    write!(text, "node {}(", node.name.as_str())?;
    put_declarations(text, node.inputs.as_slice())?;
    text.push_str(") returns (")?;
    put_declarations(text, node.outputs.as_slice())?;
    text.push_str(");")
}

/// The line `var x: int; y: bool;`, or none.
fn put_locals(text: &mut String, declared: &[Declaration]) -> Result<(), AllocError>
    ensures { IfOk result (λ _. string_bytes text.new ≡ string_bytes text.old
        ++ locals (declarations_view declared.now)) }
{
    if declared.is_empty() {
        return Ok(());
    }
    text.push_str("var ")?;
    put_declarations(text, declared)?;
    text.push_str(";\n")
}

/// `x, y`
fn put_names(text: &mut String, names: &[Name]) -> Result<(), AllocError>
    ensures { IfOk result (λ _. string_bytes text.new ≡ string_bytes text.old
        ++ joined (codes ", ") (λ x. x) names.now) }
{
    match names {
        [] => Ok(()),
        [first, others @ ..] => {
            text.push_str(first.as_str())?;
            for other in others {
                text.push_str(", ")?;
                text.push_str(other.as_str())?;
            }
            Ok(())
        }
    }
}

/// `x`, or `(x, y)`
fn put_left(text: &mut String, names: &[Name]) -> Result<(), AllocError>
    ensures { IfOk result (λ _. string_bytes text.new ≡ string_bytes text.old
        ++ left_side names.now) }
{
    match names {
        [name] => text.push_str(name.as_str()),
        _ => {
            text.push('(')?;
            put_names(text, names)?;
            text.push(')')
        }
    }
}

/// The line `  x = e;`
fn put_equation(text: &mut String, defined: &Equation) -> Result<(), AllocError>
    ensures { IfOk result (λ _. string_bytes text.new ≡ string_bytes text.old
        ++ equation (equation_view defined.now)) }
{
    text.push_str("  ")?;
    put_left(text, defined.left.as_slice())?;
    text.push_str(" = ")?;
    put_expr(text, &defined.right)?;
    text.push_str(";\n")
}

fn put_equations(text: &mut String, equations: &[Equation]) -> Result<(), AllocError>
    ensures { IfOk result (λ _. string_bytes text.new ≡ string_bytes text.old
        ++ flat_map equation (map equation_view equations.now)) }
{
    for defined in equations {
        put_equation(text, defined)?;
    }
    Ok(())
}

fn put_node(text: &mut String, printed: &Node) -> Result<(), AllocError>
    ensures { IfOk result (λ _. string_bytes text.new ≡ string_bytes text.old
        ++ node (node_view printed.now)) }
{
    put_heading(text, printed)?;
    text.push('\n')?;
    put_locals(text, printed.locals.as_slice())?;
    text.push_str("let\n")?;
    put_equations(text, printed.equations.as_slice())?;
    text.push_str("tel\n")
}

fn put_nodes(text: &mut String, nodes: &[Node]) -> Result<(), AllocError>
    ensures { IfOk result (λ _. string_bytes text.new ≡ string_bytes text.old
        ++ flat_map node (map node_view nodes.now)) }
{
    for printed in nodes {
        put_node(text, printed)?;
    }
    Ok(())
}

/// `A, B`
fn put_enumeration(text: &mut String, names: &[DeclaredName]) -> Result<(), AllocError>
    ensures { IfOk result (λ _. string_bytes text.new ≡ string_bytes text.old
        ++ joined (codes ", ") (λ x. x) (map (λ x. x.name) names.now)) }
{
    match names {
        [] => Ok(()),
        [first, others @ ..] => {
            text.push_str(first.name.as_str())?;
            for other in others {
                text.push_str(", ")?;
                text.push_str(other.name.as_str())?;
            }
            Ok(())
        }
    }
}

/// The line `type t = enum { A, B };`
fn put_type_declaration(text: &mut String, printed: &TypeDeclaration) -> Result<(), AllocError>
    ensures { IfOk result (λ _. string_bytes text.new ≡ string_bytes text.old
        ++ type_declaration (type_view printed.now)) }
{
    text.push_str("type ")?;
    text.push_str(printed.name.as_str())?;
    text.push_str(" = enum { ")?;
    put_enumeration(text, printed.names.as_slice())?;
    text.push_str(" };\n")
}

fn put_types(text: &mut String, types: &[TypeDeclaration]) -> Result<(), AllocError>
    ensures { IfOk result (λ _. string_bytes text.new ≡ string_bytes text.old
        ++ flat_map type_declaration (map type_view types.now)) }
{
    for printed in types {
        put_type_declaration(text, printed)?;
    }
    Ok(())
}

/// The canonical text of a program, in ASCII where its names are. It fails only where memory runs out. The
/// expressions of the program are gone into by recursion, so the stack has to hold as many calls as they are
/// nested.
pub fn print_program(alloc: Global, program: &Program) -> Result<String, AllocError>
    ensures canonical { IfOk result (λ text. string_bytes text
        ≡ canonical (program_view program.now)) }
{
    let mut text = String::new(alloc);
    put_types(&mut text, program.types.as_slice())?;
    put_nodes(&mut text, program.nodes.as_slice())?;
    Ok(text)
}
