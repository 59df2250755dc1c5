//! Programs, their nodes, declarations and equations.

use crate::expr::{Condition, Expr};
use lubase::{Name, Row, SharedName};

/// The type of a variable.
#[derive(Clone, Copy, Debug, PartialEq, Eq)]
pub enum Kind {
    /// `int`: a whole number of 64 bits with a sign.
    Int,
    /// `bool`
    Bool,
    /// The enumeration of this place among the program's types, with so many names.
    Enum(u8, u8),
}

/// A name of an enumeration where it is declared.
#[derive(Drop)]
pub struct DeclaredName {
    pub name: Name,
    /// The place of the name's first byte in the text, counted from 0.
    pub byte: usize,
}

/// `type t = enum { A, B };`
pub struct TypeDeclaration {
    pub name: Name,
    /// The place of the name's first byte in the text, counted from 0.
    pub byte: usize,
    /// The names of the enumeration, in order of text.
    pub names: Row<DeclaredName>,
}

// By hand, so that it is proved here alone, and not in each crate that owns one.
impl Drop for TypeDeclaration {
    fn drop(self) {
        let Self {
            name: _,
            byte: _,
            names: _,
        } = self;
    }
}

/// One declared variable. A text that declares several names at once has as many declarations.
pub struct Declaration {
    pub name: Name,
    /// Its type; an enumeration without names where its type has a name that no type of the program has.
    pub kind: Kind,
    /// How its type is written where that is the name of an enumeration. All names that are declared at once
    /// share it.
    pub type_name: Option<SharedName>,
    /// The declared clock; none is the node's base clock. All names that are declared at once share its
    /// names.
    pub clock: Option<Condition>,
    /// The place of the name's first byte in the text, counted from 0.
    pub byte: usize,
}

// By hand, so that it is proved here alone, and not in each crate that owns one.
impl Drop for Declaration {
    fn drop(self) {
        let Self {
            name: _,
            kind: _,
            type_name: _,
            clock: _,
            byte: _,
        } = self;
    }
}

/// One equation.
pub struct Equation {
    /// The defined variables: one, or several where the right side is a call with as many outputs.
    pub left: Row<Name>,
    pub right: Expr,
    /// The place of the equation's first byte in the text, counted from 0.
    pub byte: usize,
}

// By hand, so that it is proved here alone, and not in each crate that owns one.
impl Drop for Equation {
    fn drop(self) {
        let Self {
            left: _,
            right: _,
            byte: _,
        } = self;
    }
}

/// One node.
pub struct Node {
    pub name: Name,
    /// The place of the name's first byte in the text, counted from 0.
    pub byte: usize,
    pub inputs: Row<Declaration>,
    pub outputs: Row<Declaration>,
    pub locals: Row<Declaration>,
    pub equations: Row<Equation>,
}

// By hand, so that it is proved here alone, and not in each crate that owns one.
impl Drop for Node {
    fn drop(self) {
        let Self {
            name: _,
            byte: _,
            inputs: _,
            outputs: _,
            locals: _,
            equations: _,
        } = self;
    }
}

/// A program: its types and its nodes, each in order of text.
#[derive(Drop)]
pub struct Program {
    pub types: Row<TypeDeclaration>,
    pub nodes: Row<Node>,
}
