//! A warning, as plain data.

/// What a warning says.
#[derive(Clone, Copy, Debug, PartialEq, Eq)]
pub enum WarningKind {
    /// No equation calls a node, and it isn't the main node.
    UnusedNode,
    /// A node doesn't read an input.
    UnusedInput,
    /// A node doesn't read a local variable.
    UnusedLocal,
    /// An equation has an `if` with a `div` or a `mod` in one of its two branches, which are both computed at
    /// each instant.
    DividingBranch,
}

/// A warning of a program.
#[derive(Clone, Copy, Debug, PartialEq, Eq)]
pub struct Warning {
    pub kind: WarningKind,
    /// The node's number among the nodes, counted from 0.
    pub node: usize,
    /// The number of the input among the node's inputs, of the variable among its locals, or of the equation
    /// among its equations, counted from 0; 0 where the node itself is meant.
    pub number: usize,
    /// The place of the first byte of the node's name, of the variable's name, or of the equation, counted
    /// from 0.
    pub byte: usize,
}
