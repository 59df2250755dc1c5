//! A site's flows, in the order in which it goes through them at each instant.

use lueval_lines::OrderedLines;

/// The flows of a site, in order.
#[derive(Drop)]
pub struct OrderedFlows {
    /// Their lines, each with its number in place of its place; so are its operands and its clock's variable.
    pub lines: OrderedLines,
    /// The places of the flows, by number.
    pub places: Vec<usize>,
    /// The numbers of the flows, by place.
    pub numbers: Vec<u16>,
    /// The numbers of the flows whose last values are kept.
    pub kept: Vec<usize>,
    /// How many of the first flows are constants of the base clock. They are worked out at the first instant
    /// alone.
    pub fixed: usize,
    /// Of each main output, in order of declaration, the number of its flow where the site is its home.
    pub reported: Vec<Option<usize>>,
}
