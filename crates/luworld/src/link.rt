//! Links.

/// A link: it carries the present values of a main variable from one site to another.
#[derive(Clone, Copy, Debug, Drop, PartialEq, Eq)]
pub struct Link {
    /// The number of the main variable, which is the place of its flow.
    pub flow: usize,
    /// The site that sends.
    pub from: u8,
    /// The site that receives.
    pub to: u8,
}
