//! Items of scripts.

/// What a site does next.
#[derive(Clone, Copy, Drop, PartialEq, Eq)]
pub enum Item {
    /// Computes a flow at an instant.
    Compute { flow: usize, instant: u32 },
    /// Puts the next message of a link.
    Put { link: usize },
    /// Takes the next message of a link.
    Take { link: usize },
}
