//! How the sites of a run go on.

/// How the sites of a run go on.
#[derive(Clone, Copy, Debug, Drop, PartialEq, Eq)]
pub enum Engine {
    /// In blocks of instants, a flow's row after the other's.
    Rows,
    /// Through their flows once an instant.
    Lists,
    /// Item by item of their scripts, which takes longest. A fault is told.
    Items,
}
