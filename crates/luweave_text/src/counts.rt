//! How many turns of a replay moved and were reported.

/// How many turns of a replay have moved, and how many were reported. A chart that says that there are more
/// has a row more.
#[derive(Clone, Copy)]
pub struct Counts {
    pub moved: u64,
    pub shown: usize,
}
