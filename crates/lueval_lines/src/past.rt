//! What the definitions of a machine keep of a flow.

use luflow::Datum;

/// What is kept of a flow from the instants before: its last value, whether its clock was true, and how often
/// it was present. Contracts speak of it; a machine keeps a cell and a count in its place.
#[derive(Clone, Copy, Drop)]
pub struct Past {
    /// The last present value, nil before the first.
    pub last: Datum,
    /// Whether the clock was true before.
    pub ticked: bool,
    /// At how many instants the flow was present.
    pub count: u32,
}
