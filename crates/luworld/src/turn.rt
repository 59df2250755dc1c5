//! Turns.

/// What one turn of a site does, or a part of one.
#[derive(Clone, Copy, Debug, Drop, PartialEq, Eq)]
pub enum Turn {
    /// The site did something: its next item, a computation, a put or a take, or several of them.
    Moved,
    /// The next item is a put into a full link, or a take from an empty one. Nothing has changed.
    Blocked,
    /// The site has ended or faulted, or can't go on, or there is no such site. Nothing has changed.
    Over,
}
