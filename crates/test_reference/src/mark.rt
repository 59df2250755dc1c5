//! Marks: what a flow has at an instant.

ghost use Rattle.std.specs.Prelude.{◌≡◌, map};
ghost use Rattle.test_reference.specs.AsMark.{as_mark};

use lubase::Row;
use luflow::Status;
use std::marker::Model;

/// What a flow has at an instant: a status, or nothing where a fault has reached it.
#[derive(Clone, Copy, Drop, PartialEq, Eq)]
pub enum Mark {
    Known(Status),
    Broken,
}

/// What one flow has at the first instants, in order. A contract sees the list of the marks of `luflow`.
#[derive(Drop)]
pub struct Marks {
    marks: Row<Mark>,
}

impl Model for Marks {
    ghost use Rattle.std.specs.Prelude.{List, map};
    ghost use Rattle.luflow.specs.Streams.{Mark as FlowMark};
    ghost use Rattle.test_reference.specs.AsMark.{as_mark};

    ghost Value = { List FlowMark };

    ghost view = { λ a. map as_mark a.marks };
}

impl Marks {
    /// The marks of a vector.
    pub(crate) fn new(marks: Vec<Mark>) -> Marks
        ensures { result ≡ map as_mark marks.items }
    {
        Marks {
            marks: Row::new(marks),
        }
    }

    /// The marks, by instant. Takes no memory.
    pub fn as_slice(&self) -> &[Mark]
        ensures { map as_mark result.now ≡ self.now }
    {
        self.marks.as_slice()
    }
}
