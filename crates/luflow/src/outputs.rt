//! The table of a program's outputs.

ghost use Rattle.std.specs.Prelude.{◌≡◌, ◌↔◌, All, IfSome, IsSome, IsTrue, length};
ghost use Rattle.luflow.specs.Tables.{AreOutputs, outputs_view};

use crate::data::Status;
use std::marker::Model;

/// What the outputs of the main node have at each instant: for each output, in order of declaration, a name
/// and a status for each instant. There is one output at least, and all have the same number of instants. A
/// contract sees the list of `OutputColumn` of `specs/Tables.antt`.
#[derive(Debug)]
pub struct Outputs {
    columns: Vec<(String, Vec<Status>)>,
}

// By hand, so that it is proved here alone, and not in each crate that owns one.
impl Drop for Outputs {
    fn drop(self) {
        let Self { columns: _ } = self;
    }
}

impl Model for Outputs {
    ghost use Rattle.std.specs.Prelude.{List};
    ghost use Rattle.luflow.specs.Tables.{OutputColumn, AreOutputs, outputs_view};

    ghost Value = { List OutputColumn };

    ghost view = { λ a. outputs_view a.columns.items };

    ghost invariant = { λ a. AreOutputs (outputs_view a.columns.items) };
}

fn are_long(columns: &[(String, Vec<Status>)], instants: usize) -> bool
    ensures { IsTrue result ↔ All (λ x. length x.1.items ≡ instants) columns.now }
{
    columns.iter().all(|column| column.1.len() == instants)
}

fn instants_of(column: &(String, Vec<Status>)) -> usize
    ensures { result ≡ length column.now.1.items }
{
    column.1.len()
}

fn are_outputs(columns: &[(String, Vec<Status>)]) -> bool
    ensures { IsTrue result ↔ AreOutputs (outputs_view columns.now) }
{
    if columns.is_empty() {
        return false;
    }
    are_long(columns, instants_of(&columns[0]))
}

impl Outputs {
    /// These outputs. None exactly without a column, or where two lengths differ. Takes no memory.
    pub fn new(columns: Vec<(String, Vec<Status>)>) -> Option<Outputs>
        ensures when { IsSome result ↔ AreOutputs (outputs_view columns.items) }
        ensures outputs { IfSome result (λ x. x ≡ outputs_view columns.items) }
    {
        if are_outputs(&columns) {
            Some(Outputs { columns })
        } else {
            None
        }
    }

    /// The names and statuses, in order of declaration. Takes no memory.
    pub fn columns(&self) -> &[(String, Vec<Status>)]
        ensures columns { outputs_view result.now ≡ self.now }
        ensures outputs { AreOutputs self.now }
    {
        self.columns.as_slice()
    }
}
