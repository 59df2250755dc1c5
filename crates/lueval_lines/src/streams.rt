//! The streams of a program's main variables.

ghost use Rattle.std.specs.Prelude.{◌≡◌, ◌<◌, ◌↔◌, All, IfOk, IfSome, IsSome, length, slice_get, slice_index, Some};
ghost use Rattle.luflow.specs.Variables.{outputs_of};
ghost use Rattle.lueval_lines.specs.Outputs.{columns_in, outputs_in};
ghost use Rattle.lueval_lines.specs.Columns.{lists_of};

use crate::outputs::{taken_columns, taken_outputs};
use luflow::{Flat, Outputs, Status};
use std::alloc::{AllocError, Global};
use std::marker::Model;

/// The streams of a program's main variables. A contract sees, for each main variable, the list of its
/// statuses, one for each instant of the table.
#[derive(Debug)]
pub struct Streams {
    instants: u32,
    columns: Vec<Vec<Status>>,
}

// By hand, so that it is proved here alone, and not in each crate that owns one.
impl Drop for Streams {
    fn drop(self) {
        let Self {
            instants: _,
            columns: _,
        } = self;
    }
}

impl Model for Streams {
    ghost use Rattle.std.specs.Prelude.{List};
    ghost use Rattle.luflow.specs.declared.data.Status.{Status};

    ghost Value = { List (List Status) };

    ghost use Rattle.std.specs.Prelude.{◌≡◌, All, length};
    ghost use Rattle.lueval_lines.specs.Columns.{lists_of};

    ghost view = { λ a. lists_of a.columns.items };

    ghost invariant = { λ a. All (λ x. length x.items ≡ a.instants) a.columns.items };
}

impl Streams {
    /// The streams of these columns, one for each main variable, of so many instants each.
    pub fn new(instants: u32, columns: Vec<Vec<Status>>) -> Streams
        requires { All (λ x. length x.items ≡ instants) columns.items }
        ensures { result ≡ lists_of columns.items }
    {
        Streams { instants, columns }
    }

    /// The status of main variable number `variable` at each instant. Takes no memory.
    pub fn of(&self, variable: usize) -> &[Status]
        requires { variable < length self.now }
        ensures { slice_get self.now variable ≡ Some result.now }
    {
        self.columns[variable].as_slice()
    }

    /// The main outputs of the program, by name, in order of declaration, each with its stream, of which none
    /// is copied. None exactly where the program has no output.
    ///
    /// # Errors
    ///
    /// `AllocError` where memory ran out. The streams are gone then.
    pub fn outputs(self, alloc: Global, flat: &Flat) -> Result<Option<Outputs>, AllocError>
        requires { length self ≡ length flat.now.variables }
        ensures outputs { IfOk result
            (λ o. IfSome o (λ outputs. outputs ≡ outputs_in flat.now.variables self)) }
        ensures when { IfOk result (λ o. IsSome o ↔ (0 < length (outputs_of flat.now.variables))) }
    {
        let Self {
            instants: _,
            columns,
        } = self;
        let outputs = taken_outputs(alloc, flat.variables(), columns)?;
        Ok(Outputs::new(outputs))
    }

    /// All main variables of the program, by name, in order of declaration, each with its stream, of which
    /// none is copied.
    ///
    /// # Errors
    ///
    /// `AllocError` where memory ran out. The streams are gone then.
    pub fn into_columns(self, alloc: Global, flat: &Flat) -> Result<Outputs, AllocError>
        requires count { length self ≡ length flat.now.variables }
        requires some { 0 < length flat.now.variables }
        ensures { IfOk result (λ columns. columns ≡ columns_in flat.now.variables self) }
    {
        let Self {
            instants: _,
            columns,
        } = self;
        let columns = taken_columns(alloc, flat.variables(), columns)?;
        match Outputs::new(columns) {
            Some(columns) => Ok(columns),
            None => unreachable!(),
        }
    }
}
