//! The table of a program's inputs.

ghost use Rattle.std.specs.Prelude.{◌≡◌, ◌↔◌, All, IfSome, IsSome, IsTrue, length, string_bytes};
ghost use Rattle.luflow.specs.declared.data.Datum.TheVariants.{Int, Bool, Name};
ghost use Rattle.luflow.specs.Packed.{data_in};
ghost use Rattle.luflow.specs.Sound.{IsConstantOf, IsFit};
ghost use Rattle.luflow.specs.Tables.{IsTable, AreColumnsOf, FitsProgram, columns_view};

use crate::data::Datum;
use crate::flat::Flat;
use crate::values::Values;
use crate::variable::Variable;
use lubase::limits::MOST_INSTANTS;
use lutree::Kind;
use std::marker::Model;

/// The table of the main node's inputs: the number of instants, and for each input, in order of declaration,
/// a name and a value for each instant. A contract sees the `InputsView` of `specs/Program.antt`.
#[derive(Debug)]
pub struct Inputs {
    instants: u32,
    columns: Vec<(String, Values)>,
}

// By hand, so that it is proved here alone, and not in each crate that owns one.
impl Drop for Inputs {
    fn drop(self) {
        let Self {
            instants: _,
            columns: _,
        } = self;
    }
}

impl Model for Inputs {
    ghost use Rattle.luflow.specs.Program.{InputsView};

    ghost Value = { InputsView };

    ghost use Rattle.luflow.specs.Tables.{columns_view, IsTable};

    ghost view = { λ a. record { instants = a.instants; columns = columns_view a.columns.items } };

    ghost invariant = { λ a. IsTable
        (record { instants = a.instants; columns = columns_view a.columns.items }) };
}

fn are_long(columns: &[(String, Values)], instants: u32) -> bool
    ensures { IsTrue result ↔ All (λ x. length (data_in x.1) ≡ instants) columns.now }
{
    columns
        .iter()
        .all(|column| column.1.len() == instants as usize)
}

fn is_table(instants: u32, columns: &[(String, Values)]) -> bool
    ensures { IsTrue result ↔ IsTable (record {
      instants = instants;
      columns = columns_view
          columns.now;
    }) }
{
    instants <= MOST_INSTANTS && are_long(columns, instants)
}

/// Whether a datum has a type, and isn't nil.
fn is_constant_of(kind: Kind, datum: Datum) -> bool
    ensures { IsTrue result ↔ IsConstantOf kind datum }
{
    match (kind, datum) {
        (Kind::Int, Datum::Int(_)) => true,
        (Kind::Bool, Datum::Bool(_)) => true,
        (Kind::Enum(_, size), Datum::Name(number)) => number < size,
        _ => false,
    }
}

fn are_numbers(kind: Kind, numbers: &[i64]) -> bool
    ensures { IsTrue result ↔ All (λ z. IsConstantOf kind (Int z)) numbers.now }
{
    numbers.iter().all(|z| is_constant_of(kind, Datum::Int(*z)))
}

fn are_truths(kind: Kind, truths: &[bool]) -> bool
    ensures { IsTrue result ↔ All (λ b. IsConstantOf kind (Bool b)) truths.now }
{
    truths.iter().all(|b| is_constant_of(kind, Datum::Bool(*b)))
}

fn are_names(kind: Kind, names: &[u8]) -> bool
    ensures { IsTrue result ↔ All (λ k. IsConstantOf kind (Name k)) names.now }
{
    names.iter().all(|k| is_constant_of(kind, Datum::Name(*k)))
}

/// Whether all values have a type, and aren't nil.
fn are_constants_of(kind: Kind, values: &Values) -> bool
    ensures { IsTrue result ↔ All (λ d. IsConstantOf kind d) (data_in values.now) }
{
    match values {
        Values::Numbers(numbers) => are_numbers(kind, numbers),
        Values::Truths(truths) => are_truths(kind, truths),
        Values::Names(names) => are_names(kind, names),
        Values::Mixed(mixed) => mixed.iter().all(|d| is_constant_of(kind, *d)),
    }
}

fn is_column_of(x: &Variable, column: &(String, Values)) -> bool
    ensures { IsTrue result ↔ ((string_bytes column.now.0 ≡ x.now.name)
        × All (λ d. IsConstantOf x.now.kind d) (data_in column.now.1)) }
{
    x.name.as_str() == column.0.as_str() && are_constants_of(x.kind, &column.1)
}

fn are_columns_of(variables: &[Variable], columns: &[(String, Values)]) -> bool
    ensures { IsTrue result ↔ AreColumnsOf variables.now (columns_view columns.now) }
{
    if variables.len() != columns.len() {
        return false;
    }
    for i in 0..variables.len() {
        if !is_column_of(&variables[i], &columns[i]) {
            return false;
        }
    }
    true
}

impl Inputs {
    /// The table of these columns. None exactly for more than 1,000,000 instants, or where the length of a
    /// column is not the number of instants. Takes no memory.
    pub fn new(instants: u32, columns: Vec<(String, Values)>) -> Option<Inputs>
        ensures when { IsSome result ↔ IsTable (record {
          instants = instants;
          columns =
              columns_view columns.items;
        }) }
        ensures table { IfSome result (λ x. x ≡ record {
          instants = instants;
          columns =
              columns_view columns.items;
        }) }
    {
        if is_table(instants, &columns) {
            Some(Inputs { instants, columns })
        } else {
            None
        }
    }

    /// Does nothing. A proof has from it that the table isn't too long and that each column has a value for
    /// each instant.
    pub fn recall_invariant(&self)
        ensures { IsTable self.now }
    {
        let _ = &self.instants;
    }

    /// The number of instants, 0 to 1,000,000.
    pub fn instants(&self) -> u32
        ensures instants { result ≡ self.now.instants }
        ensures few { IsTable self.now }
    {
        self.instants
    }

    /// The names and values, in order of declaration.
    pub fn columns(&self) -> &[(String, Values)]
        ensures { columns_view result.now ≡ self.now.columns }
    {
        self.columns.as_slice()
    }
    /// Whether the columns are the program's inputs in order of declaration, each of the input's name and
    /// with a value of its type at each instant; nil is none. Takes no memory; the time grows with the number
    /// of values.
    pub fn fits(&self, flat: &Flat) -> bool
        ensures exact { IsTrue result ↔ FitsProgram flat.now self.now }
        ensures fit { IsTrue result → IsFit flat.now self.now }
    {
        are_columns_of(flat.inputs(), self.columns.as_slice())
    }
}
