//! What a flow is made of.

ghost use Rattle.std.specs.Prelude.{◌≡◌, IfOk};
ghost use Rattle.luflow.specs.Operators.{kind_text};

use crate::data::Datum;
use lubase::Row;
use lutree::{BinaryOperator, Kind, UnaryOperator};
use std::alloc::{AllocError, Global};
use std::fmt;

/// A clock of a flat program: the base clock, or where the flow of this place is present with this value.
#[derive(Clone, Copy, Debug, Drop, PartialEq, Eq)]
pub enum Clock {
    Base,
    On(usize, Datum),
}

/// What a flow is made of. Operands are places of the flat program; an input has the number of its column.
pub enum Form {
    /// The column of this number in the input table.
    Input(usize),
    /// The same value at each instant of the flow's clock.
    Constant(Datum),
    /// The flow of this place once more.
    Copied(usize),
    /// A data operator with one operand.
    Unary(UnaryOperator, usize),
    /// A data operator with two operands.
    Binary(BinaryOperator, usize, usize),
    /// `if`, with its condition, its value where that is true and where it is false.
    If(usize, usize, usize),
    /// `pre`
    Pre(usize),
    /// `->`
    Arrow(usize, usize),
    /// `when`, whose clock is that of the flow.
    When(usize),
    /// `current`
    Current(usize),
    /// `merge`, with its clock variable and its branches: one for each value of that variable's type, in
    /// their order.
    Merge(usize, Row<usize>),
}

// By hand, so that it is proved here alone, and not in each crate that owns one.
impl Drop for Form {
    fn drop(self) {
        match self {
            Self::Input(_)
            | Self::Constant(_)
            | Self::Copied(_)
            | Self::Unary(_, _)
            | Self::Binary(_, _, _)
            | Self::If(_, _, _)
            | Self::Pre(_)
            | Self::Arrow(_, _)
            | Self::When(_)
            | Self::Current(_)
            | Self::Merge(_, _) => {}
        }
    }
}

/// One flow of a flat program.
pub struct Flow {
    pub form: Form,
    pub clock: Clock,
    /// The type of its values.
    pub kind: Kind,
}

// By hand, so that it is proved here alone, and not in each crate that owns one.
impl Drop for Flow {
    fn drop(self) {
        let Self {
            form: _,
            clock: _,
            kind: _,
        } = self;
    }
}

impl Form {
    /// A copy of the form.
    ///
    /// # Errors
    ///
    /// An error means that memory ran out.
    pub fn copied(&self, alloc: Global) -> Result<Form, AllocError>
        ensures { IfOk result (λ form. form ≡ self.now) }
    {
        Ok(match self {
            Form::Input(column) => Form::Input(*column),
            Form::Constant(datum) => Form::Constant(*datum),
            Form::Copied(a) => Form::Copied(*a),
            Form::Unary(op, a) => Form::Unary(*op, *a),
            Form::Binary(op, a, b) => Form::Binary(*op, *a, *b),
            Form::If(c, a, b) => Form::If(*c, *a, *b),
            Form::Pre(a) => Form::Pre(*a),
            Form::Arrow(a, b) => Form::Arrow(*a, *b),
            Form::When(a) => Form::When(*a),
            Form::Current(a) => Form::Current(*a),
            Form::Merge(c, branches) => {
                let branches = Vec::from_slice(alloc, branches.as_slice())?;
                Form::Merge(*c, Row::new(branches))
            }
        })
    }
}

impl Flow {
    /// A copy of the flow.
    ///
    /// # Errors
    ///
    /// An error means that memory ran out.
    pub fn copied(&self, alloc: Global) -> Result<Flow, AllocError>
        ensures { IfOk result (λ flow. flow ≡ self.now) }
    {
        Ok(Flow {
            form: self.form.copied(alloc)?,
            clock: self.clock,
            kind: self.kind,
        })
    }
}

/// How an operator fails.
#[derive(Clone, Copy, Debug, Drop, PartialEq, Eq)]
pub enum FaultKind {
    /// The result in whole numbers has more than 64 bits.
    Overflow,
    /// `div` or `mod` by zero.
    DivZero,
}

impl FaultKind {
    /// How a fault of this kind is reported.
    pub fn name(self) -> &'static str
        ensures { result.now ≡ kind_text self }
    {
        match self {
            FaultKind::Overflow => "overflow",
            FaultKind::DivZero => "div-zero",
        }
    }
}

impl fmt::Display for FaultKind {
    ghost use Rattle.std.specs.Prelude.{Some};
    ghost use Rattle.luflow.specs.Operators.{kind_text};

    ghost output = { λ kind. Some (kind_text kind) };

    fn fmt<W: fmt::Write>(&self, f: &mut fmt::Formatter<W>) -> fmt::Result {
        let name = self.name();
        write!(f, "{name}")
    }
}

/// What a flow's value is where its clock is true: a datum, a fault of its own operator, or neither, where an
/// operand gives none.
#[derive(Clone, Copy, Drop, PartialEq, Eq)]
pub enum Outcome {
    Gives(Datum),
    Faults(FaultKind),
    Stuck,
}
