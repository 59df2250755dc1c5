//! Why the static checks refuse a program.

ghost use Rattle.std.specs.Prelude.{◌≡◌};
ghost use Rattle.lustat_rules.specs.declared.error.StatError.TheVariants.{OutOfMemory};
ghost use Rattle.lustat_rules.specs.Reported.{byte_of, number_of};

use std::alloc::{AllocError, AllocFailed};
use std::fmt;
use thiserror::Error;

/// Why the static checks refuse a program. What it displays is the line that the program prints. A byte is a
/// place in the text, counted from 0.
#[derive(Clone, Copy, Debug, PartialEq, Eq, Error)]
pub enum StatError {
    /// Two types, two names of enumerations, two nodes, or two variables of a node, have one name, or a
    /// variable has that of a name of an enumeration. Reported at the later name, or at the variable.
    DuplicateName { byte: usize },
    /// A name is no variable of the node, no type, or no name of an enumeration. Reported at the equation, or
    /// at the variable whose type or clock it is.
    UnknownName { byte: usize },
    /// A call is of no node. Reported at the equation.
    UnknownNode { byte: usize },
    /// An equation whose names, calls, arities and merges are in order is ill typed. Reported at the
    /// equation.
    TypeMismatch { byte: usize },
    /// A call has another number of arguments, or of outputs, than it needs. Reported at the equation.
    WrongArity { byte: usize },
    /// An output or a local has no equation. Reported at its declaration.
    Undefined { byte: usize },
    /// An equation defines a variable that another one defines, one twice, or an input. Reported at the later
    /// equation.
    DefinedTwice { byte: usize },
    /// A node reaches itself by calls. Reported at its name.
    RecursiveNode { byte: usize },
    /// No node has the name of the main node.
    NoMain,
    /// The branches of a merge aren't those of its variable's type. Reported at the equation.
    BadMerge { byte: usize },
    /// A right side doesn't fit the clock of what it defines. Reported at the equation.
    ClockMismatch { byte: usize },
    /// The variable of a clock or of a merge isn't of its type, or its chain of clocks doesn't end. Reported
    /// at the equation or the declaration.
    NotAClock { byte: usize },
    /// A parameter has a clock where it may have none. Reported at its declaration, or at the equation that
    /// calls.
    ClockedParameter { byte: usize },
    /// An output of the main node has a clock that a local names. Reported at its declaration.
    HiddenClock { byte: usize },
    /// A value may be missing where it is needed. Reported at the equation with the operand that may be
    /// missing, or that defines the output or the variable that a clock names.
    MaybeNil { byte: usize },
    /// `current` of a variable whose clock may be false at first. Reported at the equation.
    CurrentMayBeNil { byte: usize },
    /// Memory ran out, which says nothing of the program.
    OutOfMemory,
}

impl fmt::Display for StatError {
    ghost use Rattle.std.specs.Prelude.{Some};
    ghost use Rattle.lustat_rules.specs.Lines.{line_of};

    ghost output = { λ e. Some (line_of e) };

    fn fmt<W: fmt::Write>(&self, f: &mut fmt::Formatter<W>) -> fmt::Result {
        match self {
            StatError::DuplicateName { byte } => write!(f, "E10 DuplicateName at {byte}"),
            StatError::UnknownName { byte } => write!(f, "E11 UnknownName at {byte}"),
            StatError::UnknownNode { byte } => write!(f, "E12 UnknownNode at {byte}"),
            StatError::TypeMismatch { byte } => write!(f, "E13 TypeMismatch at {byte}"),
            StatError::WrongArity { byte } => write!(f, "E14 WrongArity at {byte}"),
            StatError::Undefined { byte } => write!(f, "E15 Undefined at {byte}"),
            StatError::DefinedTwice { byte } => write!(f, "E16 DefinedTwice at {byte}"),
            StatError::RecursiveNode { byte } => write!(f, "E17 RecursiveNode at {byte}"),
            StatError::NoMain => f.write_str("E18 NoMain at 0"),
            StatError::BadMerge { byte } => write!(f, "E19 BadMerge at {byte}"),
            StatError::ClockMismatch { byte } => write!(f, "E20 ClockMismatch at {byte}"),
            StatError::NotAClock { byte } => write!(f, "E21 NotAClock at {byte}"),
            StatError::ClockedParameter { byte } => write!(f, "E22 ClockedParameter at {byte}"),
            StatError::HiddenClock { byte } => write!(f, "E23 HiddenClock at {byte}"),
            StatError::MaybeNil { byte } => write!(f, "E30 MaybeNil at {byte}"),
            StatError::CurrentMayBeNil { byte } => write!(f, "E31 CurrentMayBeNil at {byte}"),
            StatError::OutOfMemory => f.write_str("R2 OutOfMemory"),
        }
    }
}

impl StatError {
    /// The place of the fault; 0 where there is none.
    pub fn byte(&self) -> usize
        ensures { result ≡ byte_of self.now }
    {
        match self {
            StatError::DuplicateName { byte }
            | StatError::UnknownName { byte }
            | StatError::UnknownNode { byte }
            | StatError::TypeMismatch { byte }
            | StatError::WrongArity { byte }
            | StatError::Undefined { byte }
            | StatError::DefinedTwice { byte }
            | StatError::RecursiveNode { byte }
            | StatError::BadMerge { byte }
            | StatError::ClockMismatch { byte }
            | StatError::NotAClock { byte }
            | StatError::ClockedParameter { byte }
            | StatError::HiddenClock { byte }
            | StatError::MaybeNil { byte }
            | StatError::CurrentMayBeNil { byte } => *byte,
            StatError::NoMain | StatError::OutOfMemory => 0,
        }
    }

    /// The number of the rule; 0 where no rule is reported.
    pub fn number(&self) -> u8
        ensures { result ≡ number_of self.now }
    {
        match self {
            StatError::DuplicateName { .. } => 10,
            StatError::UnknownName { .. } => 11,
            StatError::UnknownNode { .. } => 12,
            StatError::TypeMismatch { .. } => 13,
            StatError::WrongArity { .. } => 14,
            StatError::Undefined { .. } => 15,
            StatError::DefinedTwice { .. } => 16,
            StatError::RecursiveNode { .. } => 17,
            StatError::NoMain => 18,
            StatError::BadMerge { .. } => 19,
            StatError::ClockMismatch { .. } => 20,
            StatError::NotAClock { .. } => 21,
            StatError::ClockedParameter { .. } => 22,
            StatError::HiddenClock { .. } => 23,
            StatError::MaybeNil { .. } => 30,
            StatError::CurrentMayBeNil { .. } => 31,
            StatError::OutOfMemory => 0,
        }
    }
}

impl From<AllocError> for StatError {
    ghost from_gives = { λ _ e. e ≡ OutOfMemory };

    fn from(_e: AllocError) -> StatError {
        StatError::OutOfMemory
    }
}

impl<T: Drop> From<AllocFailed<T>> for StatError {
    ghost from_gives = { λ _ e. e ≡ OutOfMemory };

    fn from(_e: AllocFailed<T>) -> StatError {
        StatError::OutOfMemory
    }
}
