//! Why a call stops.

ghost use Rattle.std.specs.Prelude.{◌≡◌};
ghost use Rattle.lusdist_call.specs.Statuses.{status_of};

use crate::mistake::Mistake;
use lubase::Name;
use lucore::CoreError;
use luflow::FaultKind;
use luplace_file::PlaceError;
use lusdist_shell::ScheduleError;
use lustat_rules::StatError;
use lusyn::SynError;
use lutab::TabError;
use std::alloc::AllocError;
use std::fmt;
use thiserror::Error;

/// Why a call stops before it prints anything. What it displays is the line that goes to the error stream,
/// with no line feed.
#[derive(Debug, Drop, Error)]
pub enum CallError {
    /// The file of this path can't be read.
    CannotRead {
        path: Name,
    },
    /// The file of this path can't be written.
    CannotWrite {
        path: Name,
    },
    /// The program isn't even UTF-8.
    NotAscii,
    /// The text of the program spells none.
    Syntax(SynError),
    /// The program breaks a rule.
    Rules(StatError),
    /// The program has no flat program.
    Flat(CoreError),
    /// The placement is refused.
    Place(PlaceError),
    /// The input table is refused.
    Table(TabError),
    /// The schedule is refused.
    Schedule(ScheduleError),
    /// An operator in the equation of this main variable has no value at this instant, counted from 0.
    Fault {
        variable: Name,
        instant: u32,
        kind: FaultKind,
    },
    /// Memory ran out.
    OutOfMemory,
    /// A site of a run was left before the end of its script, and none faulted.
    LinkLost,
    /// A thread of a run was refused.
    NoThread,
    /// The words are wrong, though the command line takes them.
    Mistaken(Mistake),
}

impl fmt::Display for CallError {
    ghost use Rattle.std.specs.Prelude.{Some};
    ghost use Rattle.lusdist_call.specs.Lines.{line_of};

    ghost output = { λ stop. Some (line_of stop) };

    fn fmt<W: fmt::Write>(&self, f: &mut fmt::Formatter<W>) -> fmt::Result {
        match self {
            CallError::CannotRead { path } => write!(f, "F01 CannotRead {}", path.as_str()),
            CallError::CannotWrite { path } => write!(f, "F02 CannotWrite {}", path.as_str()),
            CallError::NotAscii => f.write_str("E03 NotAscii"),
            CallError::Syntax(refusal) => write!(f, "{refusal}"),
            CallError::Rules(refusal) => write!(f, "{refusal}"),
            CallError::Flat(refusal) => write!(f, "{refusal}"),
            CallError::Place(refusal) => write!(f, "{refusal}"),
            CallError::Table(refusal) => write!(f, "{refusal}"),
            CallError::Schedule(refusal) => write!(f, "{refusal}"),
            CallError::Fault {
                variable,
                instant,
                kind,
            } => write!(f, "R1 Fault {} {instant} {kind}", variable.as_str()),
            CallError::OutOfMemory => f.write_str("R2 OutOfMemory"),
            CallError::LinkLost => f.write_str("R3 LinkLost"),
            CallError::NoThread => f.write_str("R4 NoThread"),
            CallError::Mistaken(mistake) => write!(f, "{mistake}"),
        }
    }
}

impl From<AllocError> for CallError {
    ghost use Rattle.std.specs.Prelude.{◌≡◌};
    ghost use Rattle.lusdist_call.specs.declared.call_error.CallError.TheVariants.{OutOfMemory};

    ghost from_gives = { λ _ e. e ≡ OutOfMemory };

    fn from(_error: AllocError) -> Self {
        CallError::OutOfMemory
    }
}

impl CallError {
    /// The exit status: 1 where a text is refused, 2 where the words are wrong or a file can't be read, 3
    /// where an evaluation or a run is a fault, a dump can't be written, a run was cut short or memory ran
    /// out.
    pub fn status(&self) -> u8
        ensures { result ≡ status_of self.now }
    {
        match self {
            CallError::CannotRead { .. } | CallError::Mistaken(_) => 2,
            CallError::Syntax(SynError::OutOfMemory)
            | CallError::Rules(StatError::OutOfMemory)
            | CallError::Flat(CoreError::OutOfMemory)
            | CallError::Place(PlaceError::OutOfMemory)
            | CallError::Table(TabError::OutOfMemory)
            | CallError::Schedule(ScheduleError::OutOfMemory)
            | CallError::CannotWrite { .. }
            | CallError::Fault { .. }
            | CallError::OutOfMemory
            | CallError::LinkLost
            | CallError::NoThread => 3,
            _ => 1,
        }
    }
}
