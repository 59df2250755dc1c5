//! The files of a call, by what they are to it.

ghost use Rattle.std.specs.Prelude.{◌≡◌};
ghost use Rattle.lusdist_call.specs.Mistakes.{role_text};

use std::fmt;

/// What a file is to a call.
#[derive(Clone, Copy, Debug, Drop, PartialEq, Eq)]
pub enum Role {
    /// The program.
    Program,
    /// The placement.
    Place,
    /// The table of inputs.
    Table,
    /// The turns of a replay.
    Schedule,
}

impl Role {
    /// The name of such a file in the help of the commands.
    pub fn name(self) -> &'static str
        ensures { result.now ≡ role_text self }
    {
        match self {
            Role::Program => "PROGRAM",
            Role::Place => "PLACE",
            Role::Table => "TABLE",
            Role::Schedule => "SCHEDULE",
        }
    }
}

impl fmt::Display for Role {
    ghost use Rattle.std.specs.Prelude.{Some};
    ghost use Rattle.lusdist_call.specs.Mistakes.{role_text};

    ghost output = { λ role. Some (role_text role) };

    fn fmt<W: fmt::Write>(&self, f: &mut fmt::Formatter<W>) -> fmt::Result {
        let name = self.name();
        write!(f, "{name}")
    }
}
