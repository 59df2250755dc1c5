//! The variables of the main node.

ghost use Rattle.std.specs.Prelude.{◌≡◌, length};
ghost use Rattle.luflow.specs.Types.{name_of, names_of};
ghost use Rattle.luflow.specs.Variables.{is_input, is_output, inputs_of};

use lubase::{Name, Row};
use lutree::Kind;

/// How a variable stands in its node.
#[derive(Clone, Copy, Debug, Drop, PartialEq, Eq)]
pub enum Role {
    Input,
    Output,
    Local,
}

impl Role {
    /// Whether a variable of this role is an output.
    pub fn is_output(self) -> bool
        ensures { result ≡ is_output self }
    {
        match self {
            Role::Output => true,
            Role::Input | Role::Local => false,
        }
    }
}

/// An enumeration of the program.
pub struct Enum {
    pub name: Name,
    /// Its names, in order of declaration.
    pub names: Row<Name>,
}

// By hand, so that it is proved here alone, and not in each crate that owns one.
impl Drop for Enum {
    fn drop(self) {
        let Self { name: _, names: _ } = self;
    }
}

/// The names of a type of a program with these types, in order of declaration; none where it is no
/// enumeration.
pub fn names_of(types: &[Enum], kind: Kind) -> &[Name]
    ensures { result.now ≡ names_of types.now kind }
{
    match kind {
        Kind::Enum(place, _) => match types.get(place as usize) {
            Some(found) => found.names.as_slice(),
            None => &[],
        },
        Kind::Int | Kind::Bool => &[],
    }
}

/// The name of this number among those of a type; the empty text where there is none.
pub fn name_of(names: &[Name], number: u8) -> &str
    ensures { result.now ≡ name_of names.now number }
{
    match names.get(number as usize) {
        Some(name) => name.as_str(),
        None => "",
    }
}

/// A variable of the main node.
#[derive(Debug)]
pub struct Variable {
    pub name: Name,
    pub role: Role,
    /// The type of its values.
    pub kind: Kind,
}

// By hand, so that it is proved here alone, and not in each crate that owns one.
impl Drop for Variable {
    fn drop(self) {
        let Self {
            name: _,
            role: _,
            kind: _,
        } = self;
    }
}

/// Whether a variable of this role is an input.
fn is_input(role: Role) -> bool
    ensures { result ≡ is_input role }
{
    match role {
        Role::Input => true,
        Role::Output | Role::Local => false,
    }
}

/// How many of the variables are inputs.
pub fn inputs_among(variables: &[Variable]) -> usize
    ensures { result ≡ length (inputs_of variables.now) }
{
    variables.iter().filter(|x| is_input(x.role)).count()
}
