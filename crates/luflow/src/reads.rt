//! What a flow reads, one after the other.

ghost use Rattle.std.specs.Prelude.{◌≡◌, ◌∷◌, slice_get};
ghost use Rattle.luflow.specs.Program.{clock_reads, places};

use crate::form::{Clock, Form};

fn number_of(list: &[usize], k: usize) -> Option<usize>
    ensures { result ≡ slice_get list.now k }
{
    list.get(k).copied()
}

/// Number k, from 0 on, of a place and those behind it.
fn behind(a: usize, rest: &[usize], k: usize) -> Option<usize>
    ensures { result ≡ slice_get (a ∷ rest.now) k }
{
    if k == 0 {
        return Some(a);
    }
    number_of(rest, k - 1)
}

impl Form {
    /// Operand k of a flow of this form, from 0 on; that of a `pre` too, and of a merge its clock variable
    /// and then its branches. None behind the last. Takes no memory.
    pub fn operand(&self, k: usize) -> Option<usize>
        ensures { result ≡ slice_get (places self.now) k }
    {
        match self {
            Form::Input(_) => None,
            Form::Constant(_) => None,
            Form::Copied(a) => behind(*a, &[], k),
            Form::Unary(_, a) => behind(*a, &[], k),
            Form::Binary(_, a, b) => behind(*a, &[*b], k),
            Form::If(c, a, b) => behind(*c, &[*a, *b], k),
            Form::Pre(a) => behind(*a, &[], k),
            Form::Arrow(a, b) => behind(*a, &[*b], k),
            Form::When(a) => behind(*a, &[], k),
            Form::Current(a) => behind(*a, &[], k),
            Form::Merge(c, branches) => behind(*c, branches.as_slice(), k),
        }
    }
}

impl Clock {
    /// The variable of the clock; none of the base clock. Takes no memory.
    pub fn variable(self) -> Option<usize>
        ensures { result ≡ slice_get (clock_reads self) 0 }
    {
        match self {
            Clock::Base => None,
            Clock::On(c, _) => Some(c),
        }
    }
}
