//! What a flow carries.

/// A value of a flow.
#[derive(Clone, Copy, Debug, Drop, PartialEq, Eq)]
pub enum Datum {
    /// A whole number of 64 bits with a sign.
    Int(i64),
    /// A truth value.
    Bool(bool),
    /// The name of this number, counted from 0, of an enumeration.
    Name(u8),
    /// The value that a `pre` has at the first instant of its clock.
    Nil,
}

/// A flow at one instant.
#[derive(Clone, Copy, Debug, Drop, PartialEq, Eq)]
pub enum Status {
    /// The flow's clock is false.
    Absent,
    /// The flow's clock is true, and this is its value.
    Present(Datum),
}
