//! What a link carries.

use crate::data::Datum;

/// What a message says.
#[derive(Clone, Copy, Debug, Drop, PartialEq, Eq)]
pub enum Body {
    /// A present value of the link's flow.
    Value(Datum),
    /// There are no more values.
    Close,
}

/// Message `no` of a link, counted from 0.
#[derive(Clone, Copy, Debug, Drop, PartialEq, Eq)]
pub struct Msg {
    pub no: u32,
    pub body: Body,
}
