//! Expressions.

use crate::program::Kind;
use lubase::{Name, Number, Row, SharedName};

/// An operator on data that stands before its one operand.
#[derive(Clone, Copy, PartialEq, Eq)]
pub enum UnaryOperator {
    /// `-`
    Minus,
    /// `not`
    Not,
}

/// An operator on data that stands between its two operands.
#[derive(Clone, Copy, PartialEq, Eq)]
pub enum BinaryOperator {
    /// `+`
    Add,
    /// `-`
    Subtract,
    /// `*`
    Multiply,
    /// `div`
    Divide,
    /// `mod`
    Modulo,
    /// `<`
    Less,
    /// `<=`
    LessEqual,
    /// `>`
    Greater,
    /// `>=`
    GreaterEqual,
    /// `=`
    Equal,
    /// `<>`
    Unequal,
    /// `and`
    And,
    /// `or`
    Or,
    /// `xor`
    Xor,
    /// `=>`
    Implies,
}

/// What stands before an operand.
#[derive(Clone, Copy)]
pub enum Prefix {
    /// An operator on data, applied at each instant.
    Data(UnaryOperator),
    /// `pre`: the value before.
    Pre,
}

/// What stands between two operands.
#[derive(Clone, Copy)]
pub enum Infix {
    /// An operator on data, applied at each instant.
    Data(BinaryOperator),
    /// `->`: the left operand at first, the right one from then on.
    Arrow,
    /// `fby`: the left operand at first, from then on the right one's value before.
    FollowedBy,
}

/// A name of an enumeration, and what it stands for in its program.
pub struct Label {
    pub name: SharedName,
    /// Its type: an enumeration, and one without names where no type of the program has this name.
    pub kind: Kind,
    /// Its number among the names of its type, counted from 0.
    pub number: u8,
}

// By hand, so that it is proved here alone, and not in each crate that owns one.
impl Drop for Label {
    fn drop(self) {
        let Self {
            name: _,
            kind: _,
            number: _,
        } = self;
    }
}

/// The value of a clock's variable at which the clock is true.
pub enum Pattern {
    /// `true` or `false`.
    Truth(bool),
    /// A name of an enumeration.
    Label(Label),
}

// By hand, so that it is proved here alone, and not in each crate that owns one.
impl Drop for Pattern {
    fn drop(self) {
        match self {
            Self::Truth(_) | Self::Label(_) => {}
        }
    }
}

/// A clock: the variable `c` with the pattern `true` is written `c`, with `false` it is written `not c`, and
/// with the name `A` of an enumeration `A(c)`.
pub struct Condition {
    pub variable: SharedName,
    pub pattern: Pattern,
}

// By hand, so that it is proved here alone, and not in each crate that owns one.
impl Drop for Condition {
    fn drop(self) {
        let Self {
            variable: _,
            pattern: _,
        } = self;
    }
}

/// An expression, without the parentheses of its text.
#[derive(Drop)]
pub enum Expr {
    /// A number.
    Number(Number),
    /// `true` or `false`.
    Truth(bool),
    /// A name of an enumeration, as a constant.
    Label(Label),
    /// A variable.
    Variable(Name),
    /// An operand after what stands before it.
    Unary(Prefix, Box<Expr>),
    /// Two operands and what stands between them.
    Binary(Infix, Box<Expr>, Box<Expr>),
    /// `if a then b else c`
    If(Box<Expr>, Box<Expr>, Box<Expr>),
    /// `e when c`, `e when not c` or `e when A(c)`
    When(Box<Expr>, Condition),
    /// `current v`
    Current(Name),
    /// `merge c (true -> a) (false -> b)` or `merge c (A -> a) (B -> b) (C -> d)`: the variable, the patterns
    /// of its branches and as many branches. The patterns lie apart, so that no expression takes more memory
    /// for them.
    Merge(SharedName, Box<Row<Pattern>>, Vec<Expr>),
    /// `f(a, b)`
    Call(Name, Vec<Expr>),
}
