//! What could stand where a text is refused, by how far it has come: said where no habit of another dialect
//! stands there. A hole is filled as in `habits`, with the token before what is refused.

use lusyn_grammar::{Fixed, Lexeme, Token};

/// How far a text has come.
#[derive(Clone, Copy)]
pub(crate) enum State {
    /// Between types and nodes.
    Top,
    /// In a type.
    Type,
    /// In the head of a node, outside of the parentheses of its inputs and outputs, or behind those of its
    /// outputs.
    Head,
    Body,
    /// In a declaration: of an input, an output, or a local.
    Declaration,
    Local,
    /// In an equation up to its `=`.
    Left,
    /// In an equation where a value begins.
    Value,
    /// In an equation behind a value: behind an `if` or a `then`, in a parenthesis, or in neither.
    Condition,
    Branch,
    Inside,
    Outside,
}

/// What could stand in a state.
pub(crate) fn expected(state: State) -> &'static str {
    match state {
        State::Top => {
            "Types come first, as `type mode = ..;`, and then nodes, as `node f(..) ..`."
        }
        State::Type => "A type is written `type mode = enum { Idle, Busy };`.",
        State::Head => {
            "A node begins with its name, inputs and outputs, as `node f(x: int) returns (y: int)`."
        }
        State::Body => "Here the locals begin, with `var`, or the equations, with `let`.",
        State::Declaration => {
            "A declaration is written `x: int`, or `a, b: int when c`, and `;` stands between two."
        }
        State::Local => {
            "A local is declared as `s: int;`, or `s: int when c;`, and `let` begins the equations."
        }
        State::Left => {
            "An equation is written `y = ..;`, or `(a, b) = f(x);`, and `tel` ends the node."
        }
        State::Value => "A value has to stand after @: a name, a number, a call or a parenthesis.",
        State::Condition => "After @ there can be an operator, or the `then` of the `if`.",
        State::Branch => "After @ there can be an operator, or the `else` of the `if`.",
        State::Inside => "After @ there can be an operator, a `,` between arguments, or a `)`.",
        State::Outside => {
            "After @ there can be an operator, or the `;` at the end of the equation."
        }
    }
}

/// Where the part of a text begins that the last of these tokens belongs to: at the last keyword that begins
/// one.
pub(crate) fn part_start(tokens: &[Lexeme]) -> usize {
    let mut start = 0_usize;
    for (i, lexeme) in tokens.iter().enumerate() {
        match lexeme.token {
            Token::Fixed(Fixed::Type | Fixed::Node | Fixed::Returns) => start = i,
            Token::Fixed(Fixed::Var | Fixed::Let | Fixed::Tel) => start = i,
            _ => {}
        }
    }
    start
}

/// How many parentheses are open behind these tokens, and whether there is one.
pub(crate) fn parentheses(tokens: &[Lexeme]) -> (usize, bool) {
    let mut depth = 0_usize;
    let mut has_one = false;
    for lexeme in tokens {
        match lexeme.token {
            Token::Fixed(Fixed::Open) => {
                depth = depth.saturating_add(1);
                has_one = true;
            }
            Token::Fixed(Fixed::Close) => depth = depth.saturating_sub(1),
            _ => {}
        }
    }
    (depth, has_one)
}

/// Whether the last of some tokens is a `;`.
fn is_ended(tokens: &[Lexeme]) -> bool {
    match tokens.last() {
        Some(lexeme) => match lexeme.token {
            Token::Fixed(Fixed::Semicolon) => true,
            _ => false,
        },
        None => false,
    }
}

/// How far a text has come outside of equations, by the tokens from the last keyword on that begins a part;
/// nothing inside of them.
pub(crate) fn state_outside(part: &[Lexeme]) -> Option<State> {
    let [first, ..] = part else {
        return Some(State::Top);
    };
    match (first.token, parentheses(part)) {
        (Token::Fixed(Fixed::Let), _) => None,
        (Token::Fixed(Fixed::Type), _) if !is_ended(part) => Some(State::Type),
        (Token::Fixed(Fixed::Var), _) => Some(State::Local),
        (Token::Fixed(Fixed::Node | Fixed::Returns), (1.., _)) => Some(State::Declaration),
        (Token::Fixed(Fixed::Returns), (_, true)) => Some(State::Body),
        (Token::Fixed(Fixed::Node | Fixed::Returns), _) => Some(State::Head),
        _ => Some(State::Top),
    }
}
