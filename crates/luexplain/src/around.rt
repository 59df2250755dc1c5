//! What stands around the place where a text is refused, and which habit of another dialect that shows.

use crate::bytes::from_byte;
use crate::expected::{State, part_start, state_outside};
use crate::habits::{HABITS, Habit, Stand};
use lusyn_grammar::{Fixed, Lexeme, Token, keyword};
use std::str;

/// What stands around the place where a text is refused. A statement is what stands from the last `;`, `let`,
/// `tel` or `var` on.
#[derive(Clone, Copy)]
pub(crate) struct Around<'t> {
    /// The text before the place, and from there on.
    past: &'t [u8],
    rest: &'t [u8],
    /// The token that is refused, and the one behind it.
    pub(crate) token: &'t [u8],
    next: &'t [u8],
    /// The token before it, where it begins, and the one before that.
    pub(crate) before: &'t [u8],
    pub(crate) before_byte: usize,
    pub(crate) second: &'t [u8],
    /// The first token of the statement, and how many it has before the place.
    pub(crate) head: &'t [u8],
    count: usize,
    shape: Shape,
    /// How far the text has come.
    pub(crate) state: State,
}

/// How far a statement has come.
#[derive(Clone, Copy)]
struct Shape {
    /// It is an equation of one variable.
    is_equation: bool,
    /// Its last token may end an expression.
    is_value: bool,
    /// A parenthesis is open.
    is_open: bool,
    /// So is an `if` that has no `then`, or none that has no `else`, inside the last parenthesis that is
    /// open.
    lacks_then: bool,
    lacks_else: bool,
}

pub(crate) fn is_word(byte: u8) -> bool {
    byte.is_ascii_alphanumeric() || byte == b'_'
}

pub(crate) fn is(token: &[u8], word: &str) -> bool {
    token == word.as_bytes()
}

/// The name, the keyword, the number or the sign at the front; the first byte where there is none.
pub(crate) fn token_of(text: &[u8]) -> &[u8] {
    let mut length = text.len();
    for (i, byte) in text.iter().enumerate() {
        if !is_word(*byte) {
            length = i;
            break;
        }
    }
    if length == 0 {
        length = match text {
            [b'<', b'>', ..] | [b'<', b'=', ..] | [b'>', b'=', ..] => 2,
            [b'-', b'>', ..] | [b'=', b'>', ..] => 2,
            _ => 1,
        };
    }
    text.get(..length).unwrap_or(text)
}

/// What stands behind blanks at the front.
fn behind_blanks(text: &[u8]) -> &[u8] {
    for (i, byte) in text.iter().enumerate() {
        if !byte.is_ascii_whitespace() {
            return from_byte(text, i);
        }
    }
    &[]
}

/// The token that begins at the place of another.
fn token_at<'t>(text: &'t [u8], found: Option<&Lexeme>) -> &'t [u8] {
    match found {
        Some(found) => token_of(from_byte(text, found.place)),
        None => &[],
    }
}

/// Whether a statement begins behind a token.
fn is_opener(token: Token) -> bool {
    match token {
        Token::Fixed(Fixed::Semicolon | Fixed::Let | Fixed::Tel | Fixed::Var) => true,
        _ => false,
    }
}

/// How many tokens stand before the statement that the last of them belongs to.
pub(crate) fn start_of(tokens: &[Lexeme]) -> usize {
    let mut start = 0_usize;
    for (i, lexeme) in tokens.iter().enumerate() {
        if is_opener(lexeme.token) {
            start = i.saturating_add(1);
        }
    }
    start
}

/// Whether a token may end an expression.
fn is_end_of_value(found: Option<&Lexeme>) -> bool {
    match found {
        Some(found) => match found.token {
            Token::Name(_) | Token::Number(_) => true,
            Token::Fixed(Fixed::Close | Fixed::True | Fixed::False) => true,
            Token::Fixed(_) => false,
        },
        None => false,
    }
}

fn is_equal_sign(found: Option<&Lexeme>) -> bool {
    match found {
        Some(found) => match found.token {
            Token::Fixed(Fixed::Equal) => true,
            _ => false,
        },
        None => false,
    }
}

/// How far a statement of these tokens has come.
fn shape_of(statement: &[Lexeme]) -> Shape {
    let mut depth = 0_usize;
    let mut closed = 0_usize;
    let mut chosen = 0_usize;
    let mut lacks_then = false;
    let mut lacks_else = false;
    let mut is_open = false;
    for lexeme in statement.iter().rev() {
        match lexeme.token {
            Token::Fixed(Fixed::Close) => depth = depth.saturating_add(1),
            Token::Fixed(Fixed::Open) if depth == 0 => is_open = true,
            Token::Fixed(Fixed::Open) => depth = depth.saturating_sub(1),
            Token::Fixed(Fixed::Else) if depth == 0 && !is_open => {
                closed = closed.saturating_add(1);
            }
            Token::Fixed(Fixed::Then) if depth == 0 && !is_open => {
                lacks_else = lacks_else || closed == 0;
                closed = closed.saturating_sub(1);
                chosen = chosen.saturating_add(1);
            }
            Token::Fixed(Fixed::If) if depth == 0 && !is_open => {
                lacks_then = lacks_then || chosen == 0;
                chosen = chosen.saturating_sub(1);
            }
            _ => {}
        }
    }
    Shape {
        is_equation: is_equal_sign(statement.get(1)),
        is_value: is_end_of_value(statement.last()),
        is_open,
        lacks_then,
        lacks_else,
    }
}

/// How far an equation of these tokens has come.
fn state_inside(statement: &[Lexeme], shape: Shape) -> State {
    let mut has_sides = false;
    for lexeme in statement {
        has_sides = has_sides || is_equal_sign(Some(lexeme));
    }
    if !has_sides {
        State::Left
    } else if !shape.is_value {
        State::Value
    } else if shape.lacks_then {
        State::Condition
    } else if shape.lacks_else {
        State::Branch
    } else if shape.is_open {
        State::Inside
    } else {
        State::Outside
    }
}

/// How far a text of these tokens has come, of which the last ones are a statement.
fn state_of(tokens: &[Lexeme], statement: &[Lexeme], shape: Shape) -> State {
    match state_outside(tokens.get(part_start(tokens)..).unwrap_or(&[])) {
        Some(state) => state,
        None => state_inside(statement, shape),
    }
}

/// What stands around a byte of a text, by the tokens before it.
pub(crate) fn what_stands<'t>(text: &'t [u8], byte: usize, tokens: &[Lexeme]) -> Around<'t> {
    let rest = from_byte(text, byte);
    let token = token_of(rest);
    let statement = tokens.get(start_of(tokens)..).unwrap_or(&[]);
    let last = tokens.len().saturating_sub(1);
    let before_byte = match tokens.last() {
        Some(lexeme) => lexeme.place,
        None => 0,
    };
    let second = match tokens.len() {
        0 | 1 => &[],
        _ => token_at(text, tokens.get(last.saturating_sub(1))),
    };
    let shape = shape_of(statement);
    Around {
        past: text.get(..byte).unwrap_or(text),
        rest,
        token,
        next: token_of(behind_blanks(from_byte(rest, token.len()))),
        before: token_at(text, tokens.last()),
        before_byte,
        second,
        head: token_at(text, statement.first()),
        count: statement.len(),
        shape,
        state: state_of(tokens, statement, shape),
    }
}

/// Where a comment begins with `(*` that has no end in a text, outside of comments that begin with `--`.
pub(crate) fn open_comment(text: &[u8]) -> Option<usize> {
    let mut last = b' ';
    let mut is_line = false;
    let mut open = None;
    for (i, byte) in text.iter().enumerate() {
        if is_line {
            is_line = *byte != b'\n';
        } else if open.is_some() {
            if last == b'*' && *byte == b')' {
                open = None;
            }
        } else {
            is_line = last == b'-' && *byte == b'-';
            if last == b'(' && *byte == b'*' {
                open = Some(i.saturating_sub(1));
            }
        }
        last = *byte;
    }
    open
}

/// Whether a sign stands at the front, or a word.
fn begins(around: &Around, word: &str) -> bool {
    match word.as_bytes() {
        [first, ..] if is_word(*first) => is(around.token, word),
        _ => around.rest.starts_with(word.as_bytes()),
    }
}

/// Whether the text is refused at the second byte of a sign.
fn is_inside(around: &Around, sign: &str) -> bool {
    match (sign.as_bytes(), around.past, around.rest) {
        ([a, b], [.., x], [y, ..]) => *a == *x && *b == *y,
        _ => false,
    }
}

fn is_at_digit(text: Option<&u8>) -> bool {
    match text {
        Some(byte) => byte.is_ascii_digit(),
        None => false,
    }
}

/// Whether the text is refused at a point with a digit beside it.
fn is_at_point(around: &Around) -> bool {
    begins(around, ".") && (is_at_digit(around.past.last()) || is_at_digit(around.rest.get(1)))
}

/// Whether a word is a keyword but for capitals.
fn is_capital(word: &[u8]) -> bool {
    for small in [
        "node", "returns", "var", "let", "tel", "if", "then", "else", "pre", "fby", "current",
        "when", "merge", "not", "and", "or", "xor", "div", "mod", "type", "enum",
    ] {
        if word.eq_ignore_ascii_case(small.as_bytes()) && !is(word, small) {
            return true;
        }
    }
    false
}

/// Whether the refused token is a comparison of what is compared already.
fn is_chain(around: &Around) -> bool {
    let is_comparison = match around.token {
        [b'=' | b'<' | b'>'] | [b'<', b'>' | b'='] | [b'>', b'='] => true,
        _ => false,
    };
    is_comparison && around.shape.is_equation && around.shape.is_value && 2 < around.count
}

/// Whether the refused token is a name, and with what is behind it begins an equation.
fn is_at_equation(around: &Around) -> bool {
    match around.token {
        [first, ..] => is_word(*first) && !first.is_ascii_digit() && is(around.next, "="),
        [] => false,
    }
}

fn is_keyword(token: &[u8]) -> bool {
    match str::from_utf8(token) {
        Ok(word) => keyword(word).is_some(),
        Err(_) => false,
    }
}

/// Whether the refused token is a name or a number, and begins no equation.
fn is_at_value(around: &Around) -> bool {
    match around.token {
        [first, ..] => { is_word(*first) && !is_keyword(around.token) && !is_at_equation(around) }
        [] => false,
    }
}

/// Whether the refused token ends an `if` that has no `else`.
fn is_without_else(around: &Around) -> bool {
    let ends = match around.token {
        b";" | b")" | b"," | b"tel" => true,
        _ => is_at_equation(around),
    };
    ends && around.shape.is_value && around.shape.lacks_else
}

/// Whether the refused token ends an equation in which a parenthesis is open.
fn is_unclosed(around: &Around) -> bool {
    let ends = match around.token {
        b";" | b"tel" => true,
        _ => is_at_equation(around),
    };
    ends && around.shape.is_value && around.shape.is_open && around.shape.is_equation
}

/// Whether the refused token is one behind the end of an equation or a declaration.
pub(crate) fn is_unended(around: &Around) -> bool {
    if around.count < 3 || around.shape.is_open {
        return false;
    }
    let is_behind = match around.before {
        b"int" | b"bool" | b"}" => true,
        _ => around.shape.is_value,
    };
    let begins_next = match around.token {
        b"tel" | b"let" | b"node" | b"type" | b"var" => true,
        _ if around.shape.is_equation || is(around.head, "(") => is_at_equation(around),
        _ => is(around.next, ":") || is(around.next, ","),
    };
    is_behind && begins_next
}

/// Whether the refused token is of a type that is no enumeration.
fn is_of_type(around: &Around) -> bool {
    is(around.head, "type")
        && (is(around.before, "=") || (around.count == 2 && is(around.token, ";")))
}

/// Whether a keyword is one that may be meant as a name where a value begins.
fn is_plain_word(token: &[u8]) -> bool {
    match token {
        b"type" | b"enum" | b"int" | b"bool" => true,
        _ => false,
    }
}

/// Whether a keyword is one that begins or ends a part of a program.
fn is_part_word(token: &[u8]) -> bool {
    match token {
        b"node" | b"returns" | b"var" | b"let" | b"tel" => true,
        _ => false,
    }
}

/// Whether a name stands behind a token outside of values.
fn is_before_name(token: &[u8]) -> bool {
    match token {
        b"type" | b"node" | b"var" | b"let" => true,
        b"(" | b"," | b";" | b"{" | b":" => true,
        _ => false,
    }
}

/// Whether the refused token is a keyword where a name has to stand.
fn is_keyword_for_name(around: &Around) -> bool {
    match around.state {
        State::Value => is_plain_word(around.token),
        State::Type | State::Head | State::Declaration | State::Local | State::Left => {
            is_keyword(around.token) && !is_part_word(around.token) && is_before_name(around.before)
        }
        _ => false,
    }
}

/// Whether the refused token stands behind the call of an equation of several variables.
fn is_behind_call(around: &Around) -> bool {
    match around.state {
        State::Outside => is(around.head, "("),
        _ => false,
    }
}

/// Whether the refused token stands where a value begins, and may begin one elsewhere.
fn is_operand(around: &Around, word: &str) -> bool {
    match around.state {
        State::Value => is(around.token, word),
        _ => false,
    }
}

/// Whether what stands around a place is of another dialect so.
fn fits(around: &Around, stand: Stand) -> bool {
    match stand {
        Stand::Comment => {
            begins(around, "(*") || is_inside(around, "(*") || open_comment(around.past).is_some()
        }
        Stand::At(word) => begins(around, word),
        Stand::Inside(sign) => is_inside(around, sign),
        Stand::Behind(word) => is(around.before, word),
        Stand::First(word) => around.count == 1 && is(around.before, word),
        Stand::Prefix(word) => is(around.before, word) && is_at_value(around),
        Stand::Both(word, at) => is(around.before, word) && begins(around, at),
        Stand::Second(word, at) => is(around.second, word) && begins(around, at),
        Stand::Not(word) => is(around.second, word) && is(around.before, "not"),
        Stand::Top(word) => around.count == 0 && is(around.token, word),
        Stand::Point => is_at_point(around),
        Stand::OfType => is_of_type(around),
        Stand::Declared(word) => {
            is(around.token, word) && (is(around.before, "(") || is(around.before, ";"))
        }
        Stand::Equation(sign) => around.shape.is_equation && begins(around, sign),
        Stand::Tuple => around.count == 1 && is(around.token, ","),
        Stand::Sides => { is(around.head, "(") && is(around.before, "=") && is(around.second, ")") }
        Stand::Comma => is(around.token, ",") && is(around.second, ":"),
        Stand::Capital => is_capital(around.token),
        Stand::BehindCapital => is_capital(around.before) && is_at_value(around),
        Stand::Chain => is_chain(around),
        Stand::Operand(word) => is_operand(around, word),
        Stand::NoElse => is_without_else(around),
        Stand::Unclosed => is_unclosed(around),
        Stand::Unended => is_unended(around),
        Stand::Keyword => is_keyword_for_name(around),
        Stand::BehindCall => is_behind_call(around),
        Stand::Type(_) | Stand::Value(_) | Stand::Call(_) => false,
    }
}

/// The first habit that stands around a place.
pub(crate) fn habit_around(around: &Around) -> Option<Habit> {
    for habit in HABITS {
        if fits(around, habit.0) {
            return Some(*habit);
        }
    }
    None
}

/// Whether two words are one but for capitals.
pub(crate) fn is_alike(name: &str, word: &str) -> bool {
    name.as_bytes().eq_ignore_ascii_case(word.as_bytes())
}

/// What is said of a type of another dialect.
pub(crate) fn habit_of_type(name: &str) -> Option<&'static str> {
    for habit in HABITS {
        if let Stand::Type(word) = habit.0 {
            if is_alike(name, word) {
                return Some(habit.1);
            }
        }
    }
    None
}

/// What is said of a variable that is none, but a value in another dialect.
pub(crate) fn habit_of_value(name: &str) -> Option<&'static str> {
    for habit in HABITS {
        if let Stand::Value(word) = habit.0 {
            if is_alike(name, word) {
                return Some(habit.1);
            }
        }
    }
    None
}

/// What is said of a call of what is built in elsewhere.
pub(crate) fn habit_of_call(name: &str) -> Option<&'static str> {
    for habit in HABITS {
        if let Stand::Call(word) = habit.0 {
            if word == name {
                return Some(habit.1);
            }
        }
    }
    None
}
