//! How a text that is no program is read on behind the place where it is refused: what is overwritten there.

ghost use Rattle.std.specs.Prelude.{◌≡◌, length};

use crate::around::{Around, is, is_unended, is_word, open_comment, start_of, token_of};
use crate::bytes::{from_byte, front_of, length_before};
use crate::expected::{State, part_start};
use lusyn_grammar::Lexeme;

/// Bytes of a text that a sign takes the place of, with blanks behind it. Line feeds stay.
#[derive(Clone, Copy)]
pub(crate) struct Patch {
    from: usize,
    to: usize,
    sign: &'static str,
}

/// The sign of a patch that keeps all bytes but those above 127.
const WIDE: &str = "_";

/// A sign of another dialect, and what takes its place.
struct Sign(&'static str, &'static str);

/// The signs that are as good as others, where the text is refused at their first byte.
const SIGNS: &[Sign] = &[
    Sign("&&", "->"),
    Sign("||", "->"),
    Sign("!=", "<>"),
    Sign("!", ""),
    Sign("/", "*"),
    Sign("%", "*"),
    Sign(":=", " ="),
];

/// What ends a statement, beside a `;`.
#[derive(Clone, Copy)]
enum Scope {
    /// An equation, or what stands in place of one: `tel`, or what begins a part.
    Equation,
    /// A declaration: a `)` that closes no parenthesis of it, or what begins a part; its `;` isn't its own.
    Declaration,
    /// What stands between nodes: a node or a type. No `;` inside of parentheses ends it.
    Top,
}

/// What a byte of a patch is overwritten by.
fn put_for(patch: Patch, at: usize, byte: u8) -> u8 {
    if patch.sign == WIDE {
        return if byte < 128 { byte } else { b'_' };
    }
    match patch.sign.as_bytes().get(at.saturating_sub(patch.from)) {
        Some(put) => *put,
        None if byte == b'\n' => byte,
        None => b' ',
    }
}

/// Overwrites bytes.
pub(crate) fn overwrite(text: &mut [u8], patch: Patch)
    ensures { length text.new ≡ length text.old }
{
    for (i, byte) in text.iter_mut().enumerate() {
        if patch.from <= i && i < patch.to {
            *byte = put_for(patch, i, *byte);
        }
    }
}

/// Where some bytes end that stand from a byte on, their own among them; the text's end where they don't
/// stand there.
fn behind(text: &[u8], from: usize, close: &str) -> usize {
    for (i, _) in text.iter().enumerate() {
        if from <= i && from_byte(text, i).starts_with(close.as_bytes()) {
            return i.saturating_add(close.len());
        }
    }
    text.len()
}

/// The comment of another dialect in which a text is refused, or at which.
fn comment_at(text: &[u8], byte: usize) -> Option<Patch> {
    let rest = from_byte(text, byte);
    let past = text.get(..byte).unwrap_or(text);
    let (from, close) = match (past, rest) {
        (_, [b'(', b'*', ..]) => (byte, "*)"),
        ([.., b'('], [b'*', ..]) => (byte.saturating_sub(1), "*)"),
        (_, [b'/', b'*', ..]) => (byte, "*/"),
        (_, [b'/', b'/', ..]) => (byte, "\n"),
        _ => (open_comment(past)?, "*)"),
    };
    let to = behind(text, from.saturating_add(2), close);
    Some(Patch { from, to, sign: "" })
}

/// The sign of another dialect at which a text is refused.
fn sign_at(text: &[u8], byte: usize) -> Option<Patch> {
    let rest = from_byte(text, byte);
    for sign in SIGNS {
        if rest.starts_with(sign.0.as_bytes()) {
            return Some(Patch {
                from: byte,
                to: byte.saturating_add(sign.0.len()),
                sign: sign.1,
            });
        }
    }
    let past = text.get(..byte).unwrap_or(text);
    let before = byte.saturating_sub(1);
    let next = byte.saturating_add(1);
    let (from, to, sign) = match (past, rest) {
        ([.., b'='], [b'=', ..]) => (byte, next, ""),
        ([.., b'='], [b'<', ..]) => (before, next, "<="),
        ([.., b'<'], [b'<', ..]) => (before, behind(text, byte, ">>"), ""),
        (_, [b'<', b'<', ..]) => (byte, behind(text, byte, ">>"), ""),
        (_, [b'.', digit, ..]) if is_word(*digit) => (byte, next, "+"),
        (_, [b'.', ..]) => (byte, next, ""),
        _ => return None,
    };
    Some(Patch { from, to, sign })
}

/// Whether a word begins or ends a part of a program, where it can't belong to what a statement is in this
/// scope.
fn is_end_word(word: &[u8], scope: Scope) -> bool {
    match (scope, word) {
        (Scope::Top, b"node" | b"function" | b"type") => true,
        (Scope::Top, _) => false,
        (Scope::Declaration, b"returns") => true,
        (_, b"tel" | b"node" | b"let" | b"var" | b"function") => true,
        _ => false,
    }
}

/// How many brackets are open behind a byte.
fn depth_behind(depth: usize, byte: u8) -> usize {
    match byte {
        b'(' | b'{' => depth.saturating_add(1),
        b')' | b'}' => depth.saturating_sub(1),
        _ => depth,
    }
}

/// Whether a parenthesis is closed in what is left of a line.
fn is_closed_behind(text: &[u8], byte: usize) -> bool {
    let line = front_of(from_byte(text, byte), b'\n');
    length_before(line, b')') < line.len()
}

/// Where a statement ends that goes on at a byte, or where what can't belong to it begins. A `;` in
/// parentheses that are closed in its line doesn't end it.
fn end_from(text: &[u8], byte: usize, scope: Scope) -> usize {
    let mut depth = 0_usize;
    let mut last = b' ';
    let mut is_line = false;
    for (i, at) in text.iter().enumerate() {
        if i < byte {
            continue;
        }
        let is_first = is_word(*at) && !is_word(last);
        is_line = is_line && *at != b'\n' || *at == b'-' && last == b'-';
        last = *at;
        if is_line {
            continue;
        }
        match (*at, scope, depth) {
            (b';', Scope::Declaration, 0) | (b')', Scope::Declaration, 0) => return i,
            (b';', _, 0) => return i.saturating_add(1),
            (b';', Scope::Equation, _) if !is_closed_behind(text, i) => {
                return i.saturating_add(1);
            }
            _ => {}
        }
        if byte < i && is_first && is_end_word(token_of(from_byte(text, i)), scope) {
            return i;
        }
        depth = depth_behind(depth, *at);
    }
    text.len()
}

/// Where a token begins, or the refused byte where there is no such token.
fn place_of(tokens: &[Lexeme], number: usize, byte: usize) -> usize {
    match tokens.get(number) {
        Some(lexeme) => lexeme.place,
        None => byte,
    }
}

/// The `;` that is missing behind the last token, where there is a blank.
fn missing_end(text: &[u8], byte: usize, around: &Around) -> Option<Patch> {
    let from = around.before_byte.saturating_add(around.before.len());
    let at = text.get(from)?;
    if byte <= from || !at.is_ascii_whitespace() || !is_unended(around) {
        return None;
    }
    Some(Patch {
        from,
        to: from.saturating_add(1),
        sign: ";",
    })
}

/// Where the last `tel` behind a byte stands before what begins another node, a type or a constant; the byte
/// where there is none.
fn last_end(text: &[u8], byte: usize) -> usize {
    let mut found = byte;
    let mut last = b' ';
    for (i, at) in text.iter().enumerate() {
        if byte < i && is_word(*at) && !is_word(last) {
            match token_of(from_byte(text, i)) {
                b"tel" => found = i,
                b"node" | b"function" | b"type" | b"const" => return found,
                _ => {}
            }
        }
        last = *at;
    }
    found
}

/// What is overwritten of an equation that is refused: all of it.
fn of_equation(text: &[u8], byte: usize, tokens: &[Lexeme], around: &Around) -> Option<Patch> {
    let from = place_of(tokens, start_of(tokens), byte);
    let to = if is(around.head, "automaton") {
        last_end(text, byte)
    } else {
        end_from(text, byte, Scope::Equation)
    };
    Some(Patch { from, to, sign: "" })
}

/// Where the declaration begins that the last of these tokens belong to.
fn declaration_start(text: &[u8], byte: usize, tokens: &[Lexeme]) -> usize {
    let mut from = byte;
    for lexeme in tokens {
        match token_of(from_byte(text, lexeme.place)) {
            b"(" | b";" | b"var" => from = byte,
            _ if from == byte => from = lexeme.place,
            _ => {}
        }
    }
    from
}

/// What is overwritten of a declaration that is refused: what stands behind its type, or all of it.
fn of_declaration(text: &[u8], byte: usize, tokens: &[Lexeme], around: &Around) -> Option<Patch> {
    let to = end_from(text, byte, Scope::Declaration);
    if is(around.token, ",") && is(around.second, ":") {
        let to = byte.saturating_add(1);
        let from = byte;
        return Some(Patch {
            from,
            to,
            sign: ";",
        });
    }
    if is(around.second, ":") {
        let from = byte;
        return Some(Patch { from, to, sign: "" });
    }
    let from = declaration_start(text, byte, tokens);
    if to.saturating_sub(from) < 5 {
        return None;
    }
    Some(Patch {
        from,
        to,
        sign: "a:int",
    })
}

/// Whether a word is one of a line of its own outside of nodes.
fn is_line_word(word: &[u8]) -> bool {
    match word {
        b"package" | b"model" | b"open" | b"include" | b"end" | b"uses" | b"provides" => true,
        _ => false,
    }
}

/// What is overwritten between nodes.
fn of_top(text: &[u8], byte: usize, tokens: &[Lexeme], around: &Around) -> Patch {
    if is_line_word(around.head) {
        let from = place_of(tokens, start_of(tokens), byte);
        let to = behind(text, byte, "\n");
        return Patch { from, to, sign: "" };
    }
    let from = byte;
    let (to, sign) = match around.token {
        b"function" => (byte.saturating_add(8), "node"),
        b"NODE" | b"Node" => (byte.saturating_add(4), "node"),
        b"unsafe" | b"tel" | b"let" | b";" => (byte.saturating_add(around.token.len()), ""),
        word if is_line_word(word) => (behind(text, byte, "\n"), ""),
        _ => (end_from(text, byte, Scope::Top), ""),
    };
    Patch { from, to, sign }
}

/// What is overwritten where a text of these tokens is refused at a byte behind them, so that it is read on:
/// nothing where that isn't known.
pub(crate) fn patch_at(
    text: &[u8],
    byte: usize,
    tokens: &[Lexeme],
    around: &Around,
) -> Option<Patch> {
    if let Some(patch) = comment_at(text, byte) {
        return Some(patch);
    }
    match around.state {
        State::Top => Some(of_top(text, byte, tokens, around)),
        State::Type => {
            let from = place_of(tokens, part_start(tokens), byte);
            let to = end_from(text, byte, Scope::Top);
            Some(Patch { from, to, sign: "" })
        }
        State::Head => None,
        State::Body => {
            let to = end_from(text, byte, Scope::Equation);
            Some(Patch {
                from: byte,
                to,
                sign: "",
            })
        }
        State::Declaration | State::Local => match missing_end(text, byte, around) {
            Some(patch) => Some(patch),
            None => of_declaration(text, byte, tokens, around),
        },
        _ => match sign_at(text, byte) {
            Some(patch) => Some(patch),
            None => match missing_end(text, byte, around) {
                Some(patch) => Some(patch),
                None => of_equation(text, byte, tokens, around),
            },
        },
    }
}

/// What is overwritten of a number that is too large: all its digits but the first.
pub(crate) fn of_number(text: &[u8], byte: usize) -> Patch {
    Patch {
        from: byte.saturating_add(1),
        to: byte.saturating_add(token_of(from_byte(text, byte)).len()),
        sign: "",
    }
}

/// All of a text, of which each byte above 127 is overwritten by a letter.
pub(crate) fn whole_of(text: &[u8]) -> Patch {
    Patch {
        from: 0,
        to: text.len(),
        sign: WIDE,
    }
}
