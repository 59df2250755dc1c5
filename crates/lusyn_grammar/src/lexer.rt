//! Cuts a text into tokens.

ghost use Rattle.std.specs.Prelude.{◌≡◌, ◌+◌, ◌<◌, ◌≤◌, ◌⊎◌, ℕ, true, IfSome, IfOk, List, length, drop, take, slice_index};
ghost use Rattle.std.specs.Result.{IfErr};
ghost use Rattle.std.specs.List.{prefix_len};
ghost use Rattle.std.specs.Str.{IsAscii, all_ascii_digits};
ghost use Rattle.std.specs.Char.{is_ascii_digit};
ghost use Rattle.lusyn_grammar.specs.Tokens.{fixed, tok, located};
ghost use Rattle.lusyn_grammar.specs.declared.error.LexError.{LexError};
ghost use Rattle.lusyn_grammar.specs.Gives.{seen, count_view, IsCounted, Lexes, Takes};
ghost use Rattle.lusyn_grammar.specs.Refusals.{IsLexed, IsRefused};
ghost use Rattle.lusyn_grammar.specs.Runs as runs;
ghost use Rattle.lusyn_grammar.specs.Lexing.{Placed};
ghost use Rattle.lusyn_grammar.specs.Lexing as lexing;
ghost use Rattle.lusyn_grammar.specs.Scanning as scanning;

use crate::error::LexError;
use crate::{Fixed, Lexeme, Token, keyword};
use lubase::limits::{LONGEST_PROGRAM, LONGEST_RUN};
use std::alloc::Global;

fn is_letter(byte: u8) -> bool
    ensures { result ≡ lexing.is_letter byte }
{
    byte.is_ascii_alphabetic() || byte == b'_'
}

fn is_word(byte: u8) -> bool
    ensures { result ≡ lexing.is_word byte }
{
    byte.is_ascii_alphanumeric() || byte == b'_'
}

fn is_blank(byte: u8) -> bool
    ensures { result ≡ lexing.is_blank byte }
{
    byte == b' ' || byte == b'\t' || byte == b'\n' || byte == b'\r'
}

fn is_comment(first: u8, second: u8) -> bool
    ensures value { result ≡ scanning.is_comment first second }
    ensures first { result ≡ true → first ≡ 45 }
{
    first == b'-' && second == b'-'
}

/// The byte there, or 0 past the end.
fn byte_at(text: &[u8], at: usize) -> u8
    ensures { result ≡ slice_index text.now at }
{
    if at < text.len() { text[at] } else { 0 }
}

fn word_len(text: &[u8]) -> usize
    ensures len { result ≡ prefix_len lexing.is_word text.now }
    ensures some { lexing.is_letter (slice_index text.now 0) ≡ true → 0 < result }
    ensures within { result ≤ length text.now }
{
    text.iter().take_while(|b| is_word(**b)).count()
}

fn digits_len(text: &[u8]) -> usize
    ensures len { result ≡ prefix_len is_ascii_digit text.now }
    ensures some { is_ascii_digit (slice_index text.now 0) ≡ true → 0 < result }
    ensures within { result ≤ length text.now }
{
    text.iter().take_while(|b| b.is_ascii_digit()).count()
}

fn line_len(text: &[u8]) -> usize
    ensures len { result ≡ prefix_len lexing.is_line text.now }
    ensures some { slice_index text.now 0 ≡ 45 → 0 < result }
    ensures within { result ≤ length text.now }
{
    text.iter().take_while(|b| **b != b'\n').count()
}

/// A keyword, or a name.
fn word_token(word: &str) -> Token<'_>
    ensures { tok result ≡ scanning.word word.now }
{
    match keyword(word) {
        Some(fixed) => Token::Fixed(fixed),
        None => Token::Name(word),
    }
}

/// The sign that these two bytes begin, and its length.
fn sign(byte: u8, next: u8) -> Option<(Fixed, usize)>
    ensures value { result ≡ scanning.sign byte next }
    ensures within { IfSome result (λ s. (1 ≤ s.1) × (s.1 ≤ 2) × (next ≡ 0 → s.1 ≡ 1)) }
{
    match byte {
        b'(' => Some((Fixed::Open, 1)),
        b')' => Some((Fixed::Close, 1)),
        b'{' => Some((Fixed::OpenBrace, 1)),
        b'}' => Some((Fixed::CloseBrace, 1)),
        b',' => Some((Fixed::Comma, 1)),
        b';' => Some((Fixed::Semicolon, 1)),
        b':' => Some((Fixed::Colon, 1)),
        b'+' => Some((Fixed::Plus, 1)),
        b'*' => Some((Fixed::Star, 1)),
        b'-' if next == b'>' => Some((Fixed::Arrow, 2)),
        b'-' => Some((Fixed::Minus, 1)),
        b'=' if next == b'>' => Some((Fixed::Implies, 2)),
        b'=' => Some((Fixed::Equal, 1)),
        b'<' if next == b'=' => Some((Fixed::LessEqual, 2)),
        b'<' if next == b'>' => Some((Fixed::Unequal, 2)),
        b'<' => Some((Fixed::Less, 1)),
        b'>' if next == b'=' => Some((Fixed::GreaterEqual, 2)),
        b'>' => Some((Fixed::Greater, 1)),
        _ => None,
    }
}

/// What begins a text.
enum Piece<'t> {
    Blank,
    Token(Token<'t>),
    TooLarge,
    Illegal,
}

const MAX_NUMBER: u64 = 9_223_372_036_854_775_807;

fn number(digits: &str) -> Piece<'_>
    requires all { all_ascii_digits digits.now ≡ true }
    requires some { 0 < length digits.now }
    ensures { seen result ≡ scanning.numeral digits.now }
{
    match digits.parse::<u64>() {
        Ok(n) => {
            if n <= MAX_NUMBER {
                return Piece::Token(Token::Number(n));
            }
            Piece::TooLarge
        }
        Err(_) => Piece::TooLarge,
    }
}

/// What begins the text, and its length.
#[tactic(auto, unfolding(crate::specs::Scanning::piece), using(crate::proofs::ScanningLemmas::digits_front))]
fn piece_of(text: &str) -> (Piece<'_>, usize)
    requires ascii { IsAscii text.now }
    requires some { 0 < length text.now }
    ensures piece { (seen result.0, result.1) ≡ scanning.piece text.now }
    ensures within { (1 ≤ result.1) × (result.1 ≤ length text.now) }
{
    let bytes = text.as_bytes();
    let first = byte_at(bytes, 0);
    let second = byte_at(bytes, 1);
    if is_blank(first) {
        return (Piece::Blank, 1);
    }
    if is_comment(first, second) {
        return (Piece::Blank, line_len(bytes));
    }
    if is_letter(first) {
        let len = word_len(bytes);
        let (word, _) = text.split_at(len);
        return (Piece::Token(word_token(word)), len);
    }
    if first.is_ascii_digit() {
        let len = digits_len(bytes);
        let (digits, _) = text.split_at(len);
        return (number(digits), len);
    }
    match sign(first, second) {
        Some((fixed, len)) => (Piece::Token(Token::Fixed(fixed)), len),
        None => (Piece::Illegal, 1),
    }
}

/// Whether it is a token of a run, as every one but `;` is.
fn is_of_run(token: &Token<'_>) -> bool
    ensures { result ≡ runs.is_of_run (tok token.now) }
{
    match token {
        Token::Fixed(fixed) => is_no_semicolon(*fixed),
        Token::Name(_) => true,
        Token::Number(_) => true,
    }
}

fn is_no_semicolon(found: Fixed) -> bool
    ensures { result ≡ runs.is_of_run (fixed found) }
{
    match found {
        Fixed::Semicolon => false,
        _ => true,
    }
}

/// How long the last run is, and the place of the first token that is one too many.
#[derive(Clone, Copy)]
struct Count {
    in_run: usize,
    too_many: Option<usize>,
}

/// Counts a token at a place.
fn counted(count: Count, token: &Token<'_>, place: usize) -> Count
    ensures { count_view result ≡ scanning.counted (count_view count) (place, tok token.now) }
{
    if is_of_run(token) {
        if count.in_run < LONGEST_RUN {
            return Count {
                in_run: count.in_run + 1,
                too_many: count.too_many,
            };
        }
        let too_many = Some(count.too_many.unwrap_or(place));
        return Count {
            in_run: count.in_run,
            too_many,
        };
    }
    Count {
        in_run: 0,
        too_many: count.too_many,
    }
}

/// The tokens found so far, and how long their runs are.
#[derive(Drop)]
struct Found<'t> {
    tokens: Vec<Lexeme<'t>>,
    count: Count,
}

/// Takes what stands at a place into the tokens found before it.
fn take<'t>(found: &mut Found<'t>, piece: Piece<'t>, at: usize) -> Result<(), LexError>
    ensures takes { (rest : scanning.Lexed) → Takes result
        (scanning.with_front (located found.old.tokens.items)
        (scanning.after at (seen piece.entry) rest))
        (scanning.with_front (located found.new.tokens.items) rest) }
    ensures counts { IfOk result (λ _. IsCounted found.old → IsCounted found.new) }
{
    match piece {
        Piece::Blank => Ok(()),
        Piece::Token(token) => {
            found.count = counted(found.count, &token, at);
            found.tokens.push(Lexeme { token, place: at })?;
            Ok(())
        }
        Piece::TooLarge => Err(LexError::NumberTooLarge { byte: at }),
        Piece::Illegal => Err(LexError::NoToken { byte: at }),
    }
}

/// The tokens, unless a run of them is too long.
fn limited(found: Found<'_>) -> Result<Vec<Lexeme<'_>>, LexError>
    requires { IsCounted found }
    ensures { Lexes (λ v. v.items) result (scanning.limited
        (Ok (located found.entry.tokens.items))) }
{
    match found.count.too_many {
        Some(byte) => Err(LexError::LongRun { byte }),
        None => Ok(found.tokens),
    }
}

/// The tokens of a text whose bytes are below 128.
fn scan(alloc: Global, text: &str) -> Result<Vec<Lexeme<'_>>, LexError>
    requires { IsAscii text.now }
    ensures { Lexes (λ v. v.items) result (scanning.limited (scanning.lex 0 0 text.now)) }
{
    let mut found = Found {
        tokens: Vec::new(alloc),
        count: Count {
            in_run: 0,
            too_many: None,
        },
    };
    let mut rest = text;
    let mut at = 0;
    while !rest.is_empty() {
        let (piece, len) = piece_of(rest);
        take(&mut found, piece, at)?;
        let (_, after) = rest.split_at(len);
        rest = after;
        at += len;
    }
    limited(found)
}

/// The tokens of a text, with their places.
pub fn lex(alloc: Global, text: &str) -> Result<Vec<Lexeme<'_>>, LexError>
    // What is answered are the text's tokens, and the text is one that is accepted.
    ensures tokens { IfOk result (λ found. IsLexed text.now (located found.items)) }
    // Its tokens are answered, unless memory runs out. So no text has two lists of tokens.
    ensures only { (ts : List Placed) → IsLexed text.now ts → Lexes (λ v. v.items) result (Ok ts) }
    // A refusal other than out of memory is true of the text.
    ensures refused { IfErr result (λ error. (error ≡ LexError.OutOfMemory)
        ⊎ IsRefused text.now error) }
    // A refusal that is true of the text is answered, unless memory runs out. So no text has two.
    ensures refuses { (error : LexError) → IsRefused text.now error
        → Lexes (λ v. v.items) result (Err error) }
{
    if text.len() > LONGEST_PROGRAM {
        return Err(LexError::TooLong);
    }
    if text.is_ascii() {
        return scan(alloc, text);
    }
    Err(LexError::NotAscii)
}
