//! Where an operator stands in a text.

ghost use Rattle.std.specs.Prelude.{◌≡◌, ℕ, ◌∷◌, [], Some, IfOk, IfSome, IsTrue, length, map, slice_get, take};
ghost use Rattle.lutree.specs.Tree.{view, equation_view};
ghost use Rattle.lusyn_grammar.specs.Tokens.{fixed, tok, toks, located};
ghost use Rattle.lusyn_grammar.specs.Lexing.{Placed};
ghost use Rattle.lusyn_grammar.specs.Refusals.{IsLexed};
ghost use Rattle.luinside.specs.Signs as spec;

use crate::signs::push_equation;
use lubase::Name;
use lusyn_grammar::{Fixed, LexError, Lexeme, Token, lex};
use lutree::{Equation, Expr};
use std::alloc::{AllocError, Global};

/// Whether a token is neither a parenthesis nor a comma.
fn is_sign(token: Token) -> bool
    ensures { result ≡ spec.is_sign (tok token.entry) }
{
    match token {
        Token::Fixed(Fixed::Open | Fixed::Close | Fixed::Comma) => false,
        _ => true,
    }
}

/// The signs among these tokens that stand at a byte or behind it.
fn signs_from<'t>(
    alloc: Global,
    lexemes: &[Lexeme<'t>],
    begin: usize,
) -> Result<Vec<Lexeme<'t>>, AllocError>
    ensures { IfOk result (λ found. located found.items
        ≡ spec.signs_from begin (located lexemes.now)) }
{
    let mut found = Vec::new(alloc);
    for lexeme in lexemes {
        if begin <= lexeme.place && is_sign(lexeme.token) {
            found.push(*lexeme)?;
        }
    }
    Ok(found)
}

/// Whether two tokens are the same.
fn is_same(one: Token, other: Token) -> bool
    ensures { IsTrue result → tok one.entry ≡ tok other.entry }
{
    match (one, other) {
        (Token::Name(x), Token::Name(y)) => x == y,
        (Token::Number(m), Token::Number(n)) => m == n,
        (Token::Fixed(f), Token::Fixed(g)) => f == g,
        _ => false,
    }
}

/// Whether a token is the one of a number among some.
fn is_at(lexemes: &[Lexeme], i: usize, sign: Token) -> bool
    ensures { IsTrue result → slice_get (toks lexemes.now) i ≡ Some (tok sign.entry) }
{
    match lexemes.get(i) {
        Some(lexeme) => is_same(lexeme.token, sign),
        None => false,
    }
}

/// Whether some tokens begin with these.
fn begin_with(lexemes: &[Lexeme], signs: &[Token]) -> bool
    ensures { IsTrue result → take (length signs.now) (toks lexemes.now) ≡ map tok signs.now }
{
    for (i, sign) in signs.iter().enumerate() {
        if !is_at(lexemes, i, *sign) {
            return false;
        }
    }
    true
}

/// The byte of the sign that stands behind these among the tokens; none where they don't begin so.
fn byte_behind(lexemes: &[Lexeme], signs: &[Token], sign: Fixed) -> Option<usize>
    ensures { IfSome result (λ byte. spec.IsBehind (located lexemes.now) (map tok signs.now)
        (fixed sign) byte) }
{
    if !begin_with(lexemes, signs) {
        return None;
    }
    match lexemes.get(signs.len()) {
        Some(lexeme) if is_same(lexeme.token, Token::Fixed(sign)) => Some(lexeme.place),
        _ => None,
    }
}

/// The tokens of a text; none where it has none.
fn tokens_of(alloc: Global, text: &str) -> Result<Option<Vec<Lexeme<'_>>>, AllocError>
    ensures { IfOk result (λ o. IfSome o (λ found. IsLexed text.now (located found.items))) }
{
    match lex(alloc, text) {
        Ok(found) => Ok(Some(found)),
        Err(LexError::OutOfMemory) => Err(AllocError),
        Err(_) => Ok(None),
    }
}

/// An operator of an equation, and the byte of its sign.
#[derive(Clone, Copy)]
pub struct PlacedOperator<'t> {
    pub operator: &'t Expr,
    pub byte: usize,
}

/// The operator at a part of an equation of a text, and where it stands; none where the text hasn't the
/// equation at the equation's byte, or no operator stands there.
pub(crate) fn placed_operator<'t>(
    alloc: Global,
    text: &str,
    equation: &'t Equation,
    part: &[usize],
) -> Result<Option<PlacedOperator<'t>>, AllocError>
    ensures operator { IfOk result (λ o. IfSome o (λ x. spec.expression_at (view equation.now.right) part.now
        ≡ Some (view x.operator.now))) }
    ensures stands { IfOk result (λ o. IfSome o (λ x. spec.StandsAt text.now equation.now.byte
        (equation_view equation.now) part.now (view x.operator.now) x.byte)) }
{
    let Some(lexemes) = tokens_of(alloc, text)? else {
        return Ok(None);
    };
    let found = signs_from(alloc, &lexemes, equation.byte)?;
    let mut signs = Vec::new(alloc);
    let left = equation.left.as_slice();
    let Some((operator, sign)) = push_equation(&mut signs, left, &equation.right, part)? else {
        return Ok(None);
    };
    match byte_behind(&found, &signs, sign) {
        Some(byte) => Ok(Some(PlacedOperator { operator, byte })),
        None => Ok(None),
    }
}
