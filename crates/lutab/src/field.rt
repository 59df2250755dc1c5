//! One value in a text.

ghost use Rattle.std.specs.Prelude.{◌≡◌, ◌≤◌, ◌<◌, IfSome, length, option_map, position};
ghost use Rattle.std.specs.Str.{bytes_eq};
ghost use Rattle.lutab.specs.Text.{is_end, sort_of};
ghost use Rattle.lutab.specs.Reading.{digits_from, number_at, natural_value, negative_value, int_at, bool_at, field_length, name_at, value_at};

use lubase::Name;
use luflow::{Datum, Enum, names_of};
use lutree::Kind;

/// A number above it takes no further digit: ten times it is above 2^63.
const LAST_TO_GROW: u64 = 922_337_203_685_477_580;

/// The size of the least number, and one more than the greatest.
const LEAST: u64 = 9_223_372_036_854_775_808;

/// The number of these digits and those at the front, and what follows them; none where it is too large.
#[tactic(auto, unfolding(crate::specs::Reading::digits_from))]
fn digits_after(first: u64, bytes: &[u8]) -> Option<(u64, &[u8])>
    requires { first ≤ 9223372036854775809 }
    ensures { option_map (λ x. (x.0, x.1.now)) result ≡ digits_from first bytes.now }
{
    let mut number = first;
    let mut rest = bytes;
    while let [b @ b'0'..=b'9', tail @ ..] = rest {
        if number > LAST_TO_GROW {
            return None;
        }
        number = number * 10 + u64::from(*b - b'0');
        rest = tail;
    }
    Some((number, rest))
}

/// The number at the front, without a leading 0, and what follows it.
#[tactic(auto, unfolding(crate::specs::Reading::number_at))]
fn number(bytes: &[u8]) -> Option<(u64, &[u8])>
    ensures { option_map (λ x. (x.0, x.1.now)) result ≡ number_at bytes.now }
{
    match bytes {
        [b'0', rest @ ..] => Some((0, rest)),
        [b @ b'1'..=b'9', rest @ ..] => digits_after(u64::from(*b - b'0'), rest),
        _ => None,
    }
}

#[tactic(auto, unfolding(crate::specs::Reading::natural_value))]
fn natural(size: u64, rest: &[u8]) -> Option<(Datum, &[u8])>
    ensures { option_map (λ x. (x.0, x.1.now)) result ≡ natural_value (size, rest.now) }
{
    if size >= LEAST {
        return None;
    }
    Some((Datum::Int(size as i64), rest))
}

#[tactic(auto, unfolding(crate::specs::Reading::negative_value))]
fn negative(size: u64, rest: &[u8]) -> Option<(Datum, &[u8])>
    ensures { option_map (λ x. (x.0, x.1.now)) result ≡ negative_value (size, rest.now) }
{
    if size == 0 || size > LEAST {
        return None;
    }
    Some((Datum::Int(-((size - 1) as i64) - 1), rest))
}

#[tactic(auto, unfolding(crate::specs::Reading::int_at))]
fn int(bytes: &[u8]) -> Option<(Datum, &[u8])>
    ensures { option_map (λ x. (x.0, x.1.now)) result ≡ int_at bytes.now }
{
    match bytes {
        [] => None,
        [b'-', digits @ ..] => {
            let (size, rest) = number(digits)?;
            negative(size, rest)
        }
        [_, ..] => {
            let (size, rest) = number(bytes)?;
            natural(size, rest)
        }
    }
}

#[tactic(auto, unfolding(crate::specs::Reading::bool_at))]
fn truth(bytes: &[u8]) -> Option<(Datum, &[u8])>
    ensures { option_map (λ x. (x.0, x.1.now)) result ≡ bool_at bytes.now }
{
    if let Some(rest) = bytes.strip_prefix(b"true") {
        return Some((Datum::Bool(true), rest));
    }
    let rest = bytes.strip_prefix(b"false")?;
    Some((Datum::Bool(false), rest))
}

fn is_end(byte: u8) -> bool
    ensures { result ≡ is_end byte }
{
    byte == b',' || byte == b'\n'
}

/// Where the next comma or line feed stands, if there is one.
fn field_end(bytes: &[u8]) -> Option<usize>
    ensures first { result ≡ position is_end bytes.now }
    ensures within { IfSome result (λ i. i < length bytes.now) }
{
    bytes.iter().position(|b| is_end(*b))
}

/// How many bytes stand before the next comma or line feed.
fn field_length(bytes: &[u8]) -> usize
    ensures length { result ≡ field_length bytes.now }
    ensures within { result ≤ length bytes.now }
{
    match field_end(bytes) {
        Some(end) => end,
        None => bytes.len(),
    }
}

/// The number of the first of these names that is spelled so.
fn number_of(names: &[Name], word: &[u8]) -> Option<usize>
    ensures { result ≡ position (λ name. bytes_eq name word.now) names.now }
{
    names
        .iter()
        .position(|name| name.as_str().as_bytes() == word)
}

/// The field at the front, where it is one of the first so many of these names, and what follows it.
#[tactic(auto, unfolding(crate::specs::Reading::name_at))]
fn name<'a>(names: &[Name], size: u8, bytes: &'a [u8]) -> Option<(Datum, &'a [u8])>
    ensures { option_map (λ x. (x.0, x.1.now)) result ≡ name_at names.now size bytes.now }
{
    let (word, rest) = bytes.split_at(field_length(bytes));
    let number = number_of(names, word)?;
    if number < size as usize {
        Some((Datum::Name(number as u8), rest))
    } else {
        None
    }
}

/// The value of this type at the front, in a program with these types, and what follows it.
pub fn value<'a>(types: &[Enum], kind: Kind, bytes: &'a [u8]) -> Option<(Datum, &'a [u8])>
    ensures { option_map (λ x. (x.0, x.1.now)) result
        ≡ value_at (sort_of types.now kind) bytes.now }
{
    match kind {
        Kind::Int => int(bytes),
        Kind::Bool => truth(bytes),
        Kind::Enum(_, size) => name(names_of(types, kind), size, bytes),
    }
}
