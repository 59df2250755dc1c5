//! The sites that a value of a placement's table names.

ghost use Rattle.std.specs.Prelude.{◌≡◌, [], ◌∷◌, IfOk};
ghost use Rattle.toml.specs.View.{view, items_view};
ghost use Rattle.luplace_file.specs.Answers.{Gives, or_bad_key};
ghost use Rattle.luplace_file.specs.Keys.{texts_in, some_texts_in, version_of, may_have_arrays, choice_in};

use crate::error::PlaceError;
use lubase::{Name, Row};
use std::alloc::{AllocError, Global};
use toml::Value;

/// The version that a file says it has.
#[derive(Clone, Copy)]
pub enum Version {
    /// One site in each value.
    One,
    /// One site or several in each value.
    Two,
    /// None that is read. Its values may have several sites, so that this alone is reported of it.
    Other,
}

/// The names that the texts of an array are.
fn texts_in(alloc: Global, values: &[Value]) -> Result<Row<Name>, PlaceError>
    ensures { Gives (or_bad_key (texts_in (items_view values.now))) result }
{
    let mut texts = Vec::new(alloc);
    for value in values {
        let Some(text) = value.as_str() else {
            return Err(PlaceError::BadKey);
        };
        texts.push(Name::from_text(alloc, text)?)?;
    }
    Ok(Row::new(texts))
}

/// The texts of an array that isn't empty.
fn some_texts_in(alloc: Global, values: &[Value]) -> Result<Row<Name>, PlaceError>
    ensures { Gives (or_bad_key (some_texts_in (items_view values.now))) result }
{
    if values.is_empty() {
        return Err(PlaceError::BadKey);
    }
    texts_in(alloc, values)
}

/// The row of one name.
fn one_name(alloc: Global, text: &str) -> Result<Row<Name>, AllocError>
    ensures { IfOk result (λ names. names ≡ text.now ∷ []) }
{
    let mut names = Vec::with_capacity(alloc, 1)?;
    names.push(Name::from_text(alloc, text)?)?;
    Ok(Row::new(names))
}

/// The version that a number is.
pub fn version_of(number: i64) -> Version
    ensures { result ≡ version_of number }
{
    if number == 1 {
        Version::One
    } else if number == 2 {
        Version::Two
    } else {
        Version::Other
    }
}

/// Whether the values of a file may be arrays.
fn may_have_arrays(version: Version) -> bool
    ensures { result ≡ may_have_arrays version }
{
    match version {
        Version::One => false,
        Version::Two => true,
        Version::Other => true,
    }
}

/// The sites that a value names, in a file of a version.
pub fn choice_in(alloc: Global, version: Version, value: &Value) -> Result<Row<Name>, PlaceError>
    ensures { Gives (or_bad_key (choice_in version (view value.now))) result }
{
    if let Some(text) = value.as_str() {
        return Ok(one_name(alloc, text)?);
    }
    match value.as_array() {
        Some(values) if may_have_arrays(version) => some_texts_in(alloc, values),
        _ => Err(PlaceError::BadKey),
    }
}
