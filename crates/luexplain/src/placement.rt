//! Placements: `P01` to `P08`.

ghost use Rattle.std.specs.Prelude.{IfOk};
ghost use Rattle.luexplain.specs.Texts.{IsExplainedSomewhere};

use crate::blame::{Blamed, Holder, blamed_in};
use crate::near::{FAR, are_apart};
use crate::said::{Explanation, Found, Said, reported_of, say, say_at};
use crate::sentences;
use crate::sought::{entry_in, key_in, text_behind};
use crate::unread::said_of_order;
use crate::words::Part;
use lubase::limits::{LONGEST_PLACEMENT, MOST_SITES};
use luplace_file::PlaceError;
use lutree::Program;
use std::alloc::{AllocError, Global};
use std::str;
use toml::Table;

/// Where what names sites stands.
fn holder_byte(text: &[u8], holder: Holder) -> Option<usize> {
    match holder {
        Holder::Key(key) => key_in(text, key),
        Holder::Entry(key) => entry_in(text, key),
    }
}

/// Where what is refused stands.
fn byte_of(text: &[u8], blamed: Blamed) -> Option<usize> {
    match blamed {
        Blamed::Unknown(key) | Blamed::Outside(key) | Blamed::Value(key) => key_in(text, key),
        Blamed::Entry(key) | Blamed::Inside(key) | Blamed::Variable(key, _) => entry_in(text, key),
        Blamed::Version => key_in(text, "version"),
        Blamed::Capacity => key_in(text, "capacity"),
        Blamed::Sites(_) => key_in(text, "sites"),
        Blamed::Unplaced(_) => key_in(text, "place"),
        Blamed::BadName(name) => Some(text_behind(text, key_in(text, "sites")?, name)),
        Blamed::Foreign(holder, name, _) => {
            Some(text_behind(text, holder_byte(text, holder)?, name))
        }
        Blamed::Twice(holder, name) => {
            let first = text_behind(text, holder_byte(text, holder)?, name);
            Some(text_behind(text, first, name))
        }
        Blamed::Apart(first, second) => match entry_in(text, second) {
            None => entry_in(text, first),
            found => found,
        },
        Blamed::NoSites | Blamed::Nothing => None,
    }
}

/// The key of a placement that is spelled nearly so.
fn near_key(key: &str) -> Option<&'static str> {
    for letters in 1..FAR {
        for known in ["version", "sites", "capacity", "default", "place"] {
            if are_apart(known, key, letters) {
                return Some(known);
            }
        }
    }
    None
}

/// What is said of names of sites that are refused, and of other things by the rule alone.
fn said_of_sites<'a>(
    alloc: Global,
    error: &PlaceError,
    blamed: Blamed<'a>,
) -> Result<Said, AllocError> {
    match blamed {
        Blamed::BadName(name) => say(alloc, sentences::BAD_SITE_NAME, &[Part::Name(name)]),
        Blamed::Twice(Holder::Key(key), name) => say(
            alloc,
            sentences::TWICE_IN_KEY,
            &[Part::Name(name), Part::Name(key)],
        ),
        Blamed::Twice(Holder::Entry(key), name) => say(
            alloc,
            sentences::TWICE_IN_ENTRY,
            &[Part::Name(name), Part::Name(key)],
        ),
        Blamed::Foreign(_, name, near) => say(
            alloc,
            sentences::NO_SITE,
            &[Part::Name(name), Part::Near(near)],
        ),
        Blamed::Sites(count) => say(
            alloc,
            sentences::SITE_COUNT,
            &[
                Part::Count(count, sentences::SITE),
                Part::Number(MOST_SITES),
            ],
        ),
        _ => say(alloc, sentences::of_place_alone(error), &[]),
    }
}

/// What is said of what is refused.
fn said_of_blamed<'a>(
    alloc: Global,
    main: &'a str,
    error: &PlaceError,
    blamed: Blamed<'a>,
) -> Result<Said, AllocError> {
    match blamed {
        Blamed::Unknown(key) => say(
            alloc,
            sentences::NO_KEY,
            &[Part::Name(key), Part::Near(near_key(key))],
        ),
        Blamed::Outside(key) => say(alloc, sentences::OUTSIDE_PLACE, &[Part::Name(key)]),
        Blamed::Inside(key) => say(alloc, sentences::INSIDE_PLACE, &[Part::Name(key)]),
        Blamed::NoSites => say(alloc, sentences::NO_SITES, &[]),
        Blamed::Value(key) => say(alloc, sentences::of_value(key), &[Part::Name(key)]),
        Blamed::Entry(key) => say(alloc, sentences::BAD_ENTRY, &[Part::Name(key)]),
        Blamed::Version => say(alloc, sentences::NO_VERSION, &[]),
        Blamed::Capacity => say(alloc, sentences::CAPACITY_OUT_OF_RANGE, &[]),
        Blamed::Variable(name, near) => say(
            alloc,
            sentences::NO_VARIABLE_OF_MAIN,
            &[Part::Name(name), Part::Name(main), Part::Near(near)],
        ),
        Blamed::Unplaced(name) => say(alloc, sentences::NO_ENTRY, &[Part::Name(name)]),
        Blamed::Apart(first, second) => say(
            alloc,
            sentences::APART,
            &[Part::Name(first), Part::Name(second)],
        ),
        _ => said_of_sites(alloc, error, blamed),
    }
}

/// What is said of a text that is no TOML.
fn said_of_text(alloc: Global, e: &toml::de::Error) -> Result<Found, AllocError> {
    let byte = match e.span() {
        Some(span) => span.start,
        None => 0,
    };
    let message = Part::Words(e.message());
    say_at(alloc, byte, sentences::NOT_TOML_FROM_HERE, &[message])
}

/// What is said of a placement by its table.
fn said_of_table<'a>(
    alloc: Global,
    text: &[u8],
    table: &'a Table,
    program: &'a Program,
    main: &'a str,
    error: &PlaceError,
) -> Result<Found, AllocError> {
    let blamed = blamed_in(alloc, table, program, main, error)?;
    let said = said_of_blamed(alloc, main, error, blamed)?;
    Ok(Found {
        byte: byte_of(text, blamed),
        said,
    })
}

/// What is said of a placement in UTF-8.
fn found_in(
    alloc: Global,
    source: &str,
    program: &Program,
    main: &str,
    error: &PlaceError,
) -> Result<Found, AllocError> {
    match (toml::table_from_str(alloc, source), error) {
        (Ok(table), _) => said_of_table(alloc, source.as_bytes(), &table, program, main, error),
        (Err(e), PlaceError::NotToml) => said_of_text(alloc, &e),
        _ => Ok(Found {
            byte: None,
            said: say(alloc, sentences::of_place_alone(error), &[])?,
        }),
    }
}

/// What is said of a placement that is refused.
fn found_at(
    alloc: Global,
    text: &[u8],
    program: &Program,
    main: &str,
    error: &PlaceError,
) -> Result<Found, AllocError> {
    let said = match str::from_utf8(text) {
        Ok(source) if source.len() > LONGEST_PLACEMENT => say(
            alloc,
            sentences::LONG_PLACEMENT,
            &[Part::Number(source.len()), Part::Number(LONGEST_PLACEMENT)],
        )?,
        Ok(source) => return found_in(alloc, source, program, main, error),
        Err(_) => say(alloc, sentences::of_place_alone(error), &[])?,
    };
    Ok(Found { byte: None, said })
}

/// What a user reads about a placement that is refused: its place, what is wrong, and how to mend it. `text`
/// is the text of the file of this path, `program` is the program whose variables it places, and `main` the
/// name of the main node.
///
/// # Errors
///
/// An error means that memory ran out.
pub fn of_place(
    alloc: Global,
    path: &str,
    text: &[u8],
    program: &Program,
    main: &str,
    error: &PlaceError,
) -> Result<Explanation, AllocError>
    ensures { IfOk result (IsExplainedSomewhere path.now text.now) }
{
    let found = match said_of_order(alloc, path, "PLACE")? {
        Some(said) => Found { byte: None, said },
        None => found_at(alloc, text, program, main, error)?,
    };
    reported_of(alloc, path, text, found)
}
