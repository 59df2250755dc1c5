//! The keys of a placement's table and the kinds of their values.

ghost use Rattle.std.specs.Prelude.{◌≡◌, option_map, string_bytes};
ghost use Rattle.std.specs.List.{list_all};
ghost use Rattle.std.specs.BTreeMap.{keys};
ghost use Rattle.toml.specs.Data.{get_member};
ghost use Rattle.toml.specs.View.{view, items_view, table_view};
ghost use Rattle.luplace_file.specs.Answers.{Gives, or_bad_key};
ghost use Rattle.luplace_file.specs.Keys.{is_key, are_keys, name_in, names_in, entries_in, version_in, sites_in, default_in, capacity_in, place_in};
ghost use Rattle.luplace_file.specs.Draft.{draft_at, draft_of};

use crate::choice::{Version, choice_in, version_of};
use crate::error::PlaceError;
use crate::spelling::{is_key, is_site_name};
use lubase::limits::USUAL_CAPACITY;
use lubase::{Name, Row};
use std::alloc::Global;
use toml::{Table, Value};

/// A variable, and the names of the sites at which it is to stand.
pub struct Wanted {
    pub variable: Name,
    pub sites: Row<Name>,
}

// By hand, so that it is proved here alone, and not in each crate that owns one.
impl Drop for Wanted {
    fn drop(self) {
        let Self {
            variable: _,
            sites: _,
        } = self;
    }
}

/// What the keys say, before the rules on their values are tried.
#[derive(Drop)]
pub struct Draft {
    pub version: Version,
    pub sites: Row<Name>,
    /// Empty where the file gives no default.
    pub default: Row<Name>,
    pub capacity: i64,
    pub place: Row<Wanted>,
}

fn keys_are_known(table: &Table) -> bool
    ensures { result ≡ list_all (λ key. is_key (string_bytes key)) (keys table.now) }
{
    table.keys().all(|key| is_key(key.as_str()))
}

fn are_keys(table: &Table) -> bool
    ensures { result ≡ are_keys (table_view table.now) }
{
    keys_are_known(table)
}

fn value_at<'a>(table: &'a Table, key: &str) -> Option<&'a Value>
    ensures { option_map (λ value. view value.now) result
        ≡ get_member key.now (table_view table.now) }
{
    table.get(key)
}

/// The site name that a value is.
fn name_in(alloc: Global, value: &Value) -> Result<Name, PlaceError>
    ensures { Gives (or_bad_key (name_in (view value.now))) result }
{
    let Some(text) = value.as_str() else {
        return Err(PlaceError::BadKey);
    };
    if !is_site_name(text.as_bytes()) {
        return Err(PlaceError::BadKey);
    }
    Ok(Name::from_text(alloc, text)?)
}

/// The site names of an array.
fn names_in(alloc: Global, values: &[Value]) -> Result<Row<Name>, PlaceError>
    ensures { Gives (or_bad_key (names_in (items_view values.now))) result }
{
    let mut names = Vec::new(alloc);
    for value in values {
        names.push(name_in(alloc, value)?)?;
    }
    Ok(Row::new(names))
}

/// The sites that each value of a table names, with its key.
fn entries_in(alloc: Global, version: Version, table: &Table) -> Result<Row<Wanted>, PlaceError>
    ensures { Gives (or_bad_key (entries_in version (table_view table.now))) result }
{
    let mut entries = Vec::new(alloc);
    for (key, value) in table {
        let sites = choice_in(alloc, version, value)?;
        let variable = Name::from_text(alloc, key.as_str())?;
        entries.push(Wanted { variable, sites })?;
    }
    Ok(Row::new(entries))
}

fn version_in(value: Option<&Value>) -> Result<Version, PlaceError>
    ensures { Gives (or_bad_key (version_in (option_map (λ v. view v.now) value.entry))) result }
{
    let Some(value) = value else {
        return Ok(Version::One);
    };
    match value.as_integer() {
        Some(number) => Ok(version_of(number)),
        None => Err(PlaceError::BadKey),
    }
}

fn sites_in(alloc: Global, value: Option<&Value>) -> Result<Row<Name>, PlaceError>
    ensures { Gives (or_bad_key (sites_in (option_map (λ v. view v.now) value.entry))) result }
{
    let Some(value) = value else {
        return Err(PlaceError::BadKey);
    };
    match value.as_array() {
        Some(values) => names_in(alloc, values),
        None => Err(PlaceError::BadKey),
    }
}

fn default_in(
    alloc: Global,
    version: Version,
    value: Option<&Value>,
) -> Result<Row<Name>, PlaceError>
    ensures { Gives (or_bad_key (default_in version (option_map (λ v. view v.now) value.entry)))
        result }
{
    match value {
        Some(value) => choice_in(alloc, version, value),
        None => Ok(Row::new(Vec::new(alloc))),
    }
}

fn capacity_in(value: Option<&Value>) -> Result<i64, PlaceError>
    ensures { Gives (or_bad_key (capacity_in (option_map (λ v. view v.now) value.entry))) result }
{
    match value {
        Some(value) => value.as_integer().ok_or(PlaceError::BadKey),
        None => Ok(USUAL_CAPACITY as i64),
    }
}

fn place_in(
    alloc: Global,
    version: Version,
    value: Option<&Value>,
) -> Result<Row<Wanted>, PlaceError>
    ensures { Gives (or_bad_key (place_in version (option_map (λ v. view v.now) value.entry)))
        result }
{
    let Some(value) = value else {
        return Ok(Row::new(Vec::new(alloc)));
    };
    match value.as_table() {
        Some(table) => entries_in(alloc, version, table),
        None => Err(PlaceError::BadKey),
    }
}

/// What the keys of a file of a version say.
#[tactic(auto, unfolding(crate::specs::Draft::draft_at))]
fn draft_at(alloc: Global, version: Version, table: &Table) -> Result<Draft, PlaceError>
    ensures { Gives (or_bad_key (draft_at version (table_view table.now))) result }
{
    let sites = sites_in(alloc, value_at(table, "sites"))?;
    let default = default_in(alloc, version, value_at(table, "default"))?;
    let capacity = capacity_in(value_at(table, "capacity"))?;
    let place = place_in(alloc, version, value_at(table, "place"))?;
    Ok(Draft {
        version,
        sites,
        default,
        capacity,
        place,
    })
}

/// What the keys of the table say.
#[tactic(auto, unfolding(crate::specs::Draft::draft_of))]
pub fn draft_of(alloc: Global, table: &Table) -> Result<Draft, PlaceError>
    ensures { Gives (or_bad_key (draft_of (table_view table.now))) result }
{
    if !are_keys(table) {
        return Err(PlaceError::BadKey);
    }
    let version = version_in(value_at(table, "version"))?;
    draft_at(alloc, version, table)
}
