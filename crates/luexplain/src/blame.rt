//! What of a placement is refused, in the order in which a placement is looked at.

use crate::find::node_named;
use crate::naming::near_variable;
use crate::near::{FAR, are_apart};
use lubase::Places;
use lubase::limits::{LONGEST_SITE_NAME, MOST_CAPACITY};
use luplace_file::PlaceError;
use lustat_rules::Scope;
use lutree::{Node, Program};
use std::alloc::{AllocError, Global};
use toml::{Table, Value};

/// What names sites: the value of a key, `sites` or `default`, or an entry of `place`.
#[derive(Clone, Copy)]
pub(crate) enum Holder<'a> {
    Key(&'a str),
    Entry(&'a str),
}

/// What of a placement is refused.
#[derive(Clone, Copy)]
pub(crate) enum Blamed<'a> {
    /// A key that a placement hasn't.
    Unknown(&'a str),
    /// A variable of the main node that stands outside of `place`.
    Outside(&'a str),
    /// A key of the placement that stands in `place`.
    Inside(&'a str),
    /// There are no `sites`.
    NoSites,
    /// The value of a key is of the wrong kind.
    Value(&'a str),
    /// The value of an entry is of the wrong kind.
    Entry(&'a str),
    /// A text in `sites` that is no name of a site.
    BadName(&'a str),
    /// What names this site twice.
    Twice(Holder<'a>, &'a str),
    /// What names this site, which isn't one of `sites`, and one of these that is spelled nearly so.
    Foreign(Holder<'a>, &'a str, Option<&'a str>),
    /// The version is none.
    Version,
    /// The capacity is out of range.
    Capacity,
    /// There are so many sites.
    Sites(usize),
    /// An entry that is no variable of the main node, and a variable that is spelled nearly so.
    Variable(&'a str, Option<&'a str>),
    /// A variable without a site.
    Unplaced(&'a str),
    /// Two variables of one call at different sites.
    Apart(&'a str, &'a str),
    /// Nothing that is known.
    Nothing,
}

/// The whole number that a key has.
fn number_at(table: &Table, key: &str) -> Option<i64> {
    table.get(key)?.as_integer()
}

/// Whether a key has a whole number, or nothing.
fn is_number(table: &Table, key: &str) -> bool {
    match table.get(key) {
        Some(value) => value.as_integer().is_some(),
        None => true,
    }
}

/// The entries of `place`.
fn entries_of(table: &Table) -> Option<&Table> {
    table.get("place")?.as_table()
}

fn is_key(key: &str) -> bool {
    key == "version" || key == "sites" || key == "default" || key == "capacity" || key == "place"
}

/// Whether a site may have the name.
fn is_site_name(name: &[u8]) -> bool {
    for byte in name {
        if !byte.is_ascii_alphanumeric() && *byte != b'_' {
            return false;
        }
    }
    match name {
        [first, ..] => !first.is_ascii_digit() && name.len() <= LONGEST_SITE_NAME,
        [] => false,
    }
}

/// Where there are no `sites`: that they stand in `place`, or nowhere.
fn no_sites(table: &Table) -> Blamed<'_> {
    match entries_of(table) {
        Some(entries) if entries.get("sites").is_some() => Blamed::Inside("sites"),
        _ => Blamed::NoSites,
    }
}

/// What is wrong with `sites`.
fn bad_sites(table: &Table) -> Option<Blamed<'_>> {
    let Some(value) = table.get("sites") else {
        return Some(no_sites(table));
    };
    let Some(values) = value.as_array() else {
        return Some(Blamed::Value("sites"));
    };
    for value in values {
        let Some(name) = value.as_str() else {
            return Some(Blamed::Value("sites"));
        };
        if !is_site_name(name.as_bytes()) {
            return Some(Blamed::BadName(name));
        }
    }
    None
}

/// Whether a value names sites.
fn is_choice(value: &Value, with_arrays: bool) -> bool {
    if value.as_str().is_some() {
        return true;
    }
    let Some(values) = value.as_array() else {
        return false;
    };
    for value in values {
        if value.as_str().is_none() {
            return false;
        }
    }
    with_arrays && !values.is_empty()
}

/// The first key of the placement in `place` whose value is no variable's.
fn inside(entries: &Table, with_arrays: bool) -> Option<Blamed<'_>> {
    for (key, value) in entries {
        if is_key(key.as_str()) && !is_choice(value, with_arrays) {
            return Some(Blamed::Inside(key.as_str()));
        }
    }
    None
}

/// What is wrong with `place`.
fn bad_place(table: &Table, with_arrays: bool) -> Option<Blamed<'_>> {
    let Some(entries) = table.get("place")?.as_table() else {
        return Some(Blamed::Value("place"));
    };
    if let Some(found) = inside(entries, with_arrays) {
        return Some(found);
    }
    for (key, value) in entries {
        if !is_choice(value, with_arrays) {
            return Some(Blamed::Entry(key.as_str()));
        }
    }
    None
}

/// `P02`
fn bad_key(table: &Table) -> Blamed<'_> {
    for (key, _) in table {
        if !is_key(key.as_str()) {
            return Blamed::Unknown(key.as_str());
        }
    }
    if !is_number(table, "version") {
        return Blamed::Value("version");
    }
    if let Some(found) = bad_sites(table) {
        return found;
    }
    let with_arrays = number_at(table, "version").unwrap_or(1) != 1;
    if let Some(value) = table.get("default") {
        if !is_choice(value, with_arrays) {
            return Blamed::Value("default");
        }
    }
    if !is_number(table, "capacity") {
        return Blamed::Value("capacity");
    }
    bad_place(table, with_arrays).unwrap_or(Blamed::Nothing)
}

/// `P07` of a text that isn't too long.
fn out_of_range(table: &Table) -> Blamed<'_> {
    let version = number_at(table, "version").unwrap_or(1);
    if version != 1 && version != 2 {
        return Blamed::Version;
    }
    let capacity = number_at(table, "capacity").unwrap_or(1);
    if capacity < 1 || capacity > i64::from(MOST_CAPACITY) {
        return Blamed::Capacity;
    }
    match table.get("sites") {
        Some(value) => match value.as_array() {
            Some(values) => Blamed::Sites(values.len()),
            None => Blamed::Sites(0),
        },
        None => Blamed::Sites(0),
    }
}

/// The first of some texts that stands before too, by the table of them.
fn second_text<'a>(places: &Places, values: &'a [Value]) -> Option<&'a str> {
    for (i, value) in values.iter().enumerate() {
        let name = value.as_str().unwrap_or("");
        if places.find(name) != Some(i) {
            return Some(name);
        }
    }
    None
}

/// The first name that stands twice in a value.
fn twice_in(alloc: Global, value: &Value) -> Result<Option<&str>, AllocError> {
    let Some(values) = value.as_array() else {
        return Ok(None);
    };
    let mut texts = Vec::new(alloc);
    for value in values {
        texts.push(value.as_str().unwrap_or(""))?;
    }
    let places = Places::new(alloc, texts)?;
    Ok(second_text(&places, values))
}

/// `P06`
fn twice(alloc: Global, table: &Table) -> Result<Blamed<'_>, AllocError> {
    if let Some(value) = table.get("sites") {
        if let Some(name) = twice_in(alloc, value)? {
            return Ok(Blamed::Twice(Holder::Key("sites"), name));
        }
    }
    if let Some(value) = table.get("default") {
        if let Some(name) = twice_in(alloc, value)? {
            return Ok(Blamed::Twice(Holder::Key("default"), name));
        }
    }
    if let Some(entries) = entries_of(table) {
        for (key, value) in entries {
            if let Some(name) = twice_in(alloc, value)? {
                return Ok(Blamed::Twice(Holder::Entry(key.as_str()), name));
            }
        }
    }
    Ok(Blamed::Nothing)
}

/// The texts of a value as a slice of values: of an array its own, of another the value alone.
fn values_of(value: &Value) -> &[Value] {
    match value.as_array() {
        Some(values) => values,
        None => std::slice::from_ref(value),
    }
}

/// Whether a name is one of these texts.
fn is_among(values: &[Value], name: &str) -> bool {
    for value in values {
        if value.as_str() == Some(name) {
            return true;
        }
    }
    false
}

/// The first of some names that isn't one of `sites`.
fn foreign_among<'a>(sites: &[Value], values: &'a [Value]) -> Option<&'a str> {
    for value in values {
        let name = value.as_str().unwrap_or("");
        if !is_among(sites, name) {
            return Some(name);
        }
    }
    None
}

/// The one of `sites` that is spelled nearly as a name.
fn near_site<'a>(sites: &'a [Value], name: &str) -> Option<&'a str> {
    for letters in 1..FAR {
        for value in sites {
            let site = value.as_str().unwrap_or("");
            if are_apart(site, name, letters) {
                return Some(site);
            }
        }
    }
    None
}

/// `P03`: a name in `default` or in `place` that isn't one of `sites`.
fn foreign(table: &Table) -> Option<Blamed<'_>> {
    let sites = values_of(table.get("sites")?);
    if let Some(value) = table.get("default") {
        if let Some(name) = foreign_among(sites, values_of(value)) {
            let near = near_site(sites, name);
            return Some(Blamed::Foreign(Holder::Key("default"), name, near));
        }
    }
    for (key, value) in entries_of(table)? {
        if let Some(name) = foreign_among(sites, values_of(value)) {
            let near = near_site(sites, name);
            return Some(Blamed::Foreign(Holder::Entry(key.as_str()), name, near));
        }
    }
    None
}

/// `P04`
fn unknown_variable<'a>(table: &'a Table, scope: &Scope<'a>) -> Option<Blamed<'a>> {
    for (key, _) in entries_of(table)? {
        let name = key.as_str();
        if scope.place(name).is_none() {
            if is_key(name) {
                return Some(Blamed::Inside(name));
            }
            return Some(Blamed::Variable(name, near_variable(scope, name)));
        }
    }
    None
}

/// What a variable's entry has.
fn entry_of<'a>(table: &'a Table, name: &str) -> Option<&'a Value> {
    entries_of(table)?.get(name)
}

/// `P05`
fn unplaced<'a>(table: &Table, scope: &Scope<'a>) -> Option<Blamed<'a>> {
    for declared in scope.declarations() {
        let name = declared.name.as_str();
        if entry_of(table, name).is_none() {
            return Some(Blamed::Unplaced(name));
        }
    }
    None
}

/// What says where a variable stands: one value, or several in an array.
fn sites_of<'a>(table: &'a Table, name: &str) -> Option<&'a [Value]> {
    match entry_of(table, name) {
        Some(value) => Some(values_of(value)),
        None => Some(values_of(table.get("default")?)),
    }
}

/// Whether two variables stand at the same sites.
fn are_together(table: &Table, first: &str, second: &str) -> bool {
    let (Some(a), Some(b)) = (sites_of(table, first), sites_of(table, second)) else {
        return true;
    };
    foreign_among(b, a).is_none() && foreign_among(a, b).is_none()
}

/// `P08`: a variable that stands elsewhere than the first of its equation.
fn apart<'a>(table: &Table, node: &'a Node) -> Option<Blamed<'a>> {
    for equation in node.equations.as_slice() {
        if let [first, others @ ..] = equation.left.as_slice() {
            for x in others {
                if !are_together(table, first.as_str(), x.as_str()) {
                    return Some(Blamed::Apart(first.as_str(), x.as_str()));
                }
            }
        }
    }
    None
}

/// `P02`, by the scope of the main node.
fn bad_key_by<'a>(table: &'a Table, scope: &Scope) -> Blamed<'a> {
    match bad_key(table) {
        Blamed::Unknown(key) if scope.place(key).is_some() => Blamed::Outside(key),
        blamed => blamed,
    }
}

/// `P02`, `P04`, `P05` and `P08`, by the scope of the main node.
fn blamed_by<'a>(table: &'a Table, scope: &Scope<'a>, error: &PlaceError) -> Blamed<'a> {
    let found = match error {
        PlaceError::BadKey => Some(bad_key_by(table, scope)),
        PlaceError::UnknownVariable => unknown_variable(table, scope),
        PlaceError::Unplaced => unplaced(table, scope),
        _ => apart(table, scope.node()),
    };
    found.unwrap_or(Blamed::Nothing)
}

/// `P02`, `P04`, `P05` and `P08`, by the main node.
fn blamed_in_node<'a>(
    alloc: Global,
    table: &'a Table,
    node: &'a Node,
    error: &PlaceError,
) -> Result<Blamed<'a>, AllocError> {
    let scope = Scope::new(alloc, node)?;
    Ok(blamed_by(table, &scope, error))
}

/// What of a placement is refused, by its table and the main node.
pub(crate) fn blamed_in<'a>(
    alloc: Global,
    table: &'a Table,
    program: &'a Program,
    main: &str,
    error: &PlaceError,
) -> Result<Blamed<'a>, AllocError> {
    match error {
        PlaceError::OutOfRange => Ok(out_of_range(table)),
        PlaceError::DuplicateSite => twice(alloc, table),
        PlaceError::UnknownSite => Ok(foreign(table).unwrap_or(Blamed::Nothing)),
        PlaceError::NotToml | PlaceError::OutOfMemory => Ok(Blamed::Nothing),
        _ => match (node_named(program, main), error) {
            (Some(node), _) => blamed_in_node(alloc, table, node, error),
            (None, PlaceError::BadKey) => Ok(bad_key(table)),
            (None, _) => Ok(Blamed::Nothing),
        },
    }
}
