//! Rows, names and numbers.

use lubase::{Name, Number, Row};
use std::alloc::{AllocError, Global};

const GREATEST: u64 = 9_223_372_036_854_775_807;

fn is_row(alloc: Global) -> Result<bool, AllocError> {
    let row = Row::new(vec![in alloc; 3, 1, 2]?);
    Ok(row.as_slice() == [3, 1, 2].as_slice())
}

fn is_speed(name: &Name) -> bool {
    name.as_str() == "speed" && name.is("speed") && !name.is("speeds")
}

/// Whether a name and its copy are their text.
fn is_name(alloc: Global, name: &Name) -> Result<bool, AllocError> {
    Ok(is_speed(name) && is_speed(&name.copied(alloc)?))
}

/// Whether a name that is made of a text and its copy are that text.
fn is_named(alloc: Global) -> Result<bool, AllocError> {
    let name = Name::new(String::from_str(alloc, "speed")?);
    is_name(alloc, &name)
}

fn is_nothing(alloc: Global) -> Result<bool, AllocError> {
    Ok(Name::from_text(alloc, "")?.as_str() == "")
}

#[test]
fn rows_and_names_have_what_they_are_made_of(rt: HostRuntime) {
    assert!(rt; is_row(rt.alloc()).unwrap_or(false));
    assert!(rt; is_named(rt.alloc()).unwrap_or(false));
    assert!(rt; is_nothing(rt.alloc()).unwrap_or(false));
}

#[test]
fn a_number_has_its_value(rt: HostRuntime) {
    assert!(rt; Number::new(7).map(|n| n.value()) == Some(7));
    assert!(rt; Number::new(GREATEST).map(|n| n.value()) == Some(GREATEST));
    assert!(rt; Number::new(GREATEST + 1).is_none());
    assert!(rt; Number::from(7).value() == 7);
    assert!(rt; Number::at_most(8).value() == 8);
    assert!(rt; Number::at_most(GREATEST + 1).value() == GREATEST);
}
