//! Lists of values, of one type and mixed.

ghost use Rattle.std.specs.Prelude.{◌≤◌, length};
ghost use Rattle.luflow.specs.Packed.{data_in};

use luflow::{Datum, Values};
use lutree::Kind;
use std::alloc::{AllocError, Global};
use std::test::Fail;

const KINDS: &[Kind] = &[Kind::Int, Kind::Bool, Kind::Enum(0, 3)];

const LISTS: &[&[Datum]] = &[
    &[],
    &[
        Datum::Int(-9223372036854775808),
        Datum::Int(0),
        Datum::Int(9223372036854775807),
    ],
    &[Datum::Bool(true), Datum::Bool(false)],
    &[Datum::Name(0), Datum::Name(255)],
    &[Datum::Nil],
    &[Datum::Int(1), Datum::Bool(true), Datum::Int(2)],
    &[Datum::Name(1), Datum::Nil, Datum::Name(2)],
];

/// The list of these values, made one by one from an empty one of this type.
fn pushed(alloc: Global, kind: Kind, list: &[Datum]) -> Result<Values, AllocError> {
    let mut values = Values::new(alloc, kind, 1)?;
    for datum in list {
        values.push(*datum)?;
    }
    Ok(values)
}

/// Whether a list has these values, and no more.
fn is_list(values: &Values, list: &[Datum]) -> bool {
    for i in 0..list.len() {
        match values.get(i) {
            Some(datum) if datum == list[i] => (),
            _ => return false,
        }
    }
    values.len() == list.len() && values.get(list.len()).is_none()
}

/// Whether the first values of a list, so many, are these.
fn begins(alloc: Global, values: &Values, list: &[Datum]) -> Result<bool, AllocError> {
    if values.len() < list.len() {
        return Ok(false);
    }
    Ok(is_list(&values.first(alloc, list.len())?, list))
}

/// Whether a list made so has its values, in whichever way they are read.
fn is_kept(alloc: Global, kind: Kind, list: &[Datum]) -> Result<bool, AllocError> {
    let values = pushed(alloc, kind, list)?;
    for count in 0..list.len() {
        if !begins(alloc, &values, &list[..count])? {
            return Ok(false);
        }
    }
    Ok(is_list(&values, list) && values.to_vec(alloc)?.as_slice() == list)
}

#[test]
fn values_are_kept(rt: HostRuntime) -> Result<(), Fail> {
    for kind in KINDS {
        for list in LISTS {
            assert!(rt; is_kept(rt.alloc(), *kind, *list)?, "{kind:?} {list:?}");
        }
    }
    Ok(())
}

/// Whether a list of numbers, one of truth values and one of names are what these made.
fn are_packed(numbers: &Values, truths: &Values, names: &Values) -> bool {
    match (numbers, truths, names) {
        (Values::Numbers(_), Values::Truths(_), Values::Names(_)) => true,
        _ => false,
    }
}

#[test]
fn lists_of_one_type_are_packed(rt: HostRuntime) -> Result<(), Fail> {
    let numbers = pushed(rt.alloc(), Kind::Int, LISTS[1])?;
    let truths = pushed(rt.alloc(), Kind::Bool, LISTS[2])?;
    let names = pushed(rt.alloc(), Kind::Enum(0, 3), LISTS[3])?;
    assert!(rt; are_packed(&numbers, &truths, &names));
    Ok(())
}
