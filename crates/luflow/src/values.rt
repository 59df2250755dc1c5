//! Lists of values in as few bytes as their type allows.

ghost use Rattle.std.specs.Prelude.{◌≡◌, ◌≤◌, ◌++◌, ◌∷◌, [], IfOk, OnOk, OnErr, length, map, slice_get, take, if◌then◌else◌};
ghost use Rattle.luflow.specs.declared.data.Datum.TheVariants.{Int, Bool, Name};
ghost use Rattle.luflow.specs.Packed.{data_in};

use crate::data::Datum;
use lutree::Kind;
use std::alloc::{AllocError, Global};

/// A list of values in order. Lists of one type take fewer bytes. A contract reads the values by `data_in` of
/// `specs/Packed.antt`.
#[derive(Debug)]
pub enum Values {
    /// Whole numbers, 8 bytes each.
    Numbers(Vec<i64>),
    /// Truth values, one byte each.
    Truths(Vec<bool>),
    /// Names of an enumeration by their numbers, one byte each.
    Names(Vec<u8>),
    /// Any values, nil too, 16 bytes each.
    Mixed(Vec<Datum>),
}

// By hand, so that it is proved here alone, and not in each crate that owns one.
impl Drop for Values {
    fn drop(self) {
        match self {
            Self::Numbers(_) | Self::Truths(_) | Self::Names(_) | Self::Mixed(_) => {}
        }
    }
}

/// Adds a value at the end of a list that can hold it. Answers whether it can.
fn put(values: &mut Values, datum: Datum) -> Result<bool, AllocError>
    ensures ok { IfOk result (λ b. data_in values.new
        ≡ (if b then data_in values.old ++ datum ∷ [] else data_in values.old)) }
    ensures err { OnErr result (data_in values.new ≡ data_in values.old) }
{
    match (values, datum) {
        (Values::Numbers(numbers), Datum::Int(z)) => numbers.push(z)?,
        (Values::Truths(truths), Datum::Bool(b)) => truths.push(b)?,
        (Values::Names(names), Datum::Name(k)) => names.push(k)?,
        (Values::Mixed(mixed), _) => mixed.push(datum)?,
        _ => return Ok(false),
    }
    Ok(true)
}

fn allocator_of(values: &Values) -> Global {
    match values {
        Values::Numbers(numbers) => *numbers.allocator(),
        Values::Truths(truths) => *truths.allocator(),
        Values::Names(names) => *names.allocator(),
        Values::Mixed(mixed) => *mixed.allocator(),
    }
}

fn numbers_of(alloc: Global, numbers: &[i64]) -> Result<Vec<Datum>, AllocError>
    ensures { IfOk result (λ v. v.items ≡ map Int numbers.now) }
{
    numbers.iter().map(|z| Datum::Int(*z)).collect(alloc)
}

fn truths_of(alloc: Global, truths: &[bool]) -> Result<Vec<Datum>, AllocError>
    ensures { IfOk result (λ v. v.items ≡ map Bool truths.now) }
{
    truths.iter().map(|b| Datum::Bool(*b)).collect(alloc)
}

fn names_of(alloc: Global, names: &[u8]) -> Result<Vec<Datum>, AllocError>
    ensures { IfOk result (λ v. v.items ≡ map Name names.now) }
{
    names.iter().map(|k| Datum::Name(*k)).collect(alloc)
}

impl Values {
    /// No values, with room for so many of a type.
    ///
    /// # Errors
    ///
    /// `AllocError` where memory ran out.
    pub fn new(alloc: Global, kind: Kind, room: usize) -> Result<Values, AllocError>
        ensures { IfOk result (λ x. data_in x ≡ []) }
    {
        match kind {
            Kind::Int => Ok(Values::Numbers(Vec::with_capacity(alloc, room)?)),
            Kind::Bool => Ok(Values::Truths(Vec::with_capacity(alloc, room)?)),
            Kind::Enum(_, _) => Ok(Values::Names(Vec::with_capacity(alloc, room)?)),
        }
    }

    /// How many values there are. Takes no memory.
    pub fn len(&self) -> usize
        ensures { result ≡ length (data_in self.now) }
    {
        match self {
            Values::Numbers(numbers) => numbers.len(),
            Values::Truths(truths) => truths.len(),
            Values::Names(names) => names.len(),
            Values::Mixed(mixed) => mixed.len(),
        }
    }

    /// The value of this number, counted from 0. None exactly where there are no more than so many. Takes no
    /// memory.
    #[inline]
    pub fn get(&self, i: usize) -> Option<Datum>
        ensures { result ≡ slice_get (data_in self.now) i }
    {
        match self {
            Values::Numbers(numbers) if i < numbers.len() => Some(Datum::Int(numbers[i])),
            Values::Truths(truths) if i < truths.len() => Some(Datum::Bool(truths[i])),
            Values::Names(names) if i < names.len() => Some(Datum::Name(names[i])),
            Values::Mixed(mixed) if i < mixed.len() => Some(mixed[i]),
            _ => None,
        }
    }

    /// All values, 16 bytes each.
    ///
    /// # Errors
    ///
    /// `AllocError` where memory ran out.
    pub fn to_vec(&self, alloc: Global) -> Result<Vec<Datum>, AllocError>
        ensures { IfOk result (λ v. v.items ≡ data_in self.now) }
    {
        match self {
            Values::Numbers(numbers) => numbers_of(alloc, numbers),
            Values::Truths(truths) => truths_of(alloc, truths),
            Values::Names(names) => names_of(alloc, names),
            Values::Mixed(mixed) => Vec::from_slice(alloc, mixed.as_slice()),
        }
    }

    /// The first values, so many.
    ///
    /// # Errors
    ///
    /// `AllocError` where memory ran out.
    pub fn first(&self, alloc: Global, count: usize) -> Result<Values, AllocError>
        requires { count ≤ length (data_in self.now) }
        ensures { IfOk result (λ x. data_in x ≡ take count (data_in self.now)) }
    {
        match self {
            Values::Numbers(numbers) => {
                Ok(Values::Numbers(Vec::from_slice(alloc, &numbers[..count])?))
            }
            Values::Truths(truths) => {
                Ok(Values::Truths(Vec::from_slice(alloc, &truths[..count])?))
            }
            Values::Names(names) => Ok(Values::Names(Vec::from_slice(alloc, &names[..count])?)),
            Values::Mixed(mixed) => Ok(Values::Mixed(Vec::from_slice(alloc, &mixed[..count])?)),
        }
    }

    /// Adds a value at the end. A list that can't hold it becomes one of 16 bytes a value.
    ///
    /// # Errors
    ///
    /// `AllocError` where memory ran out; the list is as before.
    #[inline]
    pub fn push(&mut self, datum: Datum) -> Result<(), AllocError>
        ensures ok { OnOk result (data_in self.new ≡ data_in self.old ++ datum ∷ []) }
        ensures err { OnErr result (data_in self.new ≡ data_in self.old) }
    {
        if put(self, datum)? {
            return Ok(());
        }
        let mut all = self.to_vec(allocator_of(self))?;
        all.push(datum)?;
        *self = Values::Mixed(all);
        Ok(())
    }
}
