//! The way to an instance: what is known of the instances from the main one to it.

ghost use Rattle.std.specs.Prelude.{◌≡◌, ◌<◌, ◌-◌, ◌++◌, [], codes, length, slice_get, slice_index, IfOk};
ghost use Rattle.lusource.specs.Names.{name_at};
ghost use Rattle.luinside.specs.Passing.{prefix_at};

use crate::names::name_in;
use lubase::{Name, Row};
use std::alloc::{AllocError, Global};

/// An instance on the way to another.
#[derive(Drop)]
pub struct Level {
    /// What the names of its variables begin with.
    pub prefix: Name,
    /// The names of its calls, in order of their numbers.
    pub steps: Row<Name>,
}

/// What the names in the instance of a call begin with, given the level of the instance that makes it.
fn prefix_inside(alloc: Global, level: &Level, call: usize) -> Result<Name, AllocError>
    ensures { IfOk result (λ prefix. prefix ≡ level.now.prefix ++ (name_at level.now.steps call
        ++ codes ".")) }
{
    let before = level.prefix.as_str();
    let step = name_in(level.steps.as_slice(), call);
    Ok(Name::new(format!(in alloc; "{before}{step}.")?))
}

/// What the names in the instance at a path begin with, by the levels of the way to it; nothing where that of
/// the instance before is missing.
pub fn prefix_of(alloc: Global, way: &[Level], path: &[usize]) -> Result<Name, AllocError>
    ensures first { length path.now ≡ 0 → IfOk result (λ prefix. prefix ≡ []) }
    ensures later { 0 < length path.now → IfOk result (λ prefix. prefix
        ≡ prefix_at (slice_get way.now (length path.now - 1)) (slice_index path.now
        (length path.now - 1))) }
{
    if path.is_empty() {
        return Name::from_text(alloc, "");
    }
    let last = path.len() - 1;
    match way.get(last) {
        Some(level) => prefix_inside(alloc, level, path[last]),
        None => Name::from_text(alloc, ""),
    }
}
