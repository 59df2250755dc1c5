//! The types of a program.

ghost use Rattle.std.specs.Prelude.{◌≡◌, IfOk, map};
ghost use Rattle.lutree.specs.Tree.{type_view};
ghost use Rattle.lutree.specs.declared.program.DeclaredName.{DeclaredName};
ghost use Rattle.lucore_laws.specs.Layout.{enum_of};

use lubase::{Name, Row};
use luflow::Enum;
use lutree::{DeclaredName, TypeDeclaration};
use std::alloc::{AllocError, Global};

/// The names of an enumeration.
fn names_in(alloc: Global, names: &[DeclaredName]) -> Result<Row<Name>, AllocError>
    ensures { IfOk result (λ row. row ≡ map (λ (x : DeclaredName). x.name) names.now) }
{
    let mut copies = Vec::with_capacity(alloc, names.len())?;
    for declared in names {
        copies.push(declared.name.copied(alloc)?)?;
    }
    Ok(Row::new(copies))
}

/// These types, as a flat program has them.
pub fn types_in(alloc: Global, types: &[TypeDeclaration]) -> Result<Vec<Enum>, AllocError>
    ensures { IfOk result (λ all. all.items ≡ map enum_of (map type_view types.now)) }
{
    let mut all = Vec::with_capacity(alloc, types.len())?;
    for declared in types {
        let name = declared.name.copied(alloc)?;
        let names = names_in(alloc, declared.names.as_slice())?;
        all.push(Enum { name, names })?;
    }
    Ok(all)
}
