//! The names of a program's types, looked up by a table.

ghost use Rattle.std.specs.Prelude.{◌≡◌, ◌<◌, ◌≤◌, ◌++◌, map, length, IfOk};
ghost use Rattle.std.specs.Option.{option_map};
ghost use Rattle.lusyn_parser.specs.Resolved.{numbered, labels, label_of, kind_of, enumeration};
ghost use Rattle.lusyn_parser.specs.Tables.{types_view, marks_of, names_of, marked, AreFew, AreShort};
ghost use Rattle.lubase.specs.Limits.{most_types};
ghost use Rattle.lutree.specs.Tree.{type_view};

use lubase::Places;
use lutree::{DeclaredName, Kind, TypeDeclaration};
use std::alloc::{AllocError, Global};

/// The names of a program's types, with a table of where each stands first, and what each stands for.
#[derive(Drop)]
pub(crate) struct Labels<'a> {
    types: &'a [TypeDeclaration],
    names: Places<'a>,
    marks: Vec<(Kind, u8)>,
    ghost few: { length types.now ≤ most_types },
    ghost short: { AreShort types.now },
    ghost named: { names ≡ names_of (labels (types_view types.now)) },
    ghost numbered: { marks.items ≡ marks_of (labels (types_view types.now)) },
}

/// The type at this place.
fn kind_at(place: usize, declared: &TypeDeclaration) -> Kind
    requires place { place < 64 }
    requires names { length declared.now.names ≤ 64 }
    ensures { result ≡ enumeration place (type_view declared.now) }
{
    Kind::Enum(place as u8, declared.names.as_slice().len() as u8)
}

/// Puts the names of a type, and what they stand for, behind those found.
fn put_names<'a>(
    names: &mut Vec<&'a str>,
    marks: &mut Vec<(Kind, u8)>,
    kind: Kind,
    declared: &'a [DeclaredName],
) -> Result<(), AllocError>
    requires { length declared.now ≤ 64 }
    ensures names { IfOk result (λ _. map (λ n. n.now) names.new.items
        ≡ map (λ n. n.now) names.old.items
        ++ names_of (numbered kind 0 (map (λ x. x.name) declared.now))) }
    ensures marks { IfOk result (λ _. marks.new.items ≡ marks.old.items
        ++ marks_of (numbered kind 0 (map (λ x. x.name) declared.now))) }
{
    for (number, name) in declared.iter().enumerate() {
        names.push(name.name.as_str())?;
        marks.push((kind, number as u8))?;
    }
    Ok(())
}

impl<'a> Labels<'a> {
    /// The table of the names of these types.
    pub(crate) fn new(alloc: Global, types: &'a [TypeDeclaration]) -> Result<Labels<'a>, AllocError>
        requires { AreFew (types_view types.now) }
        ensures { IfOk result (λ table. table.types.now ≡ types.now) }
    {
        let mut names = Vec::new(alloc);
        let mut marks = Vec::new(alloc);
        for (place, declared) in types.iter().enumerate() {
            let kind = kind_at(place, declared);
            put_names(&mut names, &mut marks, kind, declared.names.as_slice())?;
        }
        let names = Places::new(alloc, names)?;
        Ok(Labels {
            types,
            names,
            marks,
        })
    }

    /// What a name stands for, where one of the types has it.
    pub(crate) fn find(&self, name: &str) -> Option<(Kind, u8)>
        ensures { option_map (marked name.now) result
            ≡ label_of (types_view self.now.types.now) name.now }
    {
        match self.names.find(name) {
            Some(at) => self.marks.get(at).copied(),
            None => None,
        }
    }

    /// The type of this name, where there is one.
    pub(crate) fn kind_of(&self, name: &str) -> Option<Kind>
        ensures { result ≡ kind_of (types_view self.now.types.now) name.now }
    {
        for (place, declared) in self.types.iter().enumerate() {
            if declared.name.is(name) {
                return Some(kind_at(place, declared));
            }
        }
        None
    }
}
