//! Whether types and names of enumerations are known.

ghost use Rattle.std.specs.Prelude.{◌≡◌, ◌↔◌, Some, IsTrue, IfSome, IfNone, slice_get};
ghost use Rattle.lutree.specs.Tree.{TypeTree, type_view, program_view, declaration_view};
ghost use Rattle.lustat_rules.specs.Naming.{IsEnumeration, LabelKnown, PatternKnown, IsBuiltIn, TypeKnown};

use lustat_rules::Catalog;
use lutree::{Declaration, DeclaredName, Kind, Label, Pattern, TypeDeclaration};

/// The type at the place that a kind gives, if it has as many names as that gives.
fn enumeration<'a>(catalog: &Catalog<'a>, kind: Kind) -> Option<&'a TypeDeclaration>
    ensures some { IfSome result
        (λ t. IsEnumeration (program_view catalog.now) kind (type_view t.now)) }
    ensures none { IfNone result
        ((t : TypeTree) → ¬ IsEnumeration (program_view catalog.now) kind t) }
{
    match kind {
        Kind::Int | Kind::Bool => None,
        Kind::Enum(place, size) => {
            let types = catalog.program().types.as_slice();
            let i = usize::from(place);
            if i < types.len() && types[i].names.as_slice().len() == usize::from(size) {
                Some(&types[i])
            } else {
                None
            }
        }
    }
}

/// Whether a declared name is spelled so.
fn is_spelled(declared: &DeclaredName, name: &str) -> bool
    ensures { IsTrue result ↔ (declared.now.name ≡ name.now) }
{
    declared.name.as_str() == name
}

/// Whether a type has a name at a place.
fn has_name(declaration: &TypeDeclaration, number: u8, name: &str) -> bool
    ensures { IsTrue result
        ↔ (slice_get (type_view declaration.now).names number ≡ Some name.now) }
{
    let names = declaration.names.as_slice();
    let i = usize::from(number);
    i < names.len() && is_spelled(&names[i], name)
}

/// Whether a name of an enumeration is the program's.
pub fn label_is_known(catalog: &Catalog, label: &Label) -> bool
    ensures { IsTrue result ↔ LabelKnown (program_view catalog.now) label.now }
{
    match enumeration(catalog, label.kind) {
        None => false,
        Some(t) => has_name(t, label.number, label.name.as_str()),
    }
}

/// Whether the name of a pattern, if it is one, is the program's.
pub fn pattern_is_known(catalog: &Catalog, pattern: &Pattern) -> bool
    ensures { IsTrue result ↔ PatternKnown (program_view catalog.now) pattern.now }
{
    match pattern {
        Pattern::Truth(_) => true,
        Pattern::Label(l) => label_is_known(catalog, l),
    }
}

/// Whether a type is one that no program declares.
fn is_built_in(kind: Kind) -> bool
    ensures { IsTrue result ↔ IsBuiltIn kind }
{
    match kind {
        Kind::Int | Kind::Bool => true,
        Kind::Enum(_, _) => false,
    }
}

/// Whether a type is an enumeration of a name.
fn is_named(catalog: &Catalog, kind: Kind, name: &str) -> bool
    ensures { IsTrue result ↔ ((t : TypeTree) × IsEnumeration (program_view catalog.now) kind t
        × (t.name ≡ name.now)) }
{
    match enumeration(catalog, kind) {
        None => false,
        Some(t) => t.name.as_str() == name,
    }
}

/// Whether the type of a declaration is known.
pub fn type_is_known(catalog: &Catalog, declaration: &Declaration) -> bool
    ensures { IsTrue result
        ↔ TypeKnown (program_view catalog.now) (declaration_view declaration.now) }
{
    match &declaration.type_name {
        None => is_built_in(declaration.kind),
        Some(name) => is_named(catalog, declaration.kind, name.as_str()),
    }
}
