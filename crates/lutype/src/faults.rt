//! The faults of single places, and that of recursion among them.

ghost use Rattle.std.specs.Prelude.{◌≡◌, ◌↔◌, ℕ, List, Some, IsTrue, map, slice_get};
ghost use Rattle.lutree.specs.Tree.{type_view, declaration_view, equation_view, node_view, program_view};
ghost use Rattle.lustat_rules.specs.Naming.{IsNewType, IsNewNode, IsNewVariable, HasMain, NamesKnown, CallsKnown, AritiesRight};
ghost use Rattle.lustat_rules.specs.Typing.{MergesWhole, IsTyped};
ghost use Rattle.lustat_rules.specs.Faults.{declared_in, lesser_of, IsJudged, ProgramFault, ProgramKept, TypeFault, TypeKept, NameFault, NameKept, NodeFault, NodeKept, DeclarationFault, DeclarationKept, EquationFault, EquationKept};
ghost use Rattle.lustat_rules.specs.Told.{Tells};
ghost use Rattle.lutype.specs.Asked.{is_asked};

use crate::{
    Definitions, arities_are_right, calls_are_known, declaration_is_known, defines_anew,
    is_defined, is_well_typed, merges_are_whole, names_are_known,
};
use lustat_rules::{Catalog, Scope, StatError, is_reported_before, least_of, reported};
use lutree::{Declaration, DeclaredName, Equation, Node, TypeDeclaration};

/// Whether a place that was found is another.
fn is_at(found: Option<usize>, place: usize) -> bool
    ensures { IsTrue result ↔ (found ≡ Some place) }
{
    found == Some(place)
}

/// Whether no type before has the name of the one at a place.
fn is_new_type(catalog: &Catalog, place: usize, declaration: &TypeDeclaration) -> bool
    requires { slice_get catalog.now.types place ≡ Some declaration.now }
    ensures { IsTrue result
        ↔ IsNewType (program_view catalog.now) place (type_view declaration.now) }
{
    is_at(catalog.type_place(declaration.name.as_str()), place)
}

/// Whether no node before has the name of the one at a place.
fn is_new_node(catalog: &Catalog, place: usize, node: &Node) -> bool
    requires { slice_get catalog.now.nodes place ≡ Some node.now }
    ensures { IsTrue result ↔ IsNewNode (program_view catalog.now) place (node_view node.now) }
{
    is_at(catalog.place(node.name.as_str()), place)
}

/// Whether no variable before has the name of the one at a place, and no name of an enumeration is spelled
/// so.
fn is_new_variable(
    catalog: &Catalog,
    scope: &Scope,
    place: usize,
    declaration: &Declaration,
) -> bool
    requires { slice_get (declared_in scope.now) place ≡ Some declaration.now }
    ensures { IsTrue result ↔ IsNewVariable (program_view catalog.now) (node_view scope.now) place
        (declaration_view declaration.now) }
{
    let name = declaration.name.as_str();
    let is_first = is_at(scope.place(name), place);
    is_first && !catalog.has_label(name)
}

/// Whether some node has the name of the main node.
fn has_main(catalog: &Catalog, main: &str) -> bool
    ensures { IsTrue result ↔ HasMain (program_view catalog.now) main.now }
{
    catalog.find(main).is_some()
}

/// Whether an equation is well typed, or isn't ready to be asked.
fn is_typed(catalog: &Catalog, scope: &Scope, equation: &Equation, is_ready: bool) -> bool
    requires { IsTrue is_ready ↔ (NamesKnown (program_view catalog.now) (node_view scope.now)
        (equation_view equation.now)
        × CallsKnown (program_view catalog.now) (equation_view equation.now)
        × AritiesRight (program_view catalog.now) (equation_view equation.now)
        × MergesWhole (node_view scope.now) (equation_view equation.now)) }
    ensures { IsTrue result ↔ IsTyped (program_view catalog.now) (node_view scope.now)
        (equation_view equation.now) }
{
    if is_ready {
        is_well_typed(catalog, scope, equation)
    } else {
        true
    }
}

/// The fault of the program as a whole: no node has the name of the main node.
pub fn program_fault(catalog: &Catalog, main: &str) -> Option<StatError>
    ensures { IsJudged (ProgramFault is_asked catalog.now main.now)
        (ProgramKept is_asked catalog.now main.now) result }
{
    reported(has_main(catalog, main), StatError::NoMain)
}

/// The fault of a type's name.
pub fn type_fault(
    catalog: &Catalog,
    place: usize,
    declaration: &TypeDeclaration,
) -> Option<StatError>
    requires { slice_get catalog.now.types place ≡ Some declaration.now }
    ensures { (main : List ℕ) → IsJudged (TypeFault is_asked catalog.now main place declaration.now)
        (TypeKept is_asked catalog.now main place declaration.now) result }
{
    let byte = declaration.byte;
    let is_new = is_new_type(catalog, place, declaration);
    reported(is_new, StatError::DuplicateName { byte })
}

/// The fault of a name of an enumeration.
pub fn label_fault(
    catalog: &Catalog,
    place: usize,
    declaration: &TypeDeclaration,
    number: usize,
    name: &DeclaredName,
) -> Option<StatError>
    requires of_type { slice_get catalog.now.types place ≡ Some declaration.now }
    requires at { slice_get declaration.now.names number ≡ Some name.now }
    ensures { (main : List ℕ) → IsJudged (NameFault is_asked catalog.now main place declaration.now
        number name.now) (NameKept is_asked catalog.now main place declaration.now number name.now)
        result }
{
    let byte = name.byte;
    let is_new = catalog.is_new_label(place, declaration, number, name);
    reported(is_new, StatError::DuplicateName { byte })
}

/// The fault of a node's name.
pub fn name_fault(catalog: &Catalog, place: usize, node: &Node) -> Option<StatError>
    requires { slice_get catalog.now.nodes place ≡ Some node.now }
    ensures { (main : List ℕ) → IsJudged (NodeFault is_asked catalog.now main place node.now)
        (NodeKept is_asked catalog.now main place node.now) result }
{
    let is_new = is_new_node(catalog, place, node);
    reported(is_new, StatError::DuplicateName { byte: node.byte })
}

/// The faults of a declaration, rule by rule.
pub(crate) fn declaration_faults(
    catalog: &Catalog,
    scope: &Scope,
    definitions: &Definitions,
    place: usize,
    declaration: &Declaration,
) -> [Option<StatError>; 3]
    requires same { definitions.now ≡ scope.now }
    requires at { slice_get (declared_in scope.now) place ≡ Some declaration.now }
    ensures { (main : List ℕ) → Tells (DeclarationFault is_asked catalog.now main scope.now place
        declaration.now) (DeclarationKept is_asked catalog.now main scope.now place declaration.now)
        result }
{
    let byte = declaration.byte;
    let is_new = is_new_variable(catalog, scope, place, declaration);
    let is_known = declaration_is_known(catalog, scope, declaration);
    let is_defined = is_defined(scope, definitions, declaration);
    let duplicate = reported(is_new, StatError::DuplicateName { byte });
    let unknown = reported(is_known, StatError::UnknownName { byte });
    let undefined = reported(is_defined, StatError::Undefined { byte });
    [duplicate, unknown, undefined]
}

/// The least fault of a declaration.
pub fn declaration_fault(
    catalog: &Catalog,
    scope: &Scope,
    definitions: &Definitions,
    place: usize,
    declaration: &Declaration,
) -> Option<StatError>
    requires same { definitions.now ≡ scope.now }
    requires at { slice_get (declared_in scope.now) place ≡ Some declaration.now }
    ensures { (main : List ℕ) → IsJudged (DeclarationFault is_asked catalog.now main scope.now place
        declaration.now) (DeclarationKept is_asked catalog.now main scope.now place declaration.now)
        result }
{
    let row = declaration_faults(catalog, scope, definitions, place, declaration);
    least_of(&row)
}

/// The faults of an equation, rule by rule.
pub(crate) fn equation_faults(
    catalog: &Catalog,
    scope: &Scope,
    definitions: &Definitions,
    place: usize,
    equation: &Equation,
) -> [Option<StatError>; 6]
    requires same { definitions.now ≡ scope.now }
    requires at { slice_get scope.now.equations place ≡ Some equation.now }
    ensures { (main : List ℕ) → Tells (EquationFault is_asked catalog.now main scope.now place
        equation.now) (EquationKept is_asked catalog.now main scope.now place equation.now) result }
{
    let byte = equation.byte;
    let are_known = names_are_known(catalog, scope, equation);
    let are_nodes = calls_are_known(catalog, equation);
    let are_right = arities_are_right(catalog, equation);
    let are_whole = merges_are_whole(catalog, scope, equation);
    let is_typed = is_typed(
        catalog,
        scope,
        equation,
        are_known && are_nodes && are_right && are_whole,
    );
    let is_anew = defines_anew(scope, definitions, place, equation);
    let unknown_name = reported(are_known, StatError::UnknownName { byte });
    let unknown_node = reported(are_nodes, StatError::UnknownNode { byte });
    let mismatch = reported(is_typed, StatError::TypeMismatch { byte });
    let arity = reported(are_right, StatError::WrongArity { byte });
    let twice = reported(is_anew, StatError::DefinedTwice { byte });
    let merge = reported(are_whole, StatError::BadMerge { byte });
    [unknown_name, unknown_node, mismatch, arity, twice, merge]
}

/// The least fault of an equation.
pub fn equation_fault(
    catalog: &Catalog,
    scope: &Scope,
    definitions: &Definitions,
    place: usize,
    equation: &Equation,
) -> Option<StatError>
    requires same { definitions.now ≡ scope.now }
    requires at { slice_get scope.now.equations place ≡ Some equation.now }
    ensures { (main : List ℕ) → IsJudged (EquationFault is_asked catalog.now main scope.now place
        equation.now) (EquationKept is_asked catalog.now main scope.now place equation.now) result }
{
    let row = equation_faults(catalog, scope, definitions, place, equation);
    least_of(&row)
}

/// Of a fault, if there is one, and that of recursion the one that is reported.
pub fn with_recursion(found: Option<StatError>, recursion: StatError) -> StatError
    ensures { Some result ≡ lesser_of found (Some recursion) }
{
    match found {
        None => recursion,
        Some(fault) => {
            if is_reported_before(&recursion, &fault) {
                recursion
            } else {
                fault
            }
        }
    }
}
