//! A program with a scope for each of its nodes.

ghost use Rattle.std.specs.Prelude.{◌≡◌, ◌↔◌, ◌++◌, ◌+◌, ◌<◌, [], Some, IsTrue, Contains, length, map, take, option_map, option_copied, slice_get, IfOk, OnOk};
ghost use Rattle.lutree.specs.Tree.{type_view, node_view, program_view};
ghost use Rattle.lustat_rules.specs.Scope.{node_called, labels_of};
ghost use Rattle.lustat_rules.specs.Naming.{node_place, IsNewLabel};
ghost use Rattle.lubase.specs.Places.{first_place};
ghost use Rattle.lustat_rules.specs.Scopes.{node_spellings, type_spellings, label_spellings, AreStarts};

use crate::scope::Scope;
use lubase::Places;
use lutree::{DeclaredName, Node, Program, TypeDeclaration};
use std::alloc::{AllocError, Global};
use std::marker::Model;

/// A program, lent, with a scope for each of its nodes and tables of its nodes, its types and the names of
/// these. A contract sees the program.
pub struct Catalog<'a> {
    program: &'a Program,
    scopes: Vec<Scope<'a>>,
    nodes: Places<'a>,
    types: Places<'a>,
    /// The names of all enumerations, type by type.
    labels: Places<'a>,
    /// Where those of each type begin.
    starts: Vec<usize>,
}

// By hand, so that it is proved here alone, and not in each crate that owns one.
impl Drop for Catalog<'_> {
    fn drop(self) {
        let Self {
            program: _,
            scopes: _,
            nodes: _,
            types: _,
            labels: _,
            starts: _,
        } = self;
    }
}

impl<'a> Model for Catalog<'a> {
    ghost use Rattle.lutree.specs.declared.program.Program.{Program};
    ghost use Rattle.std.specs.Coded.{codes};
    ghost use Rattle.lutree.specs.contracts.expr.Expr as tree_row;

    ghost Value = { Program };

    ghost coded = { Prim.hlevel (codes, tree_row.the_row.coded) };

    ghost use Rattle.lustat_rules.specs.Catalogs.{IsCatalog};

    ghost view = { λ s. s.program.now };

    ghost invariant = { IsCatalog };
}

/// The scopes of nodes, in order.
fn scopes_of(alloc: Global, nodes: &[Node]) -> Result<Vec<Scope<'_>>, AllocError>
    ensures { IfOk result (λ v. v.items ≡ nodes.now) }
{
    let mut scopes = Vec::with_capacity(alloc, nodes.len())?;
    for node in nodes {
        scopes.push(Scope::new(alloc, node)?)?;
    }
    Ok(scopes)
}

/// The table of the names of nodes.
fn places_of_nodes(alloc: Global, nodes: &[Node]) -> Result<Places<'_>, AllocError>
    ensures { IfOk result (λ places. places ≡ node_spellings nodes.now) }
{
    let mut names = Vec::with_capacity(alloc, nodes.len())?;
    for node in nodes {
        names.push(node.name.as_str())?;
    }
    Places::new(alloc, names)
}

/// The table of the names of types.
fn places_of_types(alloc: Global, types: &[TypeDeclaration]) -> Result<Places<'_>, AllocError>
    ensures { IfOk result (λ places. places ≡ type_spellings types.now) }
{
    let mut names = Vec::with_capacity(alloc, types.len())?;
    for t in types {
        names.push(t.name.as_str())?;
    }
    Places::new(alloc, names)
}

/// The names of an enumeration, behind those before.
fn push_labels<'a>(names: &mut Vec<&'a str>, declared: &'a [DeclaredName]) -> Result<(), AllocError>
    ensures { OnOk result (map (λ n. n.now) names.new.items ≡ map (λ n. n.now) names.old.items
        ++ label_spellings declared.now) }
{
    for x in declared {
        names.push(x.name.as_str())?;
    }
    Ok(())
}

/// The names of all enumerations in a row, and where each type's begin.
fn fill<'a>(
    names: &mut Vec<&'a str>,
    starts: &mut Vec<usize>,
    types: &'a [TypeDeclaration],
) -> Result<(), AllocError>
    requires no_names { names.old.items ≡ [] }
    requires no_starts { starts.old.items ≡ [] }
    ensures names { OnOk result (map (λ n. n.now) names.new.items
        ≡ labels_of (map type_view types.now)) }
    ensures starts { OnOk result (AreStarts (length types.now) (map type_view types.now)
        starts.new.items) }
{
    for t in types {
        starts.push(names.len())?;
        push_labels(names, t.names.as_slice())?;
    }
    Ok(())
}

impl<'a> Catalog<'a> {
    /// The tables of a program. Their time grows with the length of its names.
    pub fn new(alloc: Global, program: &'a Program) -> Result<Catalog<'a>, AllocError>
        ensures { IfOk result (λ catalog. catalog ≡ program.now) }
    {
        let scopes = scopes_of(alloc, program.nodes.as_slice())?;
        let nodes = places_of_nodes(alloc, program.nodes.as_slice())?;
        let types = places_of_types(alloc, program.types.as_slice())?;
        let mut names = Vec::new(alloc);
        let mut starts = Vec::new(alloc);
        fill(&mut names, &mut starts, program.types.as_slice())?;
        let labels = Places::new(alloc, names)?;
        Ok(Catalog {
            program,
            scopes,
            nodes,
            types,
            labels,
            starts,
        })
    }

    /// The program.
    pub fn program(&self) -> &'a Program
        ensures { result.now ≡ self.now }
    {
        self.program
    }

    /// The scopes of the nodes, in order of text.
    pub fn scopes(&self) -> &[Scope<'a>]
        ensures { result.now ≡ self.now.nodes }
    {
        self.scopes.as_slice()
    }

    /// The place of the node that a call means, counted from 0: the first of the name.
    pub fn place(&self, name: &str) -> Option<usize>
        ensures { result ≡ node_place (program_view self.now) name.now }
    {
        self.nodes.find(name)
    }

    /// The node that a call means, with its tables.
    pub fn find(&self, name: &str) -> Option<&Scope<'a>>
        ensures { option_map node_view (option_copied result)
            ≡ node_called (program_view self.now) name.now }
    {
        match self.nodes.find(name) {
            None => None,
            Some(place) => Some(&self.scopes[place]),
        }
    }

    /// The place of the first type of a name, counted from 0.
    pub fn type_place(&self, name: &str) -> Option<usize>
        ensures { result ≡ first_place (map (λ t. t.name) (program_view self.now).types) name.now }
    {
        self.types.find(name)
    }

    /// Whether some enumeration has a name.
    pub fn has_label(&self, name: &str) -> bool
        ensures { IsTrue result ↔ Contains (labels_of (program_view self.now).types) name.now }
    {
        self.labels.has(name)
    }

    /// Where the names of the type at a place begin in the row of all.
    fn start(&self, place: usize) -> usize
        requires { place < length self.now.types }
        ensures { result ≡ length (labels_of (take place (program_view self.now).types)) }
    {
        self.starts[place]
    }

    /// Whether a name stands first in the row of all at a place, counted from another.
    fn stands_first(&self, start: usize, number: usize, name: &str) -> bool
        ensures { IsTrue result ↔ (first_place (labels_of (program_view self.now).types) name.now
            ≡ Some (start + number)) }
    {
        match self.labels.find(name) {
            None => false,
            Some(found) => found >= start && found - start == number,
        }
    }

    /// Whether no name before has the spelling of the one at a place of the type at a place.
    pub fn is_new_label(
        &self,
        place: usize,
        declaration: &TypeDeclaration,
        number: usize,
        name: &DeclaredName,
    ) -> bool
        requires of_type { slice_get self.now.types place ≡ Some declaration.now }
        requires at { slice_get declaration.now.names number ≡ Some name.now }
        ensures { IsTrue result ↔ IsNewLabel (program_view self.now) place
            (type_view declaration.now) number name.now.name }
    {
        let start = self.start(place);
        self.stands_first(start, number, name.name.as_str())
    }
}
