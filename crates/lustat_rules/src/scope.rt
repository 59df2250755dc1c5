//! A node with the tables of its variables.

ghost use Rattle.std.specs.Prelude.{◌≡◌, ◌↔◌, ◌++◌, map, option_map, option_copied, IfOk, IfSome, OnOk, IsTrue, slice_get};
ghost use Rattle.lutree.specs.declared.expr.Condition.{Condition};
ghost use Rattle.lutree.specs.Tree.{declaration_view, node_view};
ghost use Rattle.lustat_rules.specs.Scope.{declarations_of, names_of, meaning, kind_of, clock_of, IsInput, IsOutput};
ghost use Rattle.lubase.specs.Places.{first_place};
ghost use Rattle.lustat_rules.specs.Scopes.{spellings, clock_list};
ghost use Rattle.lustat_rules.specs.Faults.{declared_in};
ghost use Rattle.lustat_rules.specs.ClockRefs.{the_clock, placed_view, place_among, clock_under, IsPlaced};

use crate::clock_ref::{ClockRef, PlacedClock};
use lubase::Places;
use lutree::{Declaration, Kind, Node};
use std::alloc::{AllocError, Global};
use std::marker::Model;

/// A node, lent, with the tables of its variables. A contract sees the node.
pub struct Scope<'a> {
    node: &'a Node,
    declarations: Vec<&'a Declaration>,
    variables: Places<'a>,
    inputs: Places<'a>,
    outputs: Places<'a>,
    clocks: Vec<PlacedClock<'a>>,
}

// By hand, so that it is proved here alone, and not in each crate that owns one.
impl Drop for Scope<'_> {
    fn drop(self) {
        let Self {
            node: _,
            declarations: _,
            variables: _,
            inputs: _,
            outputs: _,
            clocks: _,
        } = self;
    }
}

impl<'a> Model for Scope<'a> {
    ghost use Rattle.lutree.specs.declared.program.Node.{Node};
    ghost use Rattle.std.specs.Coded.{codes};
    ghost use Rattle.lutree.specs.contracts.expr.Expr as tree_row;

    ghost Value = { Node };

    ghost coded = { Prim.hlevel (codes, tree_row.the_row.coded) };

    ghost use Rattle.lustat_rules.specs.Tables.{AreTables};

    ghost view = { λ s. s.node.now };

    ghost invariant = { AreTables };
}

/// Declarations, behind those before.
fn push_all<'a>(
    all: &mut Vec<&'a Declaration>,
    declarations: &'a [Declaration],
) -> Result<(), AllocError>
    ensures { OnOk result (map (λ d. d.now) all.new.items ≡ map (λ d. d.now) all.old.items
        ++ declarations.now) }
{
    for d in declarations {
        all.push(d)?;
    }
    Ok(())
}

/// The declarations of a node, in order.
fn declarations_in(alloc: Global, node: &Node) -> Result<Vec<&Declaration>, AllocError>
    ensures { IfOk result (λ v. map (λ d. d.now) v.items ≡ declared_in node.now) }
{
    let mut all = Vec::new(alloc);
    push_all(&mut all, node.inputs.as_slice())?;
    push_all(&mut all, node.outputs.as_slice())?;
    push_all(&mut all, node.locals.as_slice())?;
    Ok(all)
}

/// The table of the names of declarations.
fn places_of<'a>(alloc: Global, declarations: &'a [Declaration]) -> Result<Places<'a>, AllocError>
    ensures { IfOk result (λ places. places ≡ spellings declarations.now) }
{
    let mut names = Vec::with_capacity(alloc, declarations.len())?;
    for d in declarations {
        names.push(d.name.as_str())?;
    }
    Places::new(alloc, names)
}

/// The table of the names of declarations that are lent.
fn places_of_lent<'a>(
    alloc: Global,
    declarations: &[&'a Declaration],
) -> Result<Places<'a>, AllocError>
    ensures { IfOk result (λ places. places ≡ spellings (map (λ d. d.now) declarations.now)) }
{
    let mut names = Vec::with_capacity(alloc, declarations.len())?;
    for d in declarations {
        names.push(d.name.as_str())?;
    }
    Places::new(alloc, names)
}

/// Whether two clocks have one pattern, or are both the base clock.
fn have_one_pattern(j: ClockRef, k: ClockRef) -> bool
    ensures { IsTrue result
        ↔ (option_map (λ (c : Condition). c.pattern) (the_clock j.entry)
        ≡ option_map (λ (c : Condition). c.pattern) (the_clock k.entry)) }
{
    match (j, k) {
        (ClockRef::Base, ClockRef::Base) => true,
        (ClockRef::On(_, p), ClockRef::On(_, q)) => p.is(&q),
        _ => false,
    }
}

/// The clock of a declaration, with the place of its variable in a table.
fn declared_clock<'a>(variables: &Places, declaration: &'a Declaration) -> PlacedClock<'a>
    ensures clock { placed_view result ≡ declaration.now.clock }
    ensures place { result.place ≡ place_among variables.now declaration.now.clock }
{
    match &declaration.clock {
        None => PlacedClock {
            clock: ClockRef::Base,
            place: None,
        },
        Some(c) => PlacedClock {
            clock: ClockRef::of(c),
            place: variables.find(c.variable.as_str()),
        },
    }
}

/// The clocks of declarations that are lent, with the places of their variables in a table.
fn declared_clocks<'a>(
    alloc: Global,
    variables: &Places,
    declarations: &[&'a Declaration],
) -> Result<Vec<PlacedClock<'a>>, AllocError>
    ensures clocks { IfOk result
        (λ v. map placed_view v.items ≡ clock_list (map (λ d. d.now) declarations.now)) }
    ensures places { IfOk result (λ v. map (λ k. k.place) v.items
        ≡ map (place_among variables.now) (clock_list (map (λ d. d.now) declarations.now))) }
{
    let mut all = Vec::with_capacity(alloc, declarations.len())?;
    for d in declarations {
        all.push(declared_clock(variables, d))?;
    }
    Ok(all)
}

impl<'a> Scope<'a> {
    /// The tables of a node. Their time grows with the length of its names.
    pub fn new(alloc: Global, node: &'a Node) -> Result<Scope<'a>, AllocError>
        ensures { IfOk result (λ scope. scope ≡ node.now) }
    {
        let declarations = declarations_in(alloc, node)?;
        let variables = places_of_lent(alloc, &declarations)?;
        let inputs = places_of(alloc, node.inputs.as_slice())?;
        let outputs = places_of(alloc, node.outputs.as_slice())?;
        let clocks = declared_clocks(alloc, &variables, &declarations)?;
        Ok(Scope {
            node,
            declarations,
            variables,
            inputs,
            outputs,
            clocks,
        })
    }

    /// The node.
    pub fn node(&self) -> &'a Node
        ensures { result.now ≡ self.now }
    {
        self.node
    }

    /// The variables of the node: inputs, outputs and locals, each in order of declaration.
    pub fn declarations(&self) -> &[&'a Declaration]
        ensures { map (λ d. d.now) result.now ≡ declared_in self.now }
    {
        self.declarations.as_slice()
    }

    /// Where the first declaration of a name stands, counted from 0 over inputs, outputs and locals.
    pub fn place(&self, name: &str) -> Option<usize>
        ensures { result ≡ first_place (names_of (declarations_of (node_view self.now))) name.now }
    {
        self.variables.find(name)
    }

    /// What a name means: the first declaration of it.
    pub fn find(&self, name: &str) -> Option<&'a Declaration>
        ensures { option_map declaration_view (option_copied result)
            ≡ meaning (node_view self.now) name.now }
    {
        match self.place(name) {
            None => None,
            Some(place) => Some(self.declarations[place]),
        }
    }

    /// The type of a variable.
    pub fn kind(&self, name: &str) -> Option<Kind>
        ensures { result ≡ kind_of (node_view self.now) name.now }
    {
        let d = self.find(name)?;
        Some(d.kind)
    }

    /// The clock of a variable.
    pub fn clock(&self, name: &str) -> Option<ClockRef<'a>>
        ensures { option_map the_clock result ≡ clock_of (node_view self.now) name.now }
    {
        let d = self.find(name)?;
        match &d.clock {
            None => Some(ClockRef::Base),
            Some(c) => Some(ClockRef::of(c)),
        }
    }

    /// The clock of the declaration at a place, counted from 0 over inputs, outputs and locals; none behind
    /// the last.
    pub fn clock_at(&self, place: usize) -> Option<PlacedClock<'a>>
        ensures clock { option_map placed_view result
            ≡ slice_get (clock_list (declared_in self.now)) place }
        ensures placed { IfSome result (IsPlaced (node_view self.now)) }
    {
        self.clocks.get(place).copied()
    }

    /// The clock of a variable, with the place of the variable that it names.
    pub fn placed_clock(&self, name: &str) -> Option<PlacedClock<'a>>
        ensures clock { option_map placed_view result ≡ clock_of (node_view self.now) name.now }
        ensures placed { IfSome result (IsPlaced (node_view self.now)) }
    {
        match self.place(name) {
            None => None,
            Some(place) => self.clock_at(place),
        }
    }

    /// The clock of the variable that a clock names; none where it names no variable. No name is looked up.
    pub fn clock_under(&self, k: PlacedClock) -> Option<PlacedClock<'a>>
        requires { IsPlaced (node_view self.now) k }
        ensures clock { option_map placed_view result
            ≡ clock_under (node_view self.now) (placed_view k.entry) }
        ensures placed { IfSome result (IsPlaced (node_view self.now)) }
    {
        match k.place {
            None => None,
            Some(place) => self.clock_at(place),
        }
    }

    /// A clock with the place of the variable that it names.
    pub fn placed<'b>(&self, clock: ClockRef<'b>) -> PlacedClock<'b>
        ensures clock { placed_view result ≡ the_clock clock.entry }
        ensures placed { IsPlaced (node_view self.now) result }
    {
        match clock {
            ClockRef::Base => PlacedClock { clock, place: None },
            ClockRef::On(name, _) => PlacedClock {
                clock,
                place: self.place(name),
            },
        }
    }

    /// Whether two clocks of the node are one. Names are compared only where neither is declared.
    pub fn are_one(&self, j: PlacedClock, k: PlacedClock) -> bool
        requires first { IsPlaced (node_view self.now) j }
        requires second { IsPlaced (node_view self.now) k }
        ensures { IsTrue result ↔ (placed_view j.entry ≡ placed_view k.entry) }
    {
        match (j.place, k.place) {
            (None, None) => j.clock.is(&k.clock),
            (Some(u), Some(v)) => u == v && have_one_pattern(j.clock, k.clock),
            _ => false,
        }
    }

    /// Whether a name is declared as an input.
    pub fn is_input(&self, name: &str) -> bool
        ensures { IsTrue result ↔ IsInput (node_view self.now) name.now }
    {
        self.inputs.has(name)
    }

    /// Whether a name is declared as an output, perhaps beside other declarations of it.
    pub fn is_output(&self, name: &str) -> bool
        ensures { IsTrue result ↔ IsOutput (node_view self.now) name.now }
    {
        self.outputs.has(name)
    }
}
