//! A whole flat program.

ghost use Rattle.std.specs.Prelude.{◌≡◌, ◌<◌, ◌≤◌, length, slice_get, Some, slice_index, take};
ghost use Rattle.luflow.specs.Program.{FlatView};
ghost use Rattle.luflow.specs.Flats.{IsFlat};
ghost use Rattle.luflow.specs.Types.{variable_names};
ghost use Rattle.luflow.specs.Variables.{inputs_of, is_output_of, variable_name};
ghost use Rattle.luflow.specs.declared.form.Flow.{Flow};

use crate::form::{Clock, Flow};
use crate::variable::{Enum, Variable, inputs_among, names_of};
use lubase::{Name, Row};
use std::marker::Model;

/// A flat program: the flows that remain of a checked program when all calls are inlined, the main variables
/// first. It is sound and in order of rank. A contract sees the `FlatView` of `specs/Program.antt`.
pub struct Flat {
    types: Row<Enum>,
    flows: Row<Flow>,
    order: Row<usize>,
    owners: Row<usize>,
    variables: Row<Variable>,
}

// By hand, so that it is proved here alone, and not in each crate that owns one.
impl Drop for Flat {
    fn drop(self) {
        let Self {
            types: _,
            flows: _,
            order: _,
            owners: _,
            variables: _,
        } = self;
    }
}

impl Model for Flat {
    ghost use Rattle.luflow.specs.Program.{FlatView};

    ghost Value = { FlatView };

    ghost use Rattle.luflow.specs.Flats.{IsFlat};

    ghost view = { λ a. record {
      types = a.types;
      flows = a.flows;
      order = a.order;
      owners = a.owners;
      variables = a.variables;
    } };

    ghost invariant = { λ a. IsFlat (record {
      types = a.types;
      flows = a.flows;
      order = a.order;
      owners = a.owners;
      variables = a.variables;
    }) };
}

impl Flat {
    /// The flat program of these types and flows, given the flows' order of rank, the main variable in whose
    /// equation each stands, and the main variables.
    pub fn new(
        types: Row<Enum>,
        flows: Row<Flow>,
        order: Row<usize>,
        owners: Row<usize>,
        variables: Row<Variable>,
    ) -> Flat
        requires { IsFlat (record {
          types = types;
          flows = flows;
          order = order;
          owners = owners;
          variables =
              variables;
        }) }
        ensures { result ≡ record {
          types = types;
          flows = flows;
          order = order;
          owners = owners;
          variables =
              variables;
        } }
    {
        Flat {
            types,
            flows,
            order,
            owners,
            variables,
        }
    }

    /// Does nothing. A proof has from it that the flows are sound and in order of rank.
    pub fn recall_invariant(&self)
        ensures { IsFlat self.now }
    {
        let _ = &self.types;
    }

    /// The types of the source program, in order of declaration; the kind of an enumeration holds its place
    /// here. Takes no memory.
    pub fn types(&self) -> &[Enum]
        ensures { result.now ≡ self.now.types }
    {
        self.types.as_slice()
    }

    /// The names of the type of a main variable, in order of declaration; none where it is no enumeration.
    /// Takes no memory.
    pub fn variable_names(&self, variable: usize) -> &[Name]
        ensures { result.now ≡ variable_names self.now variable }
    {
        match self.variables.as_slice().get(variable) {
            Some(found) => names_of(self.types.as_slice(), found.kind),
            None => &[],
        }
    }

    /// The name of a main variable; empty where there is none of that number. Takes no memory.
    pub fn variable_name(&self, variable: usize) -> &str
        ensures { result.now ≡ variable_name self.now variable }
    {
        match self.variables.as_slice().get(variable) {
            Some(found) => found.name.as_str(),
            None => "",
        }
    }

    /// Whether a main variable is an output; not where there is none of that number. Takes no memory.
    pub fn is_output(&self, variable: usize) -> bool
        ensures { result ≡ is_output_of self.now variable }
    {
        match self.variables.as_slice().get(variable) {
            Some(found) => found.role.is_output(),
            None => false,
        }
    }

    /// The flows, by place. Takes no memory.
    pub fn flows(&self) -> &[Flow]
        ensures flows { result.now ≡ self.now.flows }
        ensures flat { IsFlat self.now }
    {
        self.flows.as_slice()
    }

    /// The places of all flows in order of rank: what a flow reads at the same instant comes before it. Takes
    /// no memory.
    pub fn rank(&self) -> &[usize]
        ensures { result.now ≡ self.now.order }
    {
        self.order.as_slice()
    }

    /// The clock of a flow.
    pub fn clock_of(&self, place: usize) -> Clock
        requires { place < length self.now.flows }
        ensures { (flow : Flow) → slice_get self.now.flows place ≡ Some flow → result ≡ flow.clock }
    {
        self.flows.as_slice()[place].clock
    }

    /// The number of the main variable in whose equation a flow stands; of a tuple's equation the first.
    pub fn variable_of(&self, place: usize) -> usize
        requires { place < length self.now.flows }
        ensures { result ≡ slice_index self.now.owners place }
    {
        self.owners.as_slice()[place]
    }

    /// For each flow the number of the main variable in whose equation it stands. Takes no memory.
    pub fn owners(&self) -> &[usize]
        ensures { result.now ≡ self.now.owners }
    {
        self.owners.as_slice()
    }

    /// The main variables: inputs, outputs and locals, each in order of declaration. Variable number v is the
    /// flow of place v. Takes no memory.
    pub fn variables(&self) -> &[Variable]
        ensures { result.now ≡ self.now.variables }
    {
        self.variables.as_slice()
    }

    /// The inputs among the main variables, in order of declaration: the first ones. Takes no memory; the
    /// time grows with the number of main variables.
    pub fn inputs(&self) -> &[Variable]
        ensures inputs { result.now ≡ inputs_of self.now.variables }
        ensures flat { IsFlat self.now }
    {
        let variables = self.variables.as_slice();
        first_of(variables, inputs_among(variables))
    }
}

/// The first of these variables, so many.
fn first_of(variables: &[Variable], count: usize) -> &[Variable]
    requires { count ≤ length variables.now }
    ensures { result.now ≡ take count variables.now }
{
    &variables[..count]
}
