//! Plans: where the flows of a program stand, what each site needs, and which links there are.

ghost use Rattle.std.specs.Arc.{arc_value};
ghost use Rattle.std.specs.List.Sorted.{IsStrictlyIncreasing};
ghost use Rattle.std.specs.Prelude.{◌≡◌, ◌⊎◌, ◌<◌, true, length, All, IfOk, IfErr};
ghost use Rattle.luworld.specs.Needs.{PlanView, IsPlan, home, sites_of, stands};
ghost use Rattle.luplace.specs.Crews.{flows_at};
ghost use Rattle.luplace.specs.Placing.{refusal, are_somewhere, are_together, placed_by, IsPlanOf};
ghost use Rattle.luflow.specs.Rank.{row};

use crate::assembly::names_of;
use crate::linking::{home_of, links_of};
use crate::lookup::{is_in, row_at};
use crate::marking::{all_marks, needs_of};
use crate::placing::placed_by;
use lubase::{Name, Row, number_at};
use luflow::Flat;
use luplace_file::{Place, PlaceError};
use luworld::Link;
use std::alloc::{AllocError, Global};
use std::marker::Model;
use std::sync::Arc;

/// A plan: a flat program, its sites, where its main variables stand, and the links that follow. A contract
/// sees the `PlanView` of `luworld`.
pub struct Plan {
    flat: Arc<Flat>,
    names: Row<Name>,
    placed: Row<Row<u8>>,
    needs: Row<Row<usize>>,
    links: Row<Link>,
    capacity: u16,
}

// By hand, so that it is proved here alone, and not in each crate that owns one.
impl Drop for Plan {
    fn drop(self) {
        let Self {
            flat: _,
            names: _,
            placed: _,
            needs: _,
            links: _,
            capacity: _,
        } = self;
    }
}

impl Model for Plan {
    ghost use Rattle.std.specs.Arc.{arc_value};
    ghost use Rattle.luworld.specs.Needs.{PlanView, IsPlan};

    ghost Value = { PlanView };

    ghost view = { λ a. record {
      flat = arc_value a.flat;
      names = a.names;
      placed = a.placed;
      needs = a.needs;
      links = a.links;
      capacity = a.capacity;
    } };

    ghost invariant = { λ a. IsPlan (record {
      flat = arc_value a.flat;
      names = a.names;
      placed = a.placed;
      needs = a.needs;
      links = a.links;
      capacity = a.capacity;
    }) };
}

/// What follows of a program and of where its main variables stand.
struct Followed {
    names: Row<Name>,
    needs: Row<Row<usize>>,
    links: Row<Link>,
}

/// What follows of a program whose main variables stand at these sites: with it they are a plan.
fn what_follows(
    alloc: Global,
    flat: &Flat,
    place: &Place,
    placed: &[Row<u8>],
) -> Result<Followed, AllocError>
    requires rows { placed.now ≡ placed_by flat.now.variables place.now }
    requires somewhere { are_somewhere placed.now ≡ true }
    requires together { are_together flat.now.owners placed.now ≡ true }
    ensures names { IfOk result (λ x. x.names ≡ place.now.sites) }
    ensures in_order { IfOk result (λ x. All IsStrictlyIncreasing x.needs) }
    ensures plan { IfOk result (λ x. IsPlan (record {
      flat = flat.now;
      names = x.names;
      placed = placed.now;
      needs = x.needs;
      links = x.links;
      capacity = place.now.capacity;
    })) }
{
    let rows = all_marks(alloc, flat, placed, place.sites().len() as u8)?;
    flat.recall_invariant();
    let variables = flat.variables().len();
    let links = links_of(alloc, rows.as_slice(), flat.owners(), placed, variables)?;
    let needs = needs_of(alloc, rows.as_slice())?;
    let names = names_of(alloc, place.sites())?;
    Ok(Followed {
        names: Row::new(names),
        needs: Row::new(needs),
        links: Row::new(links),
    })
}

impl Plan {
    /// The plan of a program and a placement as it was read: the program's main variables at the sites that
    /// the placement puts them at, and what follows: a variable with several sites is computed, or read, at
    /// each of them. A placement is refused for the first of these: `UnknownVariable` where it places what is
    /// no main variable, `Unplaced` where a main variable has no site, `SplitCall` where the variables of one
    /// equation stand at different sites. `OutOfMemory` may come in place of any answer.
    pub fn make(alloc: Global, flat: Flat, place: &Place) -> Result<Plan, PlaceError>
        ensures made { IfOk result (IsPlanOf flat place.now) }
        ensures refused { IfErr result (λ e. (e ≡ PlaceError.OutOfMemory)
            ⊎ (refusal flat place.now ≡ Some e)) }
    {
        let placed = placed_by(alloc, &flat, place)?;
        let Followed {
            names,
            needs,
            links,
        } = what_follows(alloc, &flat, place, placed.as_slice())?;
        let shared = Arc::new(alloc, flat)?;
        Ok(Plan::of_parts(
            shared,
            names,
            Row::new(placed),
            needs,
            links,
            place.capacity(),
        ))
    }

    /// The plan of these parts, which are what they are said to be.
    pub(crate) fn of_parts(
        flat: Arc<Flat>,
        names: Row<Name>,
        placed: Row<Row<u8>>,
        needs: Row<Row<usize>>,
        links: Row<Link>,
        capacity: u16,
    ) -> Plan
        requires { IsPlan (record {
          flat = arc_value flat;
          names = names;
          placed = placed;
          needs = needs;
          links = links;
          capacity = capacity;
        }) }
        ensures { result ≡ record {
          flat = arc_value flat;
          names = names;
          placed = placed;
          needs = needs;
          links = links;
          capacity = capacity;
        } }
    {
        Plan {
            flat,
            names,
            placed,
            needs,
            links,
            capacity,
        }
    }

    /// Does nothing. A proof has from it that the needs and the links are those of the placed program.
    pub fn recall_invariant(&self)
        ensures { IsPlan self.now }
    {
        let _ = &self.flat;
    }

    /// The flat program. Takes no memory.
    pub fn flat(&self) -> &Flat
        ensures flat { result.now ≡ self.now.flat }
        ensures plan { IsPlan self.now }
    {
        &self.flat
    }

    /// The flat program, to be shared.
    ///
    /// # Errors
    ///
    /// None but where the program is shared more often than can be counted.
    pub fn shared_flat(&self) -> Result<Arc<Flat>, AllocError>
        ensures { IfOk result (λ flat. arc_value flat ≡ self.now.flat) }
    {
        Arc::try_clone(&self.flat)
    }

    /// The names of the sites, by number. Takes no memory.
    pub fn sites(&self) -> &[Name]
        ensures { result.now ≡ self.now.names }
    {
        self.names.as_slice()
    }

    /// How many messages a link may hold, 1 to 1,024. Takes no memory.
    pub fn capacity(&self) -> u16
        ensures { result ≡ self.now.capacity }
    {
        self.capacity
    }

    /// Whether the flow of this place is computed at the site. Takes no memory.
    pub fn stands(&self, place: usize, site: u8) -> bool
        ensures { result ≡ stands self.now place site }
    {
        let variable = number_at(self.flat.owners(), place);
        is_in(site, row_at(self.placed.as_slice(), variable))
    }

    /// The sites at which a main variable stands, in order. Takes no memory.
    pub fn sites_of(&self, variable: usize) -> &[u8]
        requires { variable < length self.now.placed }
        ensures { result.now ≡ row self.now.placed variable }
    {
        self.placed.as_slice()[variable].as_slice()
    }

    /// The site that sends a flow and reports it: the first one of its main variable. Takes no memory.
    pub fn home(&self, place: usize) -> u8
        ensures { result ≡ home self.now place }
    {
        home_of(self.flat.owners(), self.placed.as_slice(), place)
    }

    /// How many flows are computed at a site. Takes no memory; the time grows with the number of flows.
    pub fn flow_count(&self, site: u8) -> usize
        ensures { result ≡ flows_at self.now site }
    {
        let count = self.flat.flows().len();
        (0..count).filter(|i| self.stands(*i, site)).count()
    }

    /// The places of the flows that a site needs, in order: all that its flows name, and the variables of
    /// their clocks. Takes no memory.
    pub fn needs(&self, site: u8) -> &[usize]
        requires { site < sites_of self.now }
        ensures { result.now ≡ row self.now.needs site }
    {
        self.needs.as_slice()[site as usize].as_slice()
    }

    /// The links, by number. Takes no memory.
    pub fn links(&self) -> &[Link]
        ensures { result.now ≡ self.now.links }
    {
        self.links.as_slice()
    }
}
