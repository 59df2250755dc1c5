//! The order in which one site works out a block of its flows, takes the words of others from links, and puts
//! its own to them. The order of the program's parts is the same at each site.

use crate::cycle::Cycle;
use crate::cycle_code::{at, put};
use crate::needs::is_marked;
use crate::plan::{Plan, Step, new_places};
use crate::search::Parts;
use luflow::Flat;
use std::alloc::{AllocError, Global};
use std::mem;

/// What a site does at a time.
#[derive(Clone, Copy, Drop)]
pub enum SiteStep {
    /// Takes the words of a flow from the end of this number: the end, the flow, and a flow of the same clock
    /// that was counted before it, or itself.
    Take(usize, usize, usize),
    /// Finds all words of a flow, which has the clock of another that was counted before it, or of itself.
    Column(usize, usize),
    /// Finds what the `pre`s of the cycle of this number give.
    Cycle(usize),
    /// The words of these members, from the first place up to the second, are all found.
    Sure(usize, usize),
    /// Puts the words of its flow to the end of this number.
    Put(usize),
}

/// All steps of a site, its cycles, and the flows that its steps speak of by their places.
pub struct SitePlan {
    pub steps: Vec<SiteStep>,
    pub cycles: Vec<Cycle>,
    pub members: Vec<usize>,
}

// By hand, so that it is proved here alone, and not in each crate that owns one.
impl Drop for SitePlan {
    fn drop(self) {
        let Self {
            steps: _,
            cycles: _,
            members: _,
        } = self;
    }
}

/// The ends of links, by the flow that they carry.
#[derive(Drop)]
struct Ends {
    /// The first end of each flow, from 1 on; 0 for none.
    first: Vec<usize>,
    /// The next end of the same flow, from 1 on; 0 for none.
    next: Vec<usize>,
}

impl Ends {
    /// The ends of links that carry these flows.
    fn new(alloc: Global, flat: &Flat, carried: &[usize]) -> Result<Ends, AllocError> {
        let mut first = vec![in alloc; 0usize; flat.flows().len()]?;
        let mut next = vec![in alloc; 0usize; carried.len()]?;
        for k in (0..carried.len()).rev() {
            let flow = carried[k];
            put(&mut next, k, at(first.as_slice(), flow));
            put(&mut first, flow, k.saturating_add(1));
        }
        Ok(Ends { first, next })
    }

    /// The first end of a flow.
    fn first_of(&self, flow: usize) -> Option<usize> {
        at(self.first.as_slice(), flow).checked_sub(1)
    }

    /// The next end of the same flow.
    fn after(&self, end: usize) -> Option<usize> {
        at(self.next.as_slice(), end).checked_sub(1)
    }
}

/// A site's plan while it is made.
#[derive(Drop)]
struct Draft {
    /// Where own flows are placed, as in the plan of a whole program.
    plan: Plan,
    /// Room for the places of a cycle's words, of which none is taken between two cycles.
    places: Vec<usize>,
    steps: Vec<SiteStep>,
    members: Vec<usize>,
}

impl Draft {
    fn new(alloc: Global, flat: &Flat) -> Result<Draft, AllocError> {
        Ok(Draft {
            plan: Plan::empty(alloc, flat)?,
            places: new_places(alloc, flat)?,
            steps: Vec::new(alloc),
            members: Vec::new(alloc),
        })
    }

    /// All that is found of these flows now.
    fn sure(&mut self, flows: &[usize]) -> Result<(), AllocError> {
        let from = self.members.len();
        for i in flows {
            self.members.push(*i)?;
        }
        self.steps.push(SiteStep::Sure(from, self.members.len()))?;
        Ok(())
    }

    /// Puts a flow to each of its ends.
    fn put(&mut self, sent: &Ends, flow: usize) -> Result<(), AllocError> {
        let mut end = sent.first_of(flow);
        for _k in 0..sent.next.len() {
            let Some(k) = end else {
                return Ok(());
            };
            self.steps.push(SiteStep::Put(k))?;
            end = sent.after(k);
        }
        Ok(())
    }

    /// Places a part whose flows are all computed here, as `Plan` does, and puts them to their ends.
    fn compute(
        &mut self,
        alloc: Global,
        flat: &Flat,
        part: &[usize],
        sent: &Ends,
        instants: usize,
    ) -> Result<(), AllocError> {
        self.plan
            .place(alloc, flat, part, &mut self.places, instants)?;
        for step in &self.plan.steps {
            self.steps.push(match *step {
                Step::Column(i, like) => SiteStep::Column(i, like),
                Step::Cycle(k) => SiteStep::Cycle(k),
            })?;
        }
        self.plan.steps.clear();
        self.sure(part)?;
        for i in part {
            self.put(sent, *i)?;
        }
        Ok(())
    }

    /// Takes the flows of a part that come from elsewhere; whether some has no end.
    fn take(
        &mut self,
        flat: &Flat,
        part: &[usize],
        taken: &[bool],
        brought: &Ends,
    ) -> Result<bool, AllocError> {
        for i in part {
            if is_marked(taken, *i) {
                let (Some(end), Some(like)) = (brought.first_of(*i), self.plan.like(flat, *i))
                else {
                    return Ok(true);
                };
                self.steps.push(SiteStep::Take(end, *i, like))?;
                self.sure(&[*i])?;
            }
        }
        Ok(false)
    }
}

/// How many of these flows are marked.
fn count_marked(marks: &[bool], flows: &[usize]) -> usize {
    flows.iter().filter(|i| is_marked(marks, **i)).count()
}

/// An order for what a site does in blocks of so many instants, given which flows it computes and which of
/// the others it takes, the flow that each of its receiving ends brings, and the one that each of its sending
/// ends carries. None where it doesn't work in blocks: of some cycle it computes some flows and not all, or a
/// flow that it takes has no end, or the search for cycles takes more steps than are allowed.
///
/// # Errors
///
/// Out of memory.
pub fn site_plan(
    alloc: Global,
    flat: &Flat,
    own: &[bool],
    taken: &[bool],
    brought: &[usize],
    sent: &[usize],
    instants: usize,
) -> Result<Option<SitePlan>, AllocError> {
    let Some(parts) = Parts::of(alloc, flat)? else {
        return Ok(None);
    };
    let brought = Ends::new(alloc, flat, brought)?;
    let sent = Ends::new(alloc, flat, sent)?;
    let mut draft = Draft::new(alloc, flat)?;
    for k in 0..parts.len() {
        if let Some(part) = parts.part(k) {
            let here = count_marked(own, part);
            if here == part.len() {
                draft.compute(alloc, flat, part, &sent, instants)?;
            } else if 0 < here || draft.take(flat, part, taken, &brought)? {
                return Ok(None);
            }
        }
    }
    Ok(Some(SitePlan {
        steps: mem::replace(&mut draft.steps, Vec::new(alloc)),
        cycles: mem::replace(&mut draft.plan.cycles, Vec::new(alloc)),
        members: mem::replace(&mut draft.members, Vec::new(alloc)),
    }))
}
