//! The order in which a block's flows are worked out. What is read is tested where it is read, so nothing
//! depends on the order but the time that it takes.

use crate::cycle::Cycle;
use crate::cycle_code::put;
use crate::reads::is_pre;
use crate::search::{Parts, is_cycle};
use luflow::{Clock, Datum, Flat};
use std::alloc::{AllocError, Global};

/// What is done at a time: all ticks of one flow, which has the clock of another that was counted before it,
/// or of itself; or, for the cycle of this number, what its `pre`s give.
#[derive(Clone, Copy, Drop)]
pub enum Step {
    Column(usize, usize),
    Cycle(usize),
}

/// All steps, and the cycles.
pub struct Plan {
    pub steps: Vec<Step>,
    pub cycles: Vec<Cycle>,
    /// The first flow that was placed of some clocks.
    firsts: Vec<usize>,
}

// By hand, so that it is proved here alone, and not in each crate that owns one.
impl Drop for Plan {
    fn drop(self) {
        let Self {
            steps: _,
            cycles: _,
            firsts: _,
        } = self;
    }
}

impl Plan {
    /// An order for all flows of a program, in a time that grows with the flows and with what they read.
    /// Where the search takes more steps than are allowed, the plan is empty, and nothing is worked out by
    /// it.
    pub fn new(alloc: Global, flat: &Flat, instants: usize) -> Result<Plan, AllocError> {
        let mut plan = Plan::empty(alloc, flat)?;
        let Some(parts) = Parts::of(alloc, flat)? else {
            return Ok(plan);
        };
        let mut places = new_places(alloc, flat)?;
        for k in 0..parts.len() {
            if let Some(part) = parts.part(k) {
                plan.place(alloc, flat, part, &mut places, instants)?;
            }
        }
        Ok(plan)
    }

    /// A plan without steps.
    pub(crate) fn empty(alloc: Global, flat: &Flat) -> Result<Plan, AllocError> {
        let count = flat.flows().len();
        Ok(Plan {
            steps: Vec::with_capacity(alloc, count)?,
            cycles: Vec::new(alloc),
            firsts: vec![in alloc; usize::MAX; count.saturating_add(count).saturating_add(1)]?,
        })
    }

    /// Places a part: a flow that doesn't lead to itself; or a cycle, first what its `pre`s give, then its
    /// other flows, then its `pre`s.
    pub(crate) fn place(
        &mut self,
        alloc: Global,
        flat: &Flat,
        part: &[usize],
        places: &mut Vec<usize>,
        instants: usize,
    ) -> Result<(), AllocError> {
        let is_cycle = is_cycle(flat, part);
        if is_cycle {
            self.steps.push(Step::Cycle(self.cycles.len()))?;
            self.cycles
                .push(Cycle::new(alloc, flat, part, places, instants)?)?;
        }
        for i in part {
            if !(is_cycle && is_pre(flat, *i)) {
                self.column(flat, *i)?;
            }
        }
        for i in part {
            if is_cycle && is_pre(flat, *i) {
                self.column(flat, *i)?;
            }
        }
        Ok(())
    }

    /// Places one flow.
    fn column(&mut self, flat: &Flat, i: usize) -> Result<(), AllocError> {
        if let Some(like) = self.like(flat, i) {
            self.steps.push(Step::Column(i, like))?;
        }
        Ok(())
    }

    /// The first flow that was placed of the clock of this one, which is placed now.
    pub(crate) fn like(&mut self, flat: &Flat, i: usize) -> Option<usize> {
        let clock = clock_at(flat, i)?;
        let at = slot_of(clock);
        let like = match self.firsts.get(at) {
            Some(like) if clock_at(flat, *like) == Some(clock) => *like,
            _ => i,
        };
        put(&mut self.firsts, at, like);
        Some(like)
    }
}

/// Room for two places of each flow, of which none has one yet.
pub(crate) fn new_places(alloc: Global, flat: &Flat) -> Result<Vec<usize>, AllocError> {
    let count = flat.flows().len();
    Ok(vec![in alloc; usize::MAX; count.saturating_add(count)]?)
}

/// The clock of a flow.
fn clock_at(flat: &Flat, r: usize) -> Option<Clock> {
    match flat.flows().get(r) {
        Some(flow) => Some(flow.clock),
        None => None,
    }
}

/// Where the first flow of a clock is kept: one for the base clock, and two for each variable.
fn slot_of(clock: Clock) -> usize {
    match clock {
        Clock::Base => 0,
        Clock::On(c, datum) => {
            let place = c.saturating_add(c);
            place.saturating_add(match datum {
                Datum::Bool(false) => 2,
                _ => 1,
            })
        }
    }
}
