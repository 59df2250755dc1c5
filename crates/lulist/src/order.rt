//! The order in which a site goes through its flows: first the constants of the base clock; then those that
//! it computes in order of rank, and those that links bring as late as may be, just before the first that
//! reads them at its own instant, or behind all. Between two that links bring, those that it computes stand
//! together by clock, as far as what they read allows. Nothing is promised of it: whoever uses it looks
//! whether what is read comes first.

use luflow::{Clock, Flat, Flow, Form};
use std::alloc::{AllocError, Global};

/// The operand of this number that a form reads at its own instant; none behind the last.
fn read_at(form: &Form, j: usize) -> Option<usize> {
    match form {
        Form::Pre(_) => None,
        _ => form.operand(j),
    }
}

fn is_marked(marks: &[bool], i: usize) -> bool {
    match marks.get(i) {
        Some(mark) => *mark,
        None => false,
    }
}

/// An order that is being made.
#[derive(Drop)]
struct Making {
    placed: Vec<bool>,
    order: Vec<usize>,
    /// Room for a flow and the variables of its clocks.
    chain: Vec<usize>,
}

impl Making {
    fn place(&mut self, i: usize) -> Result<(), AllocError> {
        if i < self.placed.len() && !self.placed[i] {
            self.placed[i] = true;
            self.order.push(i)?;
        }
        Ok(())
    }

    /// Places a flow that a link brings, behind the variables of its clocks that links bring.
    fn place_taken(&mut self, flat: &Flat, taken: &[bool], i: usize) -> Result<(), AllocError> {
        let mut next = Some(i);
        self.chain.clear();
        for _step in 0..taken.len() {
            let Some(at) = next else {
                break;
            };
            if !is_marked(taken, at) || is_marked(&self.placed, at) {
                break;
            }
            self.chain.push(at)?;
            next = match flat.flows().get(at) {
                Some(flow) => flow.clock.variable(),
                None => None,
            };
        }
        let count = self.chain.len();
        for n in 0..count {
            match self.chain.get(count - 1 - n).copied() {
                Some(at) => self.place(at)?,
                None => break,
            }
        }
        Ok(())
    }

    /// Places a flow that is computed here, behind what links bring of what it reads.
    fn place_own(&mut self, flat: &Flat, taken: &[bool], i: usize) -> Result<(), AllocError> {
        let Some(flow) = flat.flows().get(i) else {
            return Ok(());
        };
        if let Some(c) = flow.clock.variable() {
            self.place_taken(flat, taken, c)?;
        }
        for j in 0..flat.flows().len() {
            match read_at(&flow.form, j) {
                Some(r) => self.place_taken(flat, taken, r)?,
                None => break,
            }
        }
        self.place(i)
    }
}

/// Whether a flow has one value at all instants.
fn is_fixed(flow: &Flow) -> bool {
    match (&flow.form, flow.clock) {
        (Form::Constant(_), Clock::Base) => true,
        _ => false,
    }
}

/// How many of the last rounds may take another flow.
const NEAR: usize = 64;

/// The rounds in which an order goes through its flows: those of one round have one clock, or a link brings
/// the only one.
#[derive(Drop)]
struct Rounds {
    clocks: Vec<Clock>,
    /// The round of each flow, by place.
    of: Vec<usize>,
    /// The first round behind the last flow that a link brings.
    first: usize,
}

impl Rounds {
    fn set(&mut self, i: usize, round: usize) {
        if i < self.of.len() {
            self.of[i] = round;
        }
    }

    fn of(&self, i: usize) -> usize {
        match self.of.get(i) {
            Some(round) => *round,
            None => 0,
        }
    }

    /// The first round in which a flow of this clock can be that reads flow r.
    fn behind(&self, flat: &Flat, own: &[bool], r: usize, clock: Clock) -> usize {
        if !is_marked(own, r) {
            return 0;
        }
        match flat.flows().get(r) {
            Some(flow) => {
                if flow.clock == clock {
                    self.of(r)
                } else {
                    self.of(r).saturating_add(1)
                }
            }
            None => 0,
        }
    }

    /// The first round in which a flow can be that is computed here.
    fn least(&self, flat: &Flat, own: &[bool], flow: &Flow) -> usize {
        let mut least = self.first;
        if let Some(c) = flow.clock.variable() {
            least = least.max(self.behind(flat, own, c, flow.clock));
        }
        for j in 0..flat.flows().len() {
            match read_at(&flow.form, j) {
                Some(r) => least = least.max(self.behind(flat, own, r, flow.clock)),
                None => break,
            }
        }
        least
    }

    /// Puts a flow that is computed here into the first round of its clock in which it can be, or into a new
    /// one.
    fn put_own(
        &mut self,
        flat: &Flat,
        own: &[bool],
        i: usize,
        flow: &Flow,
    ) -> Result<(), AllocError> {
        let least = self.least(flat, own, flow);
        let count = self.clocks.len();
        for j in least.max(count.saturating_sub(NEAR))..count {
            if self.clocks[j] == flow.clock {
                self.set(i, j);
                return Ok(());
            }
        }
        self.clocks.push(flow.clock)?;
        self.set(i, count);
        Ok(())
    }

    /// Puts a flow that a link brings into a round of its own, which no other flow passes.
    fn put_taken(&mut self, i: usize) -> Result<(), AllocError> {
        let round = self.clocks.len();
        self.set(i, round);
        self.clocks.push(Clock::Base)?;
        self.first = self.clocks.len();
        Ok(())
    }
}

/// Puts constants of the base clock first, and flows of one clock together that stand between two that links
/// bring.
fn group(
    alloc: Global,
    flat: &Flat,
    own: &[bool],
    order: &mut Vec<usize>,
) -> Result<(), AllocError> {
    let mut rounds = Rounds {
        clocks: vec![in alloc; Clock::Base; 1]?,
        of: vec![in alloc; 0; flat.flows().len()]?,
        first: 1,
    };
    for n in 0..order.len() {
        let i = order[n];
        let Some(flow) = flat.flows().get(i) else {
            continue;
        };
        if !is_marked(own, i) {
            rounds.put_taken(i)?;
        } else if !is_fixed(flow) {
            rounds.put_own(flat, own, i, flow)?;
        }
    }
    order
        .as_mut_slice()
        .sort_by_cached_key(alloc, |i: &usize| rounds.of(*i))?;
    Ok(())
}

/// The places of the flows that a site computes and takes, in the order in which it goes through them.
///
/// # Errors
///
/// Out of memory.
pub fn list_order(
    alloc: Global,
    flat: &Flat,
    own: &[bool],
    taken: &[bool],
) -> Result<Vec<usize>, AllocError> {
    let mut making = Making {
        placed: vec![in alloc; false; flat.flows().len()]?,
        order: Vec::new(alloc),
        chain: Vec::new(alloc),
    };
    for i in flat.rank() {
        if is_marked(own, *i) {
            making.place_own(flat, taken, *i)?;
        }
    }
    for i in flat.rank() {
        making.place_taken(flat, taken, *i)?;
    }
    let Making { mut order, .. } = making;
    group(alloc, flat, own, &mut order)?;
    Ok(order)
}
