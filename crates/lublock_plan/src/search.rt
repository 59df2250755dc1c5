//! The parts of a program: cycles, and flows that don't lead to themselves.

use crate::cycle_code::{at, put};
use crate::reads::{read_of, reads_itself};
use luflow::Flat;
use std::alloc::{AllocError, Global};

/// More steps than the search for cycles takes: one for each flow and for each thing that a flow reads.
const MOST_STEPS: usize = 16_777_216;

/// A search for the parts of a program of which each flow leads, by what it reads, to each other: those that
/// a part reads are found before it.
#[derive(Drop)]
struct Search {
    /// When each flow was come to, from 1 on; 0 before.
    found: Vec<usize>,
    /// The earliest flow of the same part that each flow is known to lead to.
    low: Vec<usize>,
    /// The part of each flow, from 1 on; 0 before it is known.
    part: Vec<usize>,
    /// The flows that are in no part yet, as they were come to.
    open: Vec<usize>,
    /// The flows from the first one to the one at hand, each with how much of what it reads was looked at.
    path: Vec<(usize, usize)>,
    count: usize,
    parts: usize,
}

impl Search {
    fn new(alloc: Global, flows: usize) -> Result<Search, AllocError> {
        Ok(Search {
            found: vec![in alloc; 0usize; flows]?,
            low: vec![in alloc; 0usize; flows]?,
            part: vec![in alloc; 0usize; flows]?,
            open: Vec::with_capacity(alloc, flows)?,
            path: Vec::with_capacity(alloc, flows)?,
            count: 0,
            parts: 0,
        })
    }

    /// Comes to a flow.
    fn enter(&mut self, i: usize) -> Result<(), AllocError> {
        self.count = self.count.saturating_add(1);
        put(&mut self.found, i, self.count);
        put(&mut self.low, i, self.count);
        self.open.push(i)?;
        self.path.push((i, 0))?;
        Ok(())
    }

    /// A flow leads to one that is known to lead so far back.
    fn lower(&mut self, i: usize, to: usize) {
        if to < at(self.low.as_slice(), i) {
            put(&mut self.low, i, to);
        }
    }

    /// All that a flow reads was looked at: where it leads to no earlier flow, those that were come to since
    /// are a part.
    fn leave(&mut self, i: usize) {
        let low = at(self.low.as_slice(), i);
        if low == at(self.found.as_slice(), i) {
            self.parts = self.parts.saturating_add(1);
            for _k in 0..self.open.len() {
                if let Some(member) = self.open.pop() {
                    put(&mut self.part, member, self.parts);
                    if member == i {
                        break;
                    }
                }
            }
        }
        if let Some((reader, _)) = self.path.last() {
            let reader = *reader;
            self.lower(reader, low);
        }
    }

    /// One step of the search; whether one was left.
    fn step(&mut self, flat: &Flat) -> Result<bool, AllocError> {
        let Some((i, k)) = self.path.pop() else {
            return Ok(false);
        };
        let Some(read) = read_of(flat, i, k) else {
            self.leave(i);
            return Ok(true);
        };
        self.path.push((i, k.saturating_add(1)))?;
        if at(self.found.as_slice(), read) == 0 {
            self.enter(read)?;
        } else if at(self.part.as_slice(), read) == 0 {
            let found = at(self.found.as_slice(), read);
            self.lower(i, found);
        }
        Ok(true)
    }

    /// Finds all parts; whether it came to an end.
    fn run(&mut self, flat: &Flat) -> Result<bool, AllocError> {
        let mut next = 0usize;
        for _step in 0..MOST_STEPS {
            if !self.step(flat)? {
                match flat.rank().get(next) {
                    Some(i) => {
                        next = next.saturating_add(1);
                        if at(self.found.as_slice(), *i) == 0 {
                            self.enter(*i)?;
                        }
                    }
                    None => return Ok(true),
                }
            }
        }
        Ok(false)
    }

    /// The flows part by part, each in order of rank.
    fn sorted(&self, alloc: Global, flat: &Flat) -> Result<Parts, AllocError> {
        let mut ends = vec![in alloc; 0usize; self.parts.saturating_add(2)]?;
        for part in self.part.as_slice() {
            let next = part.saturating_add(1);
            let more = at(ends.as_slice(), next).saturating_add(1);
            put(&mut ends, next, more);
        }
        for k in 1..ends.len() {
            ends[k] = ends[k].saturating_add(ends[k - 1]);
        }
        let mut members = vec![in alloc; 0usize; flat.flows().len()]?;
        for i in flat.rank() {
            let part = at(self.part.as_slice(), *i);
            let place = at(ends.as_slice(), part);
            put(&mut members, place, *i);
            put(&mut ends, part, place.saturating_add(1));
        }
        ends.pop();
        Ok(Parts { members, ends })
    }
}

/// The parts of a program, those that a part reads before it, as the search finds them: so they are the same
/// wherever they are looked for.
#[derive(Drop)]
pub struct Parts {
    /// The flows part by part, each in order of rank.
    members: Vec<usize>,
    /// Where each part begins, and where the last one ends.
    ends: Vec<usize>,
}

impl Parts {
    /// The parts of a program, unless the search takes more steps than are allowed.
    pub fn of(alloc: Global, flat: &Flat) -> Result<Option<Parts>, AllocError> {
        let mut search = Search::new(alloc, flat.flows().len())?;
        if !search.run(flat)? {
            return Ok(None);
        }
        Ok(Some(search.sorted(alloc, flat)?))
    }

    /// How many parts there are.
    pub fn len(&self) -> usize {
        self.ends.len().saturating_sub(1)
    }

    /// The flows of part k, counted from 0, in order of rank.
    pub fn part(&self, k: usize) -> Option<&[usize]> {
        let ends = self.ends.as_slice();
        let (from, to) = (at(ends, k), at(ends, k.saturating_add(1)));
        self.members.as_slice().get(from..to)
    }
}

/// Whether the flows of a part lead to themselves.
pub fn is_cycle(flat: &Flat, part: &[usize]) -> bool {
    match part.first() {
        Some(i) => part.len() > 1 || reads_itself(flat, *i),
        None => false,
    }
}
