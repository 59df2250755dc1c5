//! A grid of marks: a cell for each flow and instant.

ghost use Rattle.std.specs.Prelude.{◌≡◌, ◌≤◌, ◌*◌, length};
ghost use Rattle.lubase.specs.Limits.{most_flows};

use crate::mark::{Mark, Marks};
use std::alloc::{AllocError, Global};

/// A cell for each of `width` flows at each of the first `instants` instants.
#[derive(Drop)]
pub struct Grid {
    pub width: usize,
    pub instants: u32,
    pub cells: Vec<Mark>,
    ghost few: { width ≤ most_flows },
    ghost long: { length cells.items ≡ instants * width },
}

impl Grid {
    ghost use Rattle.std.specs.Prelude.{◌≡◌, ◌<◌, ◌≤◌, IfOk};
    ghost use Rattle.luflow.specs.Messages.{marks};
    ghost use Rattle.test_reference.specs.AsMark.{as_mark};
    ghost use Rattle.test_reference.specs.Grids.{held, IsWith, IsSized};

    /// A grid that is broken everywhere.
    pub fn new(alloc: Global, width: usize, instants: u32) -> Result<Grid, AllocError>
        requires { width ≤ most_flows }
        ensures { IfOk result (IsSized width instants) }
    {
        let cells = vec![in alloc; Mark::Broken; instants as usize * width]?;
        Ok(Grid {
            width,
            instants,
            cells,
        })
    }

    /// What a flow has at an instant; broken outside of the grid.
    pub fn at(&self, flow: usize, instant: u32) -> Mark
        ensures { as_mark result ≡ held self.now flow instant }
    {
        if flow < self.width {
            let place = instant as usize * self.width + flow;
            match self.cells.get(place) {
                Some(mark) => *mark,
                None => Mark::Broken,
            }
        } else {
            Mark::Broken
        }
    }

    /// Changes one cell.
    pub fn set(&mut self, flow: usize, instant: u32, mark: Mark)
        requires flow_in { flow < self.old.width }
        requires instant_in { instant < self.old.instants }
        ensures { IsWith self.old self.new flow instant mark }
    {
        let place = instant as usize * self.width + flow;
        self.cells[place] = mark;
    }

    /// The marks of a flow at all instants of the grid.
    pub fn marks(&self, alloc: Global, flow: usize) -> Result<Marks, AllocError>
        ensures { IfOk result (λ row. row ≡ marks (held self.now flow) self.now.instants) }
    {
        let mut row = Vec::new(alloc);
        for instant in 0..self.instants {
            row.push(self.at(flow, instant))?;
        }
        Ok(Marks::new(row))
    }
}
