//! How a program uses the distributor's crates: it has a design, its placement, a table and a schedule as
//! texts of its own, evaluates the design, runs it at two sites, each on a thread of its own, and replays it
//! there. Of what the run gives and of what the replay prints it has theorems, with nothing left to assume.
#![tactic(auto)]

mod design;
mod evaluating;
mod replaying;
mod running;
mod texts;

use crate::evaluating::table_of_design;
use crate::replaying::replay_of_design;
use crate::running::run_of_design;
use std::io;
use std::io::Write;

fn main(rt: HostRuntime) -> io::Result<()> {
    match table_of_design(rt.alloc()) {
        Ok(table) => print!(rt; "{table}\n")?,
        Err(stop) => println!(rt; "{stop}")?,
    }
    match run_of_design(&rt, rt.alloc()) {
        Some(table) => print!(rt; "{table}\n")?,
        None => println!(rt; "no outputs")?,
    }
    match replay_of_design(&rt, rt.alloc()) {
        Some(report) => rt.stdout().write_all(&report),
        None => println!(rt; "out of memory"),
    }
}
