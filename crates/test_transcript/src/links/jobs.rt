//! A job of two sites, of which the first sends its input to the second: its link carries 0, 1, 2 and so on.

use crate::jobs::job_of_texts;
use luplace::Job;
use std::alloc::{AllocError, Global};

const PROGRAM: &str = "node main(x: int) returns (y: int); let y = x + 1; tel";

const TWO_SITES: &str = "sites = [\"A\", \"B\"]\n[place]\nx = \"A\"\ny = \"B\"\n";

/// A table of so many numbers, from 0 on.
fn table_of(alloc: Global, instants: u32) -> Result<String, AllocError> {
    let mut table = String::from_str(alloc, "x\n")?;
    for instant in 0..instants {
        let row = format!(in alloc; "{instant}\n")?;
        table.push_str(row.as_str())?;
    }
    Ok(table)
}

/// The job over so many instants; `None` where there is no memory for it.
pub fn job_of_numbers(alloc: Global, instants: u32) -> Option<Job> {
    let table = table_of(alloc, instants).ok()?;
    job_of_texts(alloc, PROGRAM, TWO_SITES, table.as_str())
}
