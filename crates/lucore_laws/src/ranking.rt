//! The order of ranks, or a place on a cycle.

ghost use Rattle.std.specs.Prelude.{◌≡◌, ℕ, IfOk, length, map};
ghost use Rattle.lucore_laws.specs.Answer.{IfOrdered, IfCyclic};
ghost use Rattle.luflow.specs.Rank.{Chain, IsRankOrder};
ghost use Rattle.lucore_laws.specs.Rank.{AreClosed, IsLeastOnCycle};
ghost use Rattle.lucore_laws.specs.Search.{AreFree};

use crate::cycle::least_on_cycle;
use crate::readers::Readers;
use crate::ready::Ready;
use crate::release::release;
use lubase::Row;
use std::alloc::{AllocError, Global};

/// What [`rank`] finds.
#[derive(Drop)]
pub enum Ranking {
    /// All places in the order of their ranks.
    Ordered(Row<usize>),
    /// The least place that reads itself through a chain of one read or more.
    Cyclic(usize),
}

/// How many reads each place has.
fn reads_missing(alloc: Global, rows: &[Row<usize>]) -> Result<Vec<usize>, AllocError>
    ensures { IfOk result (λ missing. missing.items ≡ map (λ reads. length reads) rows.now) }
{
    let mut missing = Vec::with_capacity(alloc, rows.len())?;
    for reads in rows {
        missing.push(reads.as_slice().len())?;
    }
    Ok(missing)
}

/// The places that have no missing read.
fn free_places(alloc: Global, missing: &[usize]) -> Result<Ready, AllocError>
    ensures { IfOk result (AreFree missing.now) }
{
    let mut ready = Ready::none(alloc, missing.len())?;
    for (place, count) in missing.iter().enumerate() {
        if *count != 0 {
            continue;
        }
        ready.push(place)?;
    }
    Ok(ready)
}

/// The order of ranks of places with these rows of reads, or the least place that reads itself through a
/// chain of reads.
///
/// The places are those of `rows`, from 0. The row at a place has the places that it reads, in any order and
/// any number of times. The next rank goes to the least place among those without a rank whose reads all have
/// one. There is an order exactly where no place reads itself through a chain of one read or more. The time
/// grows with the number of reads, and with the number of places times its logarithm.
///
/// # Errors
///
/// An error means that memory ran out; nothing is kept.
pub fn rank(alloc: Global, rows: &[Row<usize>]) -> Result<Ranking, AllocError>
    requires { AreClosed rows.now }
    ensures order { IfOk result (λ r. IfOrdered r (IsRankOrder rows.now)) }
    ensures straight { IfOk result (λ r. IfOrdered r (λ _. (x : ℕ) → ¬ Chain rows.now x x)) }
    ensures cycle { IfOk result (λ r. IfCyclic r (IsLeastOnCycle rows.now)) }
{
    let readers = Readers::of_rows(alloc, rows)?;
    let mut missing = reads_missing(alloc, rows)?;
    let mut ready = free_places(alloc, &missing)?;
    let mut order = Vec::with_capacity(alloc, rows.len())?;
    for _ in 0..rows.len() {
        let Some(place) = ready.pop() else {
            let least = least_on_cycle(alloc, rows)?;
            return Ok(Ranking::Cyclic(least));
        };
        release(readers.of(place), &mut missing, &mut ready)?;
        order.push(place)?;
    }
    Ok(Ranking::Ordered(Row::new(order)))
}
