//! The columns of a run in blocks, for a part of a program as for a whole one: what a block has goes to their
//! ends, and those of outputs are kept.

ghost use Rattle.std.specs.Prelude.{◌≡◌, ℕ, length, false, IfOk, Some, slice_get};
ghost use Rattle.lublock.specs.Shown.{AreKept, StaysNear, StaysNearIn};

use crate::board::Board;
use crate::show::{first_of, show};
use luflow::{Flat, Status};
use std::alloc::{AllocError, Global};

/// Puts the statuses of these main variables at a block's instants at their columns' ends, as [`show_part`]
/// does.
pub(crate) fn show_flows(
    alloc: Global,
    flat: &Flat,
    board: &Board,
    columns: &mut Vec<Vec<Status>>,
    needs: &[usize],
    t: usize,
    len: usize,
) -> Result<bool, AllocError>
    ensures len { IfOk result (λ none. none ≡ false
        → length columns.new.items ≡ length columns.old.items) }
    ensures near { IfOk result (λ none. none ≡ false
        → StaysNear flat.now t len board.now (λ v. (k : ℕ) × (slice_get needs.now k ≡ Some v))
        columns.old.items columns.new.items) }
{
    for v in needs {
        if show(alloc, flat, board, columns, t, len, *v)? {
            return Ok(true);
        }
    }
    Ok(false)
}

/// Puts the statuses of these main variables of a part at a block's instants, `len` from `t` on, at their
/// columns' ends, in this order; whether some isn't there. The variable of a clock comes before those that
/// have the clock.
///
/// # Errors
///
/// Out of memory. After an error, and where some isn't there, nothing is known of the columns.
pub fn show_part(
    alloc: Global,
    flat: &Flat,
    board: &Board,
    columns: &mut Vec<Vec<Status>>,
    needs: &[usize],
    t: usize,
    len: usize,
) -> Result<bool, AllocError>
    ensures len { IfOk result (λ none. none ≡ false
        → length columns.new.items ≡ length columns.old.items) }
    ensures near { IfOk result (λ none. none ≡ false
        → StaysNearIn flat.now t len board.now needs.now columns.old.items columns.new.items) }
{
    show_flows(alloc, flat, board, columns, needs, t, len)
}

/// Forgets what main variables have that aren't outputs.
pub fn clear_others(flat: &Flat, columns: &mut Vec<Vec<Status>>)
    ensures len { length columns.new.items ≡ length columns.old.items }
    ensures kept { AreKept flat.now columns.old.items columns.new.items }
{
    for v in 0..columns.len() {
        if first_of(flat, v, 1) != 0 {
            columns[v].clear();
        }
    }
}
