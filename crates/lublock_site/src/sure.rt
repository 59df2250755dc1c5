//! Which flows of a block are sure: all their words are found, and so are those that they were found from.

ghost use Rattle.std.specs.Prelude.{◌≡◌, ◌⊎◌, ◌∷◌, [], ℕ, List, Bool, true, false, length, Some, slice_get};
ghost use Rattle.luflow.specs.Program.{InputsView, flow_at};
ghost use Rattle.luflow.specs.declared.form.Flow.{Flow};
ghost use Rattle.lublock.specs.Boards.{IsSettled, StandsStill};
ghost use Rattle.lublock_kernels.specs.Parts.{IsPart};
ghost use Rattle.lublock_site.specs.Marks.{marked, marked_part};
ghost use Rattle.lublock_site.specs.Sure.{AreSure, IsMarkedMore, ReadsSure};

use crate::parts::{clock_known, form_known, is_marked};
use lublock::Board;
use luflow::Flat;

/// Looks whether these flows have all their words, and whether what was supposed of them is right; true where
/// something is missing or wrong.
fn settle_all(flat: &Flat, board: &mut Board, flows: &[usize]) -> bool
    ensures stands { (inputs : InputsView) (t len : ℕ)
        → StandsStill flat.now inputs t len board.old board.new }
    ensures settled { result ≡ false → (k i : ℕ) → slice_get flows.now k ≡ Some i
        → IsSettled board.new.spans.items i }
    ensures flows { length board.new.spans.items ≡ length board.old.spans.items }
{
    for k in 0..flows.len() {
        if board.settle(flat, flows[k]) {
            return true;
        }
    }
    false
}

/// Marks one place, if it is there.
fn mark(marks: &mut Vec<bool>, i: usize)
    ensures { IsMarkedMore marks.old.items marks.new.items (i ∷ []) }
{
    if i < marks.len() {
        marks[i] = true;
    }
}

/// Marks these places.
fn mark_all(marks: &mut Vec<bool>, flows: &[usize])
    ensures { IsMarkedMore marks.old.items marks.new.items flows.now }
{
    for k in 0..flows.len() {
        mark(marks, flows[k]);
    }
}

/// Whether what flow i reads is marked, if it is computed here, and the variable of its clock.
fn reads_marked(flat: &Flat, own: &[bool], marks: &[bool], i: usize) -> bool
    ensures { result ≡ true → ReadsSure flat.now own.now marks.now i }
{
    match flat.flows().get(i) {
        Some(flow) => {
            (!is_marked(own, i) || form_known(marks, &[], &flow.form))
                && clock_known(marks, &[], flow.clock)
        }
        None => true,
    }
}

/// Whether what these flows read is marked.
fn read_marked(flat: &Flat, own: &[bool], marks: &[bool], flows: &[usize]) -> bool
    ensures { result ≡ true → (k i : ℕ) → slice_get flows.now k ≡ Some i
        → ReadsSure flat.now own.now marks.now i }
{
    for k in 0..flows.len() {
        if !reads_marked(flat, own, marks, flows[k]) {
            return false;
        }
    }
    true
}

/// Looks whether these flows are found, and whether all that they read is sure or among them, so that they
/// are sure now; true where that isn't so.
pub fn admit(
    flat: &Flat,
    own: &[bool],
    board: &mut Board,
    sure: &mut Vec<bool>,
    flows: &[usize],
) -> bool
    ensures stands { (inputs : InputsView) (t len : ℕ)
        → StandsStill flat.now inputs t len board.old board.new }
    ensures sure { result ≡ false → (taken : List Bool)
        → IsPart flat.now (marked_part own.now taken)
        → AreSure flat.now own.now taken board.old.spans.items sure.old.items
        → AreSure flat.now own.now taken board.new.spans.items sure.new.items }
    ensures flows { length board.new.spans.items ≡ length board.old.spans.items }
{
    if settle_all(flat, board, flows) {
        return true;
    }
    mark_all(sure, flows);
    !read_marked(flat, own, sure.as_slice(), flows)
}
