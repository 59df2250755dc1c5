//! Where all words of a flow are found, before the block is whole.

ghost use Rattle.std.specs.Prelude.{◌≡◌, ◌≤◌, ℕ, false, true, length};
ghost use Rattle.luflow.specs.Program.{InputsView, flow_at};
ghost use Rattle.luflow.specs.declared.form.Flow.{Flow};
ghost use Rattle.luflow.specs.declared.form.Form.{Form};
ghost use Rattle.lublock_kernels.specs.Machine.{IsClosed, upto_of};
ghost use Rattle.lublock_kernels.specs.Wholes.{IsWholeAt};
ghost use Rattle.lublock.specs.Boards.{IsSettled, StandsStill};

use crate::board::Board;
use crate::closing::form_closes;
use lublock_kernels::forms::upto_at;
use lublock_kernels::span::Span;
use luflow::{Flat, Form};

/// Whether a flow has all its words.
fn is_whole_at(spans: &[Span], i: usize) -> bool
    ensures { result ≡ true → IsWholeAt spans.now i }
{
    match spans.get(i) {
        Some(span) => span.known && span.ticks <= span.upto,
        None => false,
    }
}

/// Whether the operand of a `pre` has so many words.
fn has_past(form: &Form, spans: &[Span], ticks: usize) -> bool
    ensures { result ≡ true → (a : ℕ) → form.now ≡ Form.Pre a → ticks ≤ upto_of spans.now a }
{
    match form {
        Form::Pre(a) => ticks <= upto_at(spans, *a),
        _ => false,
    }
}

/// Whether flow i is a `pre` that has at each of its ticks the word that its operand has a tick before.
fn is_found(flat: &Flat, rows: &[Vec<i64>], spans: &[Span], i: usize, ticks: usize) -> bool
    ensures closed { result ≡ true → (flow : Flow) → flow_at flat.now i ≡ Some flow
        → IsClosed rows.now i ticks flow.form }
    ensures past { result ≡ true → (flow : Flow) → flow_at flat.now i ≡ Some flow
        → (a : ℕ) → flow.form ≡ Form.Pre a → ticks ≤ upto_of spans.now a }
{
    match flat.flows().get(i) {
        Some(flow) => {
            form_closes(&flow.form, rows, i, ticks) && has_past(&flow.form, spans, ticks)
        }
        None => false,
    }
}

impl Board {
    /// Looks whether flow i has all its words and, where they were supposed, whether they are what its form
    /// asks for; true where something is missing or wrong.
    pub fn settle(&mut self, flat: &Flat, i: usize) -> bool
        ensures stands { (inputs : InputsView) (t len : ℕ)
            → StandsStill flat.now inputs t len self.old self.new }
        ensures settled { result ≡ false → IsSettled self.new.spans.items i }
        ensures flows { length self.new.spans.items ≡ length self.old.spans.items }
    {
        if self.spans.len() <= i || !is_whole_at(self.spans.as_slice(), i) {
            return true;
        }
        let span = self.spans[i];
        if !span.supposed {
            return false;
        }
        let rows = self.rows.as_slice();
        if span.ticks != span.upto || !is_found(flat, rows, self.spans.as_slice(), i, span.ticks) {
            return true;
        }
        self.spans[i] = Span {
            ticks: span.ticks,
            upto: span.upto,
            was: span.was,
            known: span.known,
            supposed: false,
            taken: span.taken,
        };
        false
    }
}
