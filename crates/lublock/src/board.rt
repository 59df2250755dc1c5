//! The rows of all flows, and how far each has come in the block.

ghost use Rattle.std.specs.Prelude.{◌≡◌, ◌≤◌, ◌<◌, ◌+◌, slice_get, ◌||◌, ◌&&◌, not, ℕ, suc, length, true, false, cond, IfOk, IfSome, Some, nat_lt, replicate};
ghost use Rattle.luflow.specs.Program.{FlatView, InputsView, flow_at};
ghost use Rattle.luflow.specs.declared.form.Flow.{Flow};
ghost use Rattle.lublock_kernels.specs.Rows.{Keeps, word_in};
ghost use Rattle.lublock_kernels.specs.Words.{datum_at};
ghost use Rattle.luflow.specs.Packed.{data_in};
ghost use Rattle.lublock.specs.Boards.{IsAfter, IsGiven, ReadsSame, StandsStill};
ghost use Rattle.lublock_kernels.specs.Machine.{IsConstant, IsCount, IsLike, WritesForm, row_of, ticks_of, upto_of, was_of, known_of, taken_of};

use lublock_kernels::clocked::ticks_at;
use lublock_kernels::clocks::count;
use lublock_kernels::forms::{clock_at, flow_of, kind_at, read};
use lublock_kernels::rows::put;
use lublock_kernels::singles::write_input;
use lublock_kernels::solve::solve_form;
use lublock_kernels::span::Span;
use luflow::{Clock, Datum, Flat, Flow, Form, Inputs, Values};
use lutree::Kind;
use std::alloc::{AllocError, Global};
use std::mem;

/// A row of words for each flow, and how far it has come.
#[derive(Drop)]
pub struct Board {
    pub rows: Vec<Vec<i64>>,
    pub spans: Vec<Span>,
}

/// How many ticks the clock of this variable and value has, if the variable has all its words.
fn hits_on(flat: &Flat, rows: &[Vec<i64>], spans: &[Span], c: usize, datum: Datum) -> Option<usize>
    ensures { IfSome result (λ n. (len : ℕ)
        → IsCount flat.now len rows.now spans.now (Clock.On c datum) n) }
{
    let Some(kind) = kind_at(flat, c) else {
        return None;
    };
    let Some(ticks) = ticks_at(spans, c) else {
        return None;
    };
    match read(rows, spans, c, ticks) {
        Some(z) => Some(count(z, kind, datum, ticks)),
        None => None,
    }
}

/// How many ticks a clock has in a block of `len` instants, if its variable has all its words.
fn ticks_on(
    flat: &Flat,
    rows: &[Vec<i64>],
    spans: &[Span],
    len: usize,
    clock: Clock,
) -> Option<usize>
    ensures { IfSome result (λ n. IsCount flat.now len rows.now spans.now clock n) }
{
    match clock {
        Clock::Base => Some(len),
        Clock::On(c, datum) => hits_on(flat, rows, spans, c, datum),
    }
}

/// How many ticks a clock has that this flow has, if they were counted.
fn ticks_like(flat: &Flat, spans: &[Span], clock: Clock, like: usize) -> Option<usize>
    ensures { IfSome result (IsLike flat.now spans.now clock like) }
{
    match flat.flows().get(like) {
        Some(flow) if flow.clock == clock => ticks_at(spans, like),
        _ => None,
    }
}

/// Writes the words of flow i into its row, as `solve_form` does.
fn solve_into(
    flat: &Flat,
    inputs: &Inputs,
    rows: &[Vec<i64>],
    spans: &[Span],
    t: usize,
    i: usize,
    flow: &Flow,
    row: &mut Vec<i64>,
    from: usize,
    to: usize,
) -> bool
    requires { to < length row.old.items }
    ensures kept { Keeps from row.old.items row.new.items }
    ensures words { result ≡ false → WritesForm flat.now inputs.now t rows.now spans.now i flow.now
        flow.now.form from to row.new.items }
{
    solve_form(
        flat,
        inputs,
        rows,
        spans,
        t,
        i,
        flow,
        row.as_mut_slice(),
        from,
        to,
    )
}

/// Where no block was yet.
fn fresh() -> Span
    ensures { result
        ≡ record { ticks = 0; upto = 0; was = false; known = false; supposed = false; taken = false } }
{
    Span {
        ticks: 0,
        upto: 0,
        was: false,
        known: false,
        supposed: false,
        taken: false,
    }
}

impl Board {
    /// A board before the first block, with room for blocks of so many instants.
    pub fn new(alloc: Global, flows: usize, instants: usize) -> Result<Board, AllocError>
        ensures { IfOk result (λ board. board.spans.items ≡ replicate flows
            (record { ticks = 0; upto = 0; was = false; known = false; supposed = false; taken = false })) }
    {
        let mut rows = Vec::with_capacity(alloc, flows)?;
        for _r in 0..flows {
            rows.push(vec![in alloc; 0i64; instants.saturating_add(1)]?)?;
        }
        let spans = vec![in alloc; fresh(); flows]?;
        Ok(Board { rows, spans })
    }

    /// Counts the ticks of flow i in a block of `len` instants, where they aren't counted yet; whether they
    /// can't be. Where flow `like` has the same clock and was counted, it has as many.
    pub fn count(&mut self, flat: &Flat, len: usize, i: usize, like: usize) -> bool
        ensures stands { (inputs : InputsView) (t : ℕ)
            → StandsStill flat.now inputs t len self.old self.new }
        ensures flows { length self.new.spans.items ≡ length self.old.spans.items }
    {
        if self.spans.len() <= i {
            return true;
        }
        let span = self.spans[i];
        if span.known {
            return false;
        }
        let Some(clock) = clock_at(flat, i) else {
            return true;
        };
        if let Some(ticks) = ticks_like(flat, self.spans.as_slice(), clock, like) {
            self.spans[i] = Span {
                ticks,
                upto: span.upto,
                was: span.was,
                known: true,
                supposed: span.supposed,
                taken: span.taken,
            };
            return false;
        }
        match ticks_on(
            flat,
            self.rows.as_slice(),
            self.spans.as_slice(),
            len,
            clock,
        ) {
            Some(ticks) => {
                self.spans[i] = Span {
                    ticks,
                    upto: span.upto,
                    was: span.was,
                    known: true,
                    supposed: span.supposed,
                    taken: span.taken,
                };
                false
            }
            None => true,
        }
    }

    /// Finds the words of flow i up to its tick `to`, where the block begins at instant `t`; whether some
    /// tick has none, or what is read isn't there.
    pub fn solve(
        &mut self,
        alloc: Global,
        flat: &Flat,
        inputs: &Inputs,
        t: usize,
        i: usize,
        to: usize,
    ) -> bool
        ensures stands { (len : ℕ) (table : InputsView) → ReadsSame flat.now inputs.now table i
            → StandsStill flat.now table t len self.old self.new }
        ensures flows { length self.new.spans.items ≡ length self.old.spans.items }
    {
        let Some(flow) = flow_of(flat, i) else {
            return true;
        };
        if self.spans.len() <= i || self.rows.len() <= i {
            return true;
        }
        let span = self.spans[i];
        if span.taken {
            return true;
        }
        let mut row = mem::replace(&mut self.rows[i], Vec::new(alloc));
        if row.len() <= to {
            self.rows[i] = row;
            return true;
        }
        let rows = self.rows.as_slice();
        let spans = self.spans.as_slice();
        let fault = solve_into(
            flat, inputs, rows, spans, t, i, flow, &mut row, span.upto, to,
        );
        self.rows[i] = row;
        if fault || to <= span.upto {
            return fault;
        }
        self.spans[i] = Span {
            ticks: span.ticks,
            upto: to,
            was: span.was,
            known: span.known,
            supposed: span.supposed,
            taken: span.taken,
        };
        false
    }
}

/// Writes the words of an input of this column into its row.
fn give_into(
    values: &Values,
    kind: Kind,
    t: usize,
    row: &mut Vec<i64>,
    from: usize,
    to: usize,
) -> bool
    requires { to < length row.old.items }
    ensures kept { Keeps from row.old.items row.new.items }
    ensures words { result ≡ false → (n : ℕ) → from ≤ n → n < to
        → slice_get (data_in values.now) (t + n)
        ≡ Some (datum_at kind (word_in row.new.items (suc n))) }
{
    if values.len() < to || values.len() - to < t {
        return true;
    }
    write_input(row.as_mut_slice(), kind, values, t, from, to)
}

impl Board {
    /// Gives the words of flow i, an input of this column, up to its tick `to`, where the block begins at
    /// instant `t`; whether some tick has none.
    pub fn give(
        &mut self,
        alloc: Global,
        flat: &Flat,
        values: &Values,
        t: usize,
        i: usize,
        to: usize,
    ) -> bool
        ensures stands { (len : ℕ) (table : InputsView) → IsGiven flat.now table (data_in values.now) i
            → StandsStill flat.now table t len self.old self.new }
        ensures flows { length self.new.spans.items ≡ length self.old.spans.items }
    {
        let Some(flow) = flow_of(flat, i) else {
            return true;
        };
        if !is_input(&flow.form) || self.spans.len() <= i || self.rows.len() <= i {
            return true;
        }
        let span = self.spans[i];
        if span.taken {
            return true;
        }
        let mut row = mem::replace(&mut self.rows[i], Vec::new(alloc));
        if row.len() <= to {
            self.rows[i] = row;
            return true;
        }
        let fault = give_into(values, flow.kind, t, &mut row, span.upto, to);
        self.rows[i] = row;
        if fault || to <= span.upto {
            return fault;
        }
        self.spans[i] = Span {
            ticks: span.ticks,
            upto: to,
            was: span.was,
            known: span.known,
            supposed: span.supposed,
            taken: span.taken,
        };
        false
    }
}

/// Whether a form is an input.
fn is_input(form: &Form) -> bool
    ensures { result ≡ true → (c : ℕ) × (form.now ≡ Form.Input c) }
{
    match form {
        Form::Input(_) => true,
        _ => false,
    }
}

/// Puts words behind a row's first one.
fn put_all(row: &mut [i64], words: &[i64])
    requires { length words.now < length row.old }
    ensures { Keeps 0 row.old row.new }
{
    for m in 0..words.len() {
        put(row, m, words[m]);
    }
}

/// Puts words behind a row's first one.
fn put_words(row: &mut Vec<i64>, words: &[i64])
    requires { length words.now < length row.old.items }
    ensures { Keeps 0 row.old.items row.new.items }
{
    put_all(row.as_mut_slice(), words);
}

/// Whether a flow is known to have no tick.
fn is_idle(span: Span) -> bool
    ensures { result ≡ false → span.known ≡ true → 0 < span.ticks }
{
    span.known && span.ticks == 0
}

impl Board {
    /// Supposes the words of a flow, of which it has none yet; whether they can't be put. Nothing is known of
    /// them before it is seen that they are right.
    pub fn suppose(&mut self, i: usize, words: &[i64]) -> bool
        ensures stands { (flat : FlatView) (inputs : InputsView) (t len : ℕ)
            → StandsStill flat inputs t len self.old self.new }
        ensures flows { length self.new.spans.items ≡ length self.old.spans.items }
    {
        if self.spans.len() <= i || self.rows.len() <= i {
            return true;
        }
        let span = self.spans[i];
        if span.taken || span.upto != 0 || self.rows[i].len() <= words.len() {
            return true;
        }
        if is_idle(span) {
            return false;
        }
        put_words(&mut self.rows[i], words);
        self.spans[i] = Span {
            ticks: span.ticks,
            upto: words.len(),
            was: span.was,
            known: span.known,
            supposed: true,
            taken: span.taken,
        };
        false
    }
}

/// Puts the word of a row's last tick first.
fn renew_row(row: &mut Vec<i64>, ticks: usize)
    ensures first { word_in row.new.items 0 ≡ word_in row.old.items ticks }
    ensures beside { (n : ℕ) → word_in row.new.items (suc n) ≡ word_in row.old.items (suc n) }
{
    let last = match row.get(ticks) {
        Some(word) => *word,
        None => 0,
    };
    if 0 < row.len() {
        row[0] = last;
    }
}

/// Puts the word of each row's last tick first.
fn renew_rows(rows: &mut Vec<Vec<i64>>, spans: &[Span])
    ensures first { (r : ℕ) → word_in (row_of rows.new.items r) 0
        ≡ word_in (row_of rows.old.items r) (ticks_of spans.now r) }
    ensures beside { (r n : ℕ) → word_in (row_of rows.new.items r) (suc n)
        ≡ word_in (row_of rows.old.items r) (suc n) }
{
    for i in 0..rows.len() {
        let ticks = match spans.get(i) {
            Some(span) => span.ticks,
            None => 0,
        };
        renew_row(&mut rows[i], ticks);
    }
}

/// Whether a flow is a constant.
fn is_constant(flat: &Flat, r: usize) -> bool
    ensures { result ≡ true → (flow : Flow) → flow_at flat.now r ≡ Some flow
        → IsConstant flow.form }
{
    match flat.flows().get(r) {
        Some(flow) => match flow.form {
            Form::Constant(_) => true,
            _ => false,
        },
        None => false,
    }
}

/// How far a flow is when the next block begins: one that `stays` has its words of the last block, unless
/// they are messages.
fn renewed(span: Span, stays: bool) -> Span
    ensures { result ≡ record {
      ticks = 0;
      upto = cond (stays && not span.taken) span.ticks 0;
      was = span.was || nat_lt 0 span.ticks;
      known = false;
      supposed = false;
      taken = span.taken;
    } }
{
    Span {
        ticks: 0,
        upto: if stays && !span.taken { span.ticks } else { 0 },
        was: span.was || 0 < span.ticks,
        known: false,
        supposed: false,
        taken: span.taken,
    }
}

/// How far each flow is when the next block begins.
fn renew_spans(flat: &Flat, spans: &mut Vec<Span>)
    ensures was { (r : ℕ) → was_of spans.new.items r
        ≡ was_of spans.old.items r || nat_lt 0 (ticks_of spans.old.items r) }
    ensures upto { (r n : ℕ) (flow : Flow) → flow_at flat.now r ≡ Some flow
        → n < upto_of spans.new.items r
        → IsConstant flow.form × (n < ticks_of spans.old.items r) }
    ensures known { (r : ℕ) → known_of spans.new.items r ≡ false }
    ensures taken { (r : ℕ) → taken_of spans.new.items r ≡ taken_of spans.old.items r }
    ensures none { (r : ℕ) → taken_of spans.new.items r ≡ true → upto_of spans.new.items r ≡ 0 }
    ensures len { length spans.new.items ≡ length spans.old.items }
{
    for i in 0..spans.len() {
        spans[i] = renewed(spans[i], is_constant(flat, i));
    }
}

impl Board {
    /// Makes the board ready for the next block.
    pub fn renew(&mut self, flat: &Flat)
        ensures { IsAfter flat.now self.old self.new }
    {
        renew_rows(&mut self.rows, self.spans.as_slice());
        renew_spans(flat, &mut self.spans);
    }
}
