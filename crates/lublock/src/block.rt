//! One block: all its steps, and what comes before the next.

ghost use Rattle.std.specs.Prelude.{◌≡◌, ◌≤◌, ◌<◌, ◌+◌, ℕ, All, length, true, false, IsTrue};
ghost use Rattle.luflow.specs.Streams.{Streams};
ghost use Rattle.luflow.specs.Program.{FlatView, InputsView, flows_of};
ghost use Rattle.luflow.specs.Solution.{IsSolution};
ghost use Rattle.luflow.specs.Sound.{IsFit};
ghost use Rattle.lublock_kernels.specs.Blocks.{IsRight, IsSolved};
ghost use Rattle.lublock_kernels.specs.Parts.{whole};
ghost use Rattle.lublock.specs.Boards.{StandsOn, StandsStill};
ghost use Rattle.lublock_kernels.specs.Machine.{IsWhole, block_of};

use crate::board::Board;
use crate::closing::closes;
use lublock_kernels::span::Span;
use lublock_plan::{Cycle, CycleClock, CyclePre, Plan, Step};
use luflow::{Flat, Inputs};
use std::alloc::Global;

/// Whether all flows have all their words.
fn is_whole(spans: &[Span]) -> bool
    ensures { IsTrue result → All IsWhole spans.now }
{
    spans
        .iter()
        .all(|span| span.known && span.ticks <= span.upto)
}

impl Board {
    /// Finds all words of flow i, which has the clock of flow `like`.
    fn column(
        &mut self,
        alloc: Global,
        flat: &Flat,
        inputs: &Inputs,
        t: usize,
        len: usize,
        i: usize,
        like: usize,
    ) -> bool
        ensures stands { StandsStill flat.now inputs.now t len self.old self.new }
        ensures flows { length self.new.spans.items ≡ length self.old.spans.items }
    {
        if self.count(flat, len, i, like) {
            return true;
        }
        let Some(span) = self.spans.get(i) else {
            return true;
        };
        let to = span.ticks;
        if to <= span.upto {
            return false;
        }
        self.solve(alloc, flat, inputs, t, i, to)
    }

    /// Supposes what the `pre`s of a clock give.
    fn suppose_all(&mut self, cycle_pres: &[CyclePre]) -> bool
        ensures stands { (flat : FlatView) (inputs : InputsView) (t len : ℕ)
            → StandsStill flat inputs t len self.old self.new }
        ensures flows { length self.new.spans.items ≡ length self.old.spans.items }
    {
        for cycle_pre in cycle_pres {
            let Some(words) = cycle_pre.words.as_slice().get(..cycle_pre.count) else {
                return true;
            };
            if self.suppose(cycle_pre.flow, words) {
                return true;
            }
        }
        false
    }

    /// Supposes what the other `pre`s of a clock give, which have the words of some of its `pre`s.
    fn suppose_twins(&mut self, cycle_clock: &CycleClock) -> bool
        ensures stands { (flat : FlatView) (inputs : InputsView) (t len : ℕ)
            → StandsStill flat inputs t len self.old self.new }
        ensures flows { length self.new.spans.items ≡ length self.old.spans.items }
    {
        for twin in &cycle_clock.twins {
            let Some(cycle_pre) = cycle_clock.cycle_pres.get(twin.cycle_pre) else {
                return true;
            };
            let Some(words) = cycle_pre.words.as_slice().get(..cycle_pre.count) else {
                return true;
            };
            if self.suppose(twin.flow, words) {
                return true;
            }
        }
        false
    }

    /// How many ticks a cycle has whose clock is that of this flow.
    fn ticks_of(&mut self, flat: &Flat, len: usize, lead: Option<usize>) -> Option<usize>
        ensures stands { (inputs : InputsView) (t : ℕ)
            → StandsStill flat.now inputs t len self.old self.new }
        ensures flows { length self.new.spans.items ≡ length self.old.spans.items }
    {
        let Some(i) = lead else {
            return Some(len);
        };
        if self.count(flat, len, i, i) {
            return None;
        }
        match self.spans.get(i) {
            Some(span) => Some(span.ticks),
            None => None,
        }
    }

    /// Goes through a cycle, instant by instant, and supposes what its `pre`s give; whether that can't be.
    pub fn cycle(&mut self, flat: &Flat, len: usize, cycle: &mut Cycle) -> bool
        ensures stands { (inputs : InputsView) (t : ℕ)
            → StandsStill flat.now inputs t len self.old self.new }
        ensures flows { length self.new.spans.items ≡ length self.old.spans.items }
    {
        let Some(ticks) = self.ticks_of(flat, len, cycle.lead) else {
            return true;
        };
        cycle.run(self.rows.as_slice(), ticks);
        for cycle_clock in &cycle.cycle_clocks {
            if self.suppose_all(cycle_clock.cycle_pres.as_slice()) {
                return true;
            }
            if self.suppose_twins(cycle_clock) {
                return true;
            }
        }
        false
    }

    /// Takes one step.
    fn step(
        &mut self,
        alloc: Global,
        flat: &Flat,
        inputs: &Inputs,
        cycles: &mut [Cycle],
        t: usize,
        len: usize,
        step: Step,
    ) -> bool
        ensures stands { StandsStill flat.now inputs.now t len self.old self.new }
        ensures flows { length self.new.spans.items ≡ length self.old.spans.items }
    {
        match step {
            Step::Column(i, like) => self.column(alloc, flat, inputs, t, len, i, like),
            Step::Cycle(k) => match cycles.get_mut(k) {
                Some(cycle) => self.cycle(flat, len, cycle),
                None => true,
            },
        }
    }

    /// Takes all steps.
    fn steps(
        &mut self,
        alloc: Global,
        flat: &Flat,
        inputs: &Inputs,
        plan: &mut Plan,
        t: usize,
        len: usize,
    ) -> bool
        ensures stands { StandsStill flat.now inputs.now t len self.old self.new }
        ensures flows { length self.new.spans.items ≡ length self.old.spans.items }
    {
        for step in &plan.steps {
            let cycles = plan.cycles.as_mut_slice();
            if self.step(alloc, flat, inputs, cycles, t, len, *step) {
                return true;
            }
        }
        false
    }

    /// Works out a block of `len` instants from `t` on; whether some word wasn't found.
    pub fn work(
        &mut self,
        alloc: Global,
        flat: &Flat,
        inputs: &Inputs,
        plan: &mut Plan,
        t: usize,
        len: usize,
    ) -> bool
        requires flows { length self.old.spans.items ≡ flows_of flat.now }
        requires within { t + len ≤ inputs.now.instants }
        ensures flows { length self.new.spans.items ≡ length self.old.spans.items }
        ensures right { result ≡ false
            → (σ : Streams) → IsFit flat.now inputs.now → IsSolution flat.now inputs.now σ
            → StandsOn whole flat.now inputs.now σ t len self.old
            → IsRight flat.now inputs.now σ t len (block_of self.new.rows.items
            self.new.spans.items) }
        ensures solved { result ≡ false
            → (σ : Streams) → StandsOn whole flat.now inputs.now σ t len self.old
            → IsSolved flat.now inputs.now t len (block_of self.new.rows.items
            self.new.spans.items) }
    {
        flat.recall_invariant();
        if self.steps(alloc, flat, inputs, plan, t, len) {
            return true;
        }
        !is_whole(self.spans.as_slice())
            || !closes(flat, self.rows.as_slice(), self.spans.as_slice())
    }
}
