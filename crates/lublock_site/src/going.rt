//! Which step of a site is at hand.

ghost use Rattle.std.specs.Prelude.{◌≡◌, true};
ghost use Rattle.lublock_site.specs.Going.{IsGoing, IsSameRun};
ghost use Rattle.luworld.specs.Turns.{IfGoes};

use crate::site::RowSite;
use lublock_plan::SiteStep;
use luworld::Turn;

/// The step of this number; none behind the last one.
fn step_at(steps: &[SiteStep], at: usize) -> Option<SiteStep> {
    match steps.get(at) {
        Some(step) => Some(*step),
        None => None,
    }
}

impl RowSite {
    /// Does one step of the block at hand.
    fn block_step(&mut self, step: SiteStep) -> Turn
        requires { IsGoing self.old }
        ensures going { IfGoes result (IsGoing self.new) }
        ensures same { IsSameRun self.old self.new }
    {
        match step {
            SiteStep::Take(k, i, like) => self.take_step(k, i, like),
            SiteStep::Column(i, like) => self.column_step(i, like),
            SiteStep::Cycle(k) => self.cycle_step(k),
            SiteStep::Sure(from, to) => self.sure_step(from, to),
            SiteStep::Put(k) => self.put_step(k),
        }
    }

    /// Does one step behind the last block.
    fn close_step(&mut self, step: SiteStep) -> Turn
        requires { IsGoing self.old }
        ensures going { IfGoes result (IsGoing self.new) }
        ensures same { IsSameRun self.old self.new }
    {
        match step {
            SiteStep::Take(k, _, _) => self.take_close_step(k),
            SiteStep::Put(k) => self.put_close_step(k),
            SiteStep::Column(_, _) | SiteStep::Cycle(_) | SiteStep::Sure(_, _) => Turn::Moved,
        }
    }

    /// The next step is at hand.
    fn advance(&mut self)
        requires { IsGoing self.old }
        ensures going { IsGoing self.new }
        ensures same { IsSameRun self.old self.new }
    {
        self.at = self.at.saturating_add(1);
    }

    /// Whether all instants lie behind.
    pub fn is_behind(&self) -> bool
        ensures { result ≡ true → self.now.t ≡ self.now.frame.instants }
    {
        self.t == self.frame.instants
    }

    /// Whether the site has ended: all instants lie behind, and all closes were passed.
    pub fn has_ended(&self) -> bool
        ensures { result ≡ true → self.now.t ≡ self.now.frame.instants }
    {
        self.is_behind() && self.frame.code.order.steps.len() <= self.at
    }

    /// How many ticks, or closes, the end at hand has passed in the block.
    pub fn passed(&self) -> usize {
        match step_at(self.frame.code.order.steps.as_slice(), self.at) {
            Some(SiteStep::Take(k, _, _)) => match self.sources.as_slice().get(k) {
                Some(source) => source.got,
                None => 0,
            },
            Some(SiteStep::Put(k)) => match self.outlets.as_slice().get(k) {
                Some(outlet) => outlet.sent,
                None => 0,
            },
            _ => 0,
        }
    }

    /// Does what is next: a step, or the end of the block. Where it is over the site can't go on.
    pub fn go(&mut self) -> Turn
        requires { IsGoing self.old }
        ensures going { IfGoes result (IsGoing self.new) }
        ensures same { IsSameRun self.old self.new }
    {
        let behind = self.is_behind();
        let Some(step) = step_at(self.frame.code.order.steps.as_slice(), self.at) else {
            if behind {
                return Turn::Over;
            }
            return self.end_block();
        };
        let turn = if behind {
            self.close_step(step)
        } else {
            self.block_step(step)
        };
        match turn {
            Turn::Moved => {
                self.advance();
                Turn::Moved
            }
            Turn::Blocked => Turn::Blocked,
            Turn::Over => Turn::Over,
        }
    }
}
