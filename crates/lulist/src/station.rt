//! One site that goes through its flows once an instant, over the ends of its links.

ghost use Rattle.std.specs.Prelude.{◌≡◌, ◌+◌, ◌≤◌, ℕ, map, IfOk, IfSome, Some, slice_get};
ghost use Rattle.luworld.specs.Sites.{AreWholeOutputs, IsSiteOfJob, IsSoundAt};
ghost use Rattle.luworld.specs.Turns.{is_over};
ghost use Rattle.lulink.specs.Views.{IsUnusedReceiver, IsUnusedSender, ReceiverView, SenderView};

use crate::code::ListCode;
use crate::outputs::output_rows;
use crate::site::ListSite;
use luflow::Status;
use lulink::{EndTally, Rx, Tx};
use luplace::SiteInputs;
use luworld::Turn;
use std::alloc::{AllocError, Global};
use std::marker::Model;

/// How many steps a station does before another one has its turn.
const STEPS: u32 = 4096;

/// A site that goes through its flows once an instant, and the ends of its links. A contract sees its job and
/// its site. One that is dropped leaves its ends.
pub struct ListStation {
    alloc: Global,
    inner: ListSite,
    /// Room for a row for each main output.
    outputs: Vec<Vec<Status>>,
    /// Whether it can't go on.
    cut: bool,
}

// By hand, so that it is proved here alone, and not in each crate that owns one.
impl Drop for ListStation {
    fn drop(self) {
        let Self {
            alloc: _,
            inner: _,
            outputs: _,
            cut: _,
        } = self;
    }
}

impl Model for ListStation {
    ghost use Rattle.luworld.specs.Sites.{SiteOfJob};
    ghost use Rattle.lulist.specs.Insides.{IsStation};

    ghost Value = { SiteOfJob };

    ghost view = { λ a. record { job = a.inner.inputs.job; site = a.inner.inputs.site } };

    ghost invariant = { IsStation };
}

fn is_over(turn: Turn) -> bool
    ensures { result ≡ is_over turn }
{
    match turn {
        Turn::Moved | Turn::Blocked => false,
        Turn::Over => true,
    }
}

impl ListStation {
    /// A new station of a site of a run, from the site's part of the plan, its own inputs, and the unused
    /// ends of its links. None where these aren't the ends that its part of the plan names, in the same
    /// order.
    ///
    /// # Errors
    ///
    /// An error means that memory ran out. The ends are left then, and where there is no station.
    pub fn new(
        alloc: Global,
        code: ListCode,
        inputs: SiteInputs,
        txs: Vec<Tx>,
        rxs: Vec<Rx>,
    ) -> Result<Option<ListStation>, AllocError>
        requires plan { code.plan ≡ inputs.job.plan }
        requires site { code.site ≡ inputs.site }
        requires senders { (k : ℕ) (t : SenderView) → slice_get txs.items k ≡ Some t
            → IsUnusedSender inputs.job t }
        requires receivers { (k : ℕ) (t : ReceiverView) → slice_get rxs.items k ≡ Some t
            → IsUnusedReceiver inputs.job t }
        ensures { IfOk result
            (λ o. IfSome o (λ x. x ≡ record { job = inputs.job; site = inputs.site })) }
    {
        let Some(inner) = code.start(alloc, inputs, txs, rxs)? else {
            return Ok(None);
        };
        let outputs = Vec::with_capacity(alloc, inner.flows.reported.len())?;
        Ok(Some(ListStation {
            alloc,
            inner,
            outputs,
            cut: false,
        }))
    }

    /// The number of the site, from 0. Takes no memory.
    pub fn site(&self) -> u8
        ensures site { result ≡ self.now.site }
        ensures at { IsSiteOfJob self.now }
    {
        self.inner.inputs.site()
    }

    /// The instant at which the site stands, from 0; behind the last one the number of instants. Takes no
    /// memory.
    pub fn instant(&self) -> u32 {
        self.inner.t
    }

    /// How many ends of links the site has. Takes no memory.
    pub fn end_count(&self) -> usize {
        self.inner
            .outlets
            .len()
            .saturating_add(self.inner.sources.len())
    }

    /// What the end of this place has counted, from 0 on: first the sending ends, then the receiving ones.
    /// None where there is no such end. Takes no memory.
    pub fn end(&self, place: usize) -> Option<EndTally>
        ensures { IfSome result (λ e. e.tally.waited ≤ e.tally.passed + 1) }
    {
        match self.inner.outlets.as_slice().get(place) {
            Some(outlet) => Some(outlet.tx.end_tally()),
            None => {
                let behind = place.checked_sub(self.inner.outlets.len())?;
                let source = self.inner.sources.as_slice().get(behind)?;
                Some(source.rx.end_tally())
            }
        }
    }

    /// Does what is next.
    fn step(&mut self) -> Turn
        ensures { self.new ≡ self.old }
    {
        if self.cut {
            return Turn::Over;
        }
        let turn = self.inner.go();
        self.cut = is_over(turn);
        turn
    }

    /// Goes on until a link is empty or full, or the site is over, or it has done many steps. Never waits,
    /// and takes no memory.
    pub fn go(&mut self) -> Turn
        ensures { self.new ≡ self.old }
    {
        let mut moved = false;
        for _step in 0..STEPS {
            if self.cut || self.inner.has_ended() {
                return Turn::Over;
            }
            match self.step() {
                Turn::Moved => moved = true,
                Turn::Blocked => {
                    if moved {
                        return Turn::Moved;
                    }
                    return Turn::Blocked;
                }
                Turn::Over => return Turn::Over,
            }
        }
        Turn::Moved
    }

    /// A row for each main output, in order of declaration: its statuses where the site is its home, moved
    /// and not copied, and nothing elsewhere. None where the site hasn't ended. The ends are left.
    pub fn outputs(self) -> Option<Vec<Vec<Status>>>
        ensures sound { IfSome result (λ _. IsSoundAt self.job self.site) }
        ensures whole { IfSome result
            (λ rows. AreWholeOutputs self.job self.site (map (λ row. row.items) rows.items)) }
    {
        if self.cut || !self.inner.has_ended() {
            return None;
        }
        let ListStation {
            alloc,
            inner,
            outputs,
            cut: _,
        } = self;
        let ListSite {
            flows,
            noted,
            logs,
            ..
        } = inner;
        output_rows(alloc, &flows.reported, &noted, logs, outputs)
    }
}
