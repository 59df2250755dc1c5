//! One site that goes on by blocks of instants, over the ends of its links.

ghost use Rattle.std.specs.Prelude.{◌≡◌, ℕ, ◌+◌, ◌≤◌, IfOk, IfSome, Some, map, slice_get};
ghost use Rattle.luworld.specs.Sites.{AreWholeOutputs, IsSiteOfJob, IsSoundAt};
ghost use Rattle.lulink.specs.Views.{IsUnusedReceiver, IsUnusedSender, ReceiverView, SenderView};

use crate::code::RowCode;
use crate::reported::output_rows;
use crate::site::RowSite;
use crate::start::start;
use crate::turns::{is_over, moved_if};
use luflow::Status;
use lulink::{EndTally, Rx, Tx};
use luplace::SiteInputs;
use luworld::Turn;
use std::alloc::{AllocError, Global};
use std::marker::Model;

/// How many steps a station does before another one has its turn.
const STEPS: u32 = 4096;

/// A site that works in blocks of instants, and the ends of its links. A contract sees its job and its site.
/// One that is dropped leaves its ends.
pub struct RowStation {
    inner: RowSite,
    /// For each output of the main node its variable where the site is its home.
    outputs: Vec<Option<usize>>,
    /// Room for a row for each output.
    rows: Vec<Vec<Status>>,
    /// Whether it can't go on.
    cut: bool,
}

// By hand, so that it is proved here alone, and not in each crate that owns one.
impl Drop for RowStation {
    fn drop(self) {
        let Self {
            inner: _,
            outputs: _,
            rows: _,
            cut: _,
        } = self;
    }
}

impl Model for RowStation {
    ghost use Rattle.luworld.specs.Sites.{SiteOfJob};
    ghost use Rattle.lublock_site.specs.Insides.{IsStation};

    ghost Value = { SiteOfJob };

    ghost view = { λ a. record { job = a.inner.job.value; site = a.inner.site } };

    ghost invariant = { IsStation };
}

impl RowStation {
    /// A new station of a site whose code was made before, from the site's inputs and the unused ends of all
    /// its links. None where an end isn't there that the code names, in order of links.
    ///
    /// # Errors
    ///
    /// An error means that memory ran out. The ends are left then.
    pub fn new(
        alloc: Global,
        code: RowCode,
        inputs: SiteInputs,
        txs: Vec<Tx>,
        rxs: Vec<Rx>,
    ) -> Result<Option<RowStation>, AllocError>
        requires plan { code.plan ≡ inputs.job.plan }
        requires site { code.site ≡ inputs.site }
        requires senders { (k : ℕ) (t : SenderView) → slice_get txs.items k ≡ Some t
            → IsUnusedSender inputs.job t }
        requires receivers { (k : ℕ) (t : ReceiverView) → slice_get rxs.items k ≡ Some t
            → IsUnusedReceiver inputs.job t }
        ensures { IfOk result
            (λ o. IfSome o (λ x. x ≡ record { job = inputs.job; site = inputs.site })) }
    {
        match start(alloc, code.into_parts(), inputs, txs, rxs)? {
            Some((inner, outputs)) => {
                let rows = Vec::with_capacity(alloc, outputs.len())?;
                Ok(Some(RowStation {
                    inner,
                    outputs,
                    rows,
                    cut: false,
                }))
            }
            None => Ok(None),
        }
    }

    /// The number of the site, from 0. Takes no memory.
    pub fn site(&self) -> u8
        ensures site { result ≡ self.now.site }
        ensures at { IsSiteOfJob self.now }
    {
        self.inner.site
    }

    /// The first instant of the block at hand, from 0; behind the last block the number of instants. Takes no
    /// memory.
    pub fn instant(&self) -> u32 {
        u32::try_from(self.inner.t).unwrap_or(u32::MAX)
    }

    /// How many ends of links the site has. Takes no memory.
    pub fn end_count(&self) -> usize {
        self.inner
            .outlets
            .len()
            .saturating_add(self.inner.sources.len())
    }

    /// What the end of this place has counted, from 0 on: first the sending ends, then the receiving ones.
    /// None where there is no such end. Takes no memory.
    pub fn end(&self, place: usize) -> Option<EndTally>
        ensures { IfSome result (λ e. e.tally.waited ≤ e.tally.passed + 1) }
    {
        match self.inner.outlets.as_slice().get(place) {
            Some(outlet) => Some(outlet.tx.end_tally()),
            None => {
                let behind = place.checked_sub(self.inner.outlets.len())?;
                let source = self.inner.sources.as_slice().get(behind)?;
                Some(source.rx.end_tally())
            }
        }
    }

    /// Does what is next.
    fn step(&mut self) -> Turn
        ensures { self.new ≡ self.old }
    {
        if self.cut {
            return Turn::Over;
        }
        let turn = self.inner.go();
        self.cut = is_over(turn);
        turn
    }

    /// Goes on until a link is empty or full, or the site is over, or it has done many steps. Never waits,
    /// and takes no memory.
    pub fn go(&mut self) -> Turn
        ensures { self.new ≡ self.old }
    {
        let mut moved = false;
        for _step in 0..STEPS {
            if self.inner.has_ended() {
                return Turn::Over;
            }
            let before = self.inner.passed();
            match self.step() {
                Turn::Moved => moved = true,
                Turn::Blocked => return moved_if(moved || self.inner.passed() != before),
                Turn::Over => return Turn::Over,
            }
        }
        Turn::Moved
    }

    /// A row for each output of the main node, in order of declaration: all its statuses where the site is
    /// its home, and an empty one elsewhere. They are moved out of the station, and not copied. None where
    /// the site hasn't ended. The ends are left.
    pub fn outputs(self) -> Option<Vec<Vec<Status>>>
        ensures sound { IfSome result (λ _. IsSoundAt self.job self.site) }
        ensures whole { IfSome result
            (λ rows. AreWholeOutputs self.job self.site (map (λ row. row.items) rows.items)) }
    {
        if self.cut || !self.inner.has_ended() {
            return None;
        }
        let RowStation {
            inner,
            outputs,
            rows,
            cut: _,
        } = self;
        let RowSite {
            job: _,
            site: _,
            frame,
            cycles: _,
            board: _,
            sure: _,
            sources: _,
            outlets: _,
            run: _,
            columns,
            t: _,
            len: _,
            at: _,
        } = inner;
        output_rows(
            frame.alloc,
            outputs.as_slice(),
            columns,
            rows,
            frame.instants,
        )
    }
}
