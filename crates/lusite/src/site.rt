//! The machine of one site.

ghost use Rattle.std.specs.Prelude.{◌≡◌, ◌↔◌, ℕ, ◌+◌, ◌<◌, ◌≤◌, IfOk, IfSome, IsSome, List, length, replicate, Some, slice_get};
ghost use Rattle.std.specs.Option.{ForSome};
ghost use Rattle.lueval_lines.specs.declared.cell.Cell.TheVariants.{Absent};
ghost use Rattle.luworld.specs.Needs.{sites_of};
ghost use Rattle.luworld.specs.Outline.{left_after};
ghost use Rattle.luworld.specs.Jobs.{IsJob, IsJobView, outline, outputs_of, streams_of};
ghost use Rattle.lusite.specs.KeptFlows.{AreKept};
ghost use Rattle.lusite.specs.Logs.{IsOutput};
ghost use Rattle.lusite.specs.Machine.{IsAtInstant, IsNext, IsLocalNext, IsPutNext, IsTakeNext, IsFaultAt};
ghost use Rattle.lusite.specs.Widths.{most_left};
ghost use Rattle.lusite_program.specs.Logs.{IsNewRow, row_items};
ghost use Rattle.lusite_program.specs.Programs.{output_names, part_of, places_of};

use crate::kept::kept_of;
use crate::next::{Fault, Next};
use crate::state::SiteState;
use lubase::Name;
use luflow::{Msg, Status};
use luplace::SiteInputs;
use lusite_program::{Held, SiteProgram, drawn, new_held};
use std::alloc::{AllocError, Global};
use std::marker::Model;
use std::snapshot::Snapshot;

/// The machine of one site. A contract sees its job, its site, and how many items of the site's script are
/// done.
pub struct Site {
    state: SiteState,
    /// True only where the next item is a computation.
    local: bool,
}

// By hand, so that it is proved here alone, and not in each crate that owns one.
impl Drop for Site {
    fn drop(self) {
        let Self { state: _, local: _ } = self;
    }
}

impl Model for Site {
    ghost use Rattle.lusite.specs.Sites.{SiteView, site_at, IsSite};

    ghost Value = { SiteView };

    ghost view = { λ a. site_at a.state };

    ghost invariant = { λ a. IsSite a.state a.local };
}

/// The site's machine at the start of its script, from what a new site holds.
fn begun(program: SiteProgram, inputs: SiteInputs, held: Held, kept: Vec<usize>) -> Site
    requires job { IsJob inputs.job }
    requires plan_is { program.plan ≡ inputs.job.plan }
    requires site_is { program.site ≡ inputs.site }
    requires shown { held.shown.items ≡ replicate (length (places_of program.plan program.site))
        Absent }
    requires lasts { held.lasts.items ≡ replicate (length (places_of program.plan program.site))
        Absent }
    requires counts { held.counts.items ≡ replicate (length (places_of program.plan program.site))
        0 }
    requires len { length held.logs.items ≡ length (places_of program.plan program.site) }
    requires each { (k i : ℕ) → slice_get (places_of program.plan program.site) k ≡ Some i
        → ForSome (slice_get held.logs.items k) (λ y. IsNewRow (part_of program.plan program.site
        i).reported inputs.job.inputs.instants y) }
    requires kept { AreKept program.plan program.site kept.items }
    ensures job { result.job ≡ inputs.job }
    ensures site { result.site ≡ inputs.site }
    ensures done { result.done ≡ 0 }
{
    let Held {
        shown,
        lasts,
        counts,
        logs,
    } = held;
    let rank = program.rank(0);
    let place = Snapshot::of(&rank);
    let mut state = SiteState {
        program,
        inputs,
        shown,
        lasts,
        counts,
        kept,
        logs,
        instant: 0,
        row: 0,
        place,
        step: 0,
        fault: None,
    };
    let local = state.settle();
    Site { state, local }
}

impl Site {
    /// The site's machine at the start of its script, from the site's program and its own columns alone. It
    /// makes all growths of the run.
    pub fn new(alloc: Global, program: SiteProgram, inputs: SiteInputs) -> Result<Site, AllocError>
        requires plan_is { program.plan ≡ inputs.job.plan }
        requires site_is { program.site ≡ inputs.site }
        ensures job { IfOk result (λ x. x.job ≡ inputs.job) }
        ensures site { IfOk result (λ x. x.site ≡ inputs.site) }
        ensures done { IfOk result (λ x. x.done ≡ 0) }
    {
        inputs.recall_invariant();
        let kept = kept_of(alloc, &program)?;
        let held = new_held(alloc, &program, inputs.instants())?;
        Ok(begun(program, inputs, held, kept))
    }

    /// The number of the site, from 0. Takes no memory.
    pub fn site(&self) -> u8
        ensures { result ≡ self.now.site }
    {
        self.state.inputs.site()
    }

    /// The number of instants, 0 to 1,000,000. Takes no memory.
    pub fn instants(&self) -> u32
        ensures instants { result ≡ self.now.job.inputs.instants }
        ensures job { IsJob self.now.job }
    {
        self.state.inputs.instants()
    }

    /// Does nothing. A proof has from it that the job's plan is one and its inputs are those of its program.
    #[inline(always)]
    pub fn recall_invariant(&self)
        ensures { IsJobView self.now.job }
    {
        self.state.inputs.recall_invariant();
    }

    /// The instant at which the site stands, from 0: it has done all its items of the instants before. Once
    /// it has done all instants it is their number, 0 to 1,000,000; where it has faulted, the instant of the
    /// fault. Takes no memory.
    #[inline(always)]
    pub fn instant(&self) -> u32
        ensures { IsAtInstant self.now.job self.now.site self.now.done result }
    {
        self.state.instant
    }

    /// The number of sites of the run, 1 to 16. Takes no memory.
    pub fn sites(&self) -> u8
        ensures { result ≡ sites_of self.now.job.plan }
    {
        self.state.program.sites()
    }

    /// The names of the main outputs, of all sites, in order of declaration: by the number of each. Takes no
    /// memory.
    pub fn names(&self) -> &[Name]
        ensures { result.now ≡ output_names self.now.job.plan }
    {
        self.state.program.names()
    }

    /// Exactly the next item of the site's script; at its end whether it ended or faulted. Takes no memory.
    #[inline(always)]
    pub fn next(&self) -> Next
        ensures { IsNext self.now.job self.now.site self.now.done result }
    {
        if self.local {
            return Next::Local;
        }
        self.state.offer()
    }

    /// Output k so far: a prefix of its statuses before its first broken one, and all of them where the site
    /// has ended; empty where another site reports it, and where there is no output k. A present status is
    /// reported with its computation, an absent one when all items before it are done. Takes no memory.
    pub fn outputs(&self, k: usize) -> &[Status]
        ensures { IsOutput self.now.job self.now.site self.now.done k result.now }
    {
        self.state.output(k)
    }

    /// All outputs so far, as `outputs` reports them, moved out.
    pub(crate) fn into_outputs(self, alloc: Global) -> Result<Vec<Vec<Status>>, AllocError>
        ensures len { IfOk result (λ rows. length rows.items ≡ length (outputs_of self.job.plan)) }
        ensures each { IfOk result (λ rows. (k : ℕ) → IsOutput self.job self.site self.done k
            (row_items (slice_get rows.items k))) }
    {
        let Site { state, local: _ } = self;
        let SiteState { program, logs, .. } = state;
        drawn(alloc, &program, logs)
    }

    /// The fault of the site's last computation, which is one of the program's solution; there is one exactly
    /// where `next` is `Faulted`. Takes no memory.
    pub fn fault(&self) -> Option<Fault>
        ensures is_fault { IfSome result (IsFaultAt self.now.job self.now.site) }
        ensures when { IsSome result ↔ IsNext self.now.job self.now.site self.now.done
            Next.Faulted }
    {
        self.state.fault
    }

    /// How many items the site would still do if every flow that it hasn't passed were present at each
    /// instant; 0 where it has faulted. At most 268,439,820,439,552. Looks at each flow a few times, however
    /// many instants there are. Takes no memory.
    pub fn left(&self) -> u64
        ensures left { result ≡ left_after (outline self.now.job (streams_of self.now.job))
            self.now.site self.now.done }
        ensures few { result ≤ most_left }
        ensures run { IsJobView self.now.job }
    {
        self.state.inputs.recall_invariant();
        if self.state.fault.is_some() {
            return 0;
        }
        self.state.left()
    }

    /// Computes the flow at hand.
    #[inline(always)]
    pub fn work(&mut self)
        requires { IsLocalNext self.old.job self.old.site self.old.done }
        ensures job { self.new.job ≡ self.old.job }
        ensures site { self.new.site ≡ self.old.site }
        ensures done { self.new.done ≡ self.old.done + 1 }
    {
        self.local = false;
        let unsent = self.state.is_unsent();
        if self.state.work() {
            self.local = self.state.settle_computed(unsent);
        }
    }

    /// Goes on behind the put at hand, which is done.
    pub fn sent(&mut self)
        requires { IsPutNext self.old.job self.old.site self.old.done }
        ensures job { self.new.job ≡ self.old.job }
        ensures site { self.new.site ≡ self.old.site }
        ensures done { self.new.done ≡ self.old.done + 1 }
    {
        self.state.sent();
        self.local = self.state.settle();
    }

    /// The take at hand gave this message, the next of its link.
    pub fn given(&mut self, msg: Msg)
        requires { IsTakeNext self.old.job self.old.site self.old.done msg }
        ensures job { self.new.job ≡ self.old.job }
        ensures site { self.new.site ≡ self.old.site }
        ensures done { self.new.done ≡ self.old.done + 1 }
    {
        self.state.given_message(msg);
        self.local = self.state.settle();
    }
}
