//! Jobs: what one run is about, and what of it a site is handed.

ghost use Rattle.std.specs.Prelude.{◌≡◌, ◌<◌, true, false, cond, IfOk, None, Some, length, map, slice_get, unwrap_or};
ghost use Rattle.std.specs.List.{range_with_len};
ghost use Rattle.std.specs.Option.{option_map};
ghost use Rattle.luflow.specs.Program.{column_of, data_of};
ghost use Rattle.luflow.specs.Packed.{data_in};
ghost use Rattle.luflow.specs.Tables.{columns_view};
ghost use Rattle.luflow.specs.Sound.{IsFit};
ghost use Rattle.luworld.specs.Needs.{sites_of, stands};
ghost use Rattle.luworld.specs.Jobs.{IsJobView};
ghost use Rattle.luplace.specs.SiteInputsViews.{columns_at, datum_of, given_data};

use crate::plan::Plan;
use luflow::{Datum, Inputs, Values};
use std::alloc::{AllocError, Global};
use std::marker::Model;
use std::snapshot::Snapshot;

/// A plan and the table of the inputs: what one run is about. A contract sees the `JobView` of `luworld`.
pub struct Job {
    plan: Plan,
    inputs: Inputs,
}

// By hand, so that it is proved here alone, and not in each crate that owns one.
impl Drop for Job {
    fn drop(self) {
        let Self { plan: _, inputs: _ } = self;
    }
}

impl Model for Job {
    ghost use Rattle.luworld.specs.Jobs.{JobView, IsJobView};

    ghost Value = { JobView };

    ghost view = { λ a. record { plan = a.plan; inputs = a.inputs } };

    ghost invariant = { λ a. IsJobView (record { plan = a.plan; inputs = a.inputs }) };
}

/// The number of instants and the columns of the main inputs that stand at one site, and no other data. It
/// keeps, for contracts alone, which job and site it is of.
pub struct SiteInputs {
    site: u8,
    instants: u32,
    columns: Vec<Option<Values>>,
    job: Snapshot<Job>,
}

// By hand, so that it is proved here alone, and not in each crate that owns one.
impl Drop for SiteInputs {
    fn drop(self) {
        let Self {
            site: _,
            instants: _,
            columns: _,
            job: _,
        } = self;
    }
}

impl Model for SiteInputs {
    ghost use Rattle.luplace.specs.SiteInputsViews.{SiteInputsView, IsSiteInputsView};

    ghost Value = { SiteInputsView };

    ghost view = { λ a. record { job = a.job.value; site = a.site } };

    ghost invariant = { λ a. IsSiteInputsView a.job.value a.site a.instants a.columns.items };
}

fn copied(alloc: Global, column: &Values) -> Result<Values, AllocError>
    ensures { IfOk result (λ values. data_in values ≡ data_in column.now) }
{
    column.first(alloc, column.len())
}

impl Job {
    /// The job of a plan and a table whose columns are its program's main inputs.
    pub fn new(plan: Plan, inputs: Inputs) -> Job
        requires { IsFit plan.flat inputs }
        ensures { result ≡ record { plan = plan; inputs = inputs } }
    {
        inputs.recall_invariant();
        plan.recall_invariant();
        Job { plan, inputs }
    }

    /// Does nothing. A proof has from it that the plan is one and the inputs are those of its program.
    pub fn recall_invariant(&self)
        ensures { IsJobView self.now }
    {
        let _ = &self.plan;
    }

    /// The plan. Takes no memory.
    pub fn plan(&self) -> &Plan
        ensures plan { result.now ≡ self.now.plan }
        ensures run { IsJobView self.now }
    {
        &self.plan
    }

    /// The table of the inputs. Takes no memory.
    pub fn inputs(&self) -> &Inputs
        ensures { result.now ≡ self.now.inputs }
    {
        &self.inputs
    }

    /// The number of instants, 0 to 1,000,000.
    pub fn instants(&self) -> u32
        ensures { result ≡ self.now.inputs.instants }
    {
        self.inputs.instants()
    }
}

fn datum_in(columns: &[Option<Values>], column: usize, instant: usize) -> Option<Datum>
    ensures { result ≡ datum_of (slice_get (given_data columns.now) column) instant }
{
    match columns.get(column) {
        Some(Some(values)) => values.get(instant),
        _ => None,
    }
}

impl SiteInputs {
    /// Does nothing. A proof has from it that the job's plan is one and its inputs are those of its program.
    pub fn recall_invariant(&self)
        ensures { IsJobView self.now.job }
    {
        let _ = &self.site;
    }

    /// The site.
    pub fn site(&self) -> u8
        ensures site { result ≡ self.now.site }
        ensures run { IsJobView self.now.job }
    {
        self.site
    }

    /// The number of instants, 0 to 1,000,000.
    pub fn instants(&self) -> u32
        ensures { result ≡ self.now.job.inputs.instants }
    {
        self.instants
    }

    /// The columns of the main inputs by number: of those that stand at the site, and none of any other.
    pub fn columns(&self) -> &[Option<Values>]
        ensures { given_data result.now ≡ columns_at self.now.job self.now.site }
    {
        self.columns.as_slice()
    }

    /// The columns, as [`SiteInputs::columns`] has them, and the job for contracts alone.
    pub fn take_apart(self) -> (Vec<Option<Values>>, Snapshot<Job>)
        ensures columns { given_data result.0.items ≡ columns_at self.job self.site }
        ensures job { result.1.value ≡ self.job }
    {
        let SiteInputs {
            site: _,
            instants: _,
            columns,
            job,
        } = self;
        (columns, job)
    }

    /// The value at an instant of the main input of this number, where that input stands at the site; nothing
    /// of any other.
    pub fn given(&self, column: usize, instant: u32) -> Option<Datum>
        ensures own { stands self.now.job.plan column self.now.site ≡ true → result
            ≡ slice_get (column_of self.now.job.inputs column) instant }
        ensures elsewhere { stands self.now.job.plan column self.now.site ≡ false → result ≡ None }
    {
        datum_in(self.columns.as_slice(), column, instant as usize)
    }
}

/// A column as a site has it: its values where the input stands at the site, and nothing elsewhere.
fn column_for(
    alloc: Global,
    plan: &Plan,
    columns: &[(String, Values)],
    c: usize,
    site: u8,
) -> Result<Option<Values>, AllocError>
    requires { c < length columns.now }
    ensures { IfOk result (λ column. option_map data_in column ≡ cond (stands plan.now c site)
        (Some (data_of (slice_get (columns_view columns.now) c))) None) }
{
    if plan.stands(c, site) {
        return Ok(Some(copied(alloc, values_in(columns, c))?));
    }
    Ok(None)
}

fn values_in(columns: &[(String, Values)], c: usize) -> &Values
    requires { c < length columns.now }
    ensures { data_in result.now ≡ data_of (slice_get (columns_view columns.now) c) }
{
    &columns[c].1
}

/// The columns of a site's own inputs, and none of each other input.
fn columns_of(
    alloc: Global,
    plan: &Plan,
    columns: &[(String, Values)],
    site: u8,
) -> Result<Vec<Option<Values>>, AllocError>
    ensures { IfOk result (λ all. given_data all.items ≡ map (λ c. cond (stands plan.now c site)
        (Some (data_of (slice_get (columns_view columns.now) c))) None)
        (range_with_len 0 (length columns.now))) }
{
    let mut all = Vec::with_capacity(alloc, columns.len())?;
    for c in 0..columns.len() {
        let column = column_for(alloc, plan, columns, c, site)?;
        all.push_reserved(column);
    }
    Ok(all)
}

impl Job {
    /// What a site is handed: the number of instants, and the columns of the main inputs that stand at the
    /// site.
    pub fn inputs_at(&self, alloc: Global, site: u8) -> Result<SiteInputs, AllocError>
        requires { site < sites_of self.now.plan }
        ensures { IfOk result (λ x. x ≡ record { job = self.now; site = site }) }
    {
        let columns = columns_of(alloc, &self.plan, self.inputs.columns(), site)?;
        Ok(SiteInputs {
            site,
            instants: self.inputs.instants(),
            columns,
            job: Snapshot::of(self),
        })
    }
}
