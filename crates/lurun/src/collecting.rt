//! What the reports of a run's sites say together.

ghost use Rattle.std.specs.Prelude.{◌≡◌, ℕ, ◌++◌, ◌∷◌, [], true, false, All, IfOk, OnOk, List, Some, length, filter, slice_get};
ghost use Rattle.std.specs.List.{list_all, range_with_len};
ghost use Rattle.luflow.specs.Tables.{output_view, outputs_view};
ghost use Rattle.luworld.specs.Needs.{sites_of};
ghost use Rattle.luworld.specs.Jobs.{JobView};
ghost use Rattle.lusite.specs.Sites.{SiteView};
ghost use Rattle.lurun.specs.Reports.{AreReportsOfJob, is_of, is_one, are_complete, HasEnded, IsLeast, SomeNotEnded, AreColumns, IsFilled, IsCollected};

use crate::error::RunError;
use lubase::Name;
use luflow::{Outputs, Status};
use lusite::{Fault, SiteReport, Standing};
use std::alloc::{AllocError, Global};

fn is_of(report: &SiteReport, site: u8) -> bool
    ensures { result ≡ is_of site report.now }
{
    report.site() == site
}

/// How many of the reports are of the site.
fn count_of(reports: &[SiteReport], site: u8) -> usize
    ensures { result ≡ length (filter (is_of site) reports.now) }
{
    reports.iter().filter(|report| is_of(report, site)).count()
}

/// Whether one of the reports is of the site, and no other is.
fn is_one(reports: &[SiteReport], site: u8) -> bool
    ensures { result ≡ is_one reports.now site }
{
    count_of(reports, site) == 1
}

/// Whether there is one report of each site.
fn are_each(reports: &[SiteReport], sites: u8) -> bool
    ensures { result ≡ list_all (is_one reports.now) (range_with_len 0 sites) }
{
    (0..sites).all(|site| is_one(reports, site))
}

/// Whether there is a report, there are as many as sites, and of each site there is one.
fn are_complete(reports: &[SiteReport], sites: u8) -> bool
    ensures { result ≡ are_complete sites reports.now }
{
    let some = 0 < reports.len();
    let count = reports.len() == usize::from(sites);
    let each = are_each(reports, sites);
    some && count && each
}

/// The fault of the faulted site of least number, after one report more.
fn lesser(least: Option<(u8, Fault)>, report: &SiteReport) -> Option<(u8, Fault)>
    ensures { (reports : List SiteView) → IsLeast reports least
        → IsLeast (reports ++ report.now ∷ []) result }
{
    let fault = match report.standing() {
        Standing::Faulted(fault) => fault,
        Standing::Ended => return least,
        Standing::Cut => return least,
    };
    let site = report.site();
    match least {
        Some(found) => {
            if found.0 <= site {
                Some(found)
            } else {
                Some((site, fault))
            }
        }
        None => Some((site, fault)),
    }
}

/// The fault of the faulted site of least number.
fn least_fault(reports: &[SiteReport]) -> Option<(u8, Fault)>
    ensures { IsLeast reports.now result }
{
    let mut least = None;
    for i in 0..reports.len() {
        least = lesser(least, &reports[i]);
    }
    least
}

fn has_ended(report: &SiteReport) -> bool
    ensures ended { result ≡ true → HasEnded report.now }
    ensures not { HasEnded report.now → result ≡ true }
{
    match report.standing() {
        Standing::Ended => true,
        Standing::Faulted(_) => false,
        Standing::Cut => false,
    }
}

/// Whether all sites ended.
fn have_ended(reports: &[SiteReport]) -> bool
    ensures all { result ≡ true → All HasEnded reports.now }
    ensures not { result ≡ false → SomeNotEnded reports.now }
{
    for i in 0..reports.len() {
        if !has_ended(&reports[i]) {
            return false;
        }
    }
    true
}

/// A column of this name, with no statuses yet.
fn blank_column(alloc: Global, name: &Name) -> Result<(String, Vec<Status>), AllocError>
    ensures { IfOk result (λ column. output_view column
        ≡ record { name = name.now; statuses = [] }) }
{
    let name = String::from_str(alloc, name.as_str())?;
    Ok((name, Vec::new(alloc)))
}

/// A column for each name: what no sites report.
fn blank_columns(alloc: Global, names: &[Name]) -> Result<Vec<(String, Vec<Status>)>, AllocError>
    ensures { IfOk result (λ columns. AreColumns [] names.now (outputs_view columns.items)) }
{
    let mut columns = Vec::with_capacity(alloc, names.len())?;
    for k in 0..names.len() {
        let column = blank_column(alloc, &names[k])?;
        columns.push_reserved(column);
    }
    Ok(columns)
}

/// Moves statuses into column k. Where there are none, the column stays.
fn fill(columns: &mut Vec<(String, Vec<Status>)>, k: usize, statuses: Vec<Status>)
    ensures { IsFilled (outputs_view columns.old.items) k statuses.items
        (outputs_view columns.new.items) }
{
    if statuses.is_empty() {
        return;
    }
    if k < columns.len() {
        columns[k].1 = statuses;
    }
}

/// Moves what one site more reports into the columns.
fn add_site(
    alloc: Global,
    columns: &mut Vec<(String, Vec<Status>)>,
    report: SiteReport,
) -> Result<(), AllocError>
    ensures { OnOk result ((reports : List SiteView) (names : List (List ℕ))
        → AreColumns reports names (outputs_view columns.old.items)
        → AreColumns (reports ++ report ∷ []) names (outputs_view columns.new.items)) }
{
    let mut rows = report.into_outputs(alloc)?.into_iter();
    for k in 0..columns.len() {
        let Some(statuses) = rows.next() else {
            return Ok(());
        };
        fill(columns, k, statuses);
    }
    Ok(())
}

/// Moves what the sites report into the columns.
fn add_sites(
    alloc: Global,
    columns: &mut Vec<(String, Vec<Status>)>,
    reports: Vec<SiteReport>,
) -> Result<(), AllocError>
    ensures { OnOk result ((names : List (List ℕ))
        → AreColumns [] names (outputs_view columns.old.items)
        → AreColumns reports.items names (outputs_view columns.new.items)) }
{
    for report in reports {
        add_site(alloc, columns, report)?;
    }
    Ok(())
}

/// The whole outputs of a job, from one report of each of its sites, all ended. `WrongReports` where there is
/// no output.
fn outputs_of(alloc: Global, reports: Vec<SiteReport>) -> Result<Outputs, RunError>
    requires complete { (first : SiteView) → slice_get reports.items 0 ≡ Some first
        → are_complete (sites_of first.job.plan) reports.items ≡ true }
    requires ended { All HasEnded reports.items }
    ensures { (job : JobView) → AreReportsOfJob job reports.items → IsCollected job reports.items result }
{
    let Some(first) = reports.first() else {
        return Err(RunError::WrongReports);
    };
    let _instants = first.instants();
    let mut columns = blank_columns(alloc, first.names())?;
    add_sites(alloc, &mut columns, reports)?;
    match Outputs::new(columns) {
        Some(outputs) => Ok(outputs),
        None => Err(RunError::WrongReports),
    }
}

/// The whole outputs of a job, from one report of each of its sites. Where the reports are of one job, the
/// answer is the first of these that has a reason:
///
/// # Errors
///
/// [`RunError::WrongReports`] where the reports aren't one of each site, [`RunError::Fault`] of the faulted
/// site of least number, [`RunError::LinkLost`] where a site was cut, [`RunError::WrongReports`] where the
/// job has no output. [`RunError::OutOfMemory`] may come in place of any answer. The reports are gone: their
/// statuses are moved into the answer, and not copied.
pub fn collect(alloc: Global, reports: Vec<SiteReport>) -> Result<Outputs, RunError>
    ensures { (job : JobView) → AreReportsOfJob job reports.items → IsCollected job reports.items result }
{
    let all = reports.as_slice();
    let Some(first) = all.first() else {
        return Err(RunError::WrongReports);
    };
    if !are_complete(all, first.sites()) {
        return Err(RunError::WrongReports);
    }
    if let Some((_, fault)) = least_fault(all) {
        return Err(RunError::Fault {
            variable: fault.variable,
            instant: fault.instant,
            kind: fault.kind,
        });
    }
    if !have_ended(all) {
        return Err(RunError::LinkLost);
    }
    outputs_of(alloc, reports)
}
