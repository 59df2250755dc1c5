//! What a station leaves.

ghost use Rattle.std.specs.Prelude.{◌≡◌};
ghost use Rattle.lurun.specs.Stations.{IsReport};

use crate::station::Station;
use lusite::SiteReport;
use std::marker::Model;
use std::snapshot::Snapshot;

/// What a station leaves: the report of its site, where it went item by item, or has done its whole part. A
/// contract sees which station it was.
pub struct Report {
    of: Snapshot<Station>,
    left: Option<SiteReport>,
}

impl Drop for Report {
    fn drop(self) {
        let Self { of: _, left: _ } = self;
    }
}

impl Model for Report {
    ghost use Rattle.lurun.specs.Stations.{ReportView, IsReport};

    ghost Value = { ReportView };

    ghost view = { λ a. record { of = a.of.value; left = a.left } };

    ghost invariant = { λ a. IsReport (record { of = a.of.value; left = a.left }) };
}

impl Report {
    /// What this station leaves.
    pub(crate) fn new(of: Snapshot<Station>, left: Option<SiteReport>) -> Report
        requires { IsReport (record { of = of.value; left = left }) }
        ensures { result ≡ record { of = of.value; left = left } }
    {
        Report { of, left }
    }

    /// The report of the site, if there is one.
    pub fn into_left(self) -> Option<SiteReport>
        ensures left { result ≡ self.left }
        ensures report { IsReport self }
    {
        let Report { of: _, left } = self;
        left
    }
}
