//! What holds of the reports, as contracts of functions that do nothing.

ghost use Rattle.luplace_report.specs.Cause.{CauseLaw};
ghost use Rattle.luplace_report.specs.Graph.{EdgeLaw};
ghost use Rattle.luplace_report.specs.Table.{ItemsLaw, MessagesLaw};
ghost use Rattle.luplace_report.specs.Vectors.{ReportVectors};

/// Each link of a plan has a cause, and what it says is so.
pub fn cause_law()
    ensures { CauseLaw }
{}

/// Both ends of each edge of a plan's graph are drawn.
pub fn edge_law()
    ensures { EdgeLaw }
{}

/// At an instant a site does as many items as the table says at most, and exactly as many where all clocks
/// are true then.
pub fn items_law()
    ensures { ItemsLaw }
{}

/// Over a link one message passes at an instant at most, as the table says, and just one where the clock of
/// its variable is true then.
pub fn messages_law()
    ensures { MessagesLaw }
{}

/// Worked reports.
pub fn report_vectors_law()
    ensures { ReportVectors }
{}
