//! What the least classes decide, as contracts of functions that do nothing.

ghost use Rattle.lustat_init.specs.Judged.{LeastReportsLaw};
ghost use Rattle.lustat_init.specs.Rows.{LeftsLaw};
ghost use Rattle.lustat_init.specs.Sources.{SourcesLaw};

/// An expression is of class 1 by itself, or by a variable that it takes its class from.
pub fn sources_law()
    ensures { SourcesLaw }
{}

/// With the least classes, a node has classes exactly where all its equations keep the rules.
pub fn least_reports_law()
    ensures { LeastReportsLaw }
{}

/// A program that keeps the rules of names has in each node only equations of declared variables.
pub fn lefts_law()
    ensures { LeftsLaw }
{}
