//! The texts of a run: its result, and the report on its strands, blocks and refused accesses. Use it to print a `Record`.
//! Contracts cite `specs/Results.antt` (the result) and `specs/Report.antt` (the report). Private ones cite `specs/Found.antt`
//! (what is computed once for all lines) and `specs/Elements.antt` (how elements are looked up). `specs/Worked.antt` tries them on
//! examples.
#![tactic(auto)]

mod counts;
mod elements;
mod found;
mod names;
mod report;
mod results;
mod strands;

ghost use Rattle.cw_report.specs.Worked.{Cancelled, Counts, Lines};

pub use names::RunNames;
pub use report::report_text;
pub use results::result_text;

/// Examples: reports on small runs.
pub fn worked_reports()
    ensures counts { Counts }
    ensures cancelled { Cancelled }
    ensures lines { Lines }
{}
