//! What all decisions of a report come to.
ghost use Rattle.std.specs.Prelude.{◌≡◌};
ghost use Rattle.omission_explainer.specs.Decided.{IsNeverSplit, IsSummary, summary_of};

use crate::report::Report;
use crate::summary::Decided;

/// What the decisions of all closed rounds come to. Takes no memory.
pub fn decided(report: &Report) -> Decided
    ensures value { result ≡ summary_of report.now.rows }
    ensures summary { IsSummary report.now.rows result }
    ensures never_split { IsNeverSplit report.now.rows result }
{
    let mut all = Decided::None;
    for row in report.rows.as_slice() {
        all = all.with(row.decision);
    }
    all
}
