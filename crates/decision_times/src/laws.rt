//! A law of reports; the function does nothing.
ghost use Rattle.std.specs.Prelude.{ℕ, List};
ghost use Rattle.adversary.specs.Driving.{ClosedAreDue};
ghost use Rattle.decision_times.specs.InTime.{DecideByStep, DecideInTime, IsReportOf};
ghost use Rattle.omission_explainer.specs.Rows.{ClosedRound};
ghost use Rattle.omission_explainer.specs.Verdict.{HearsFrom};
ghost use Rattle.step_book.specs.Log.{Log};

/// From what `explain` says of its report, and `judge` of a run that kept lockstep and the bound
/// (`hears`), it follows by which round the correct nodes have decided. If rounds are closed when
/// they are due, as in the runs of schedules and of `run_lockstep`, it follows by which step.
pub fn reports_are_in_time()
    ensures rounds { (start : ℕ → ℕ) (v : Log) (rows : List ClosedRound) (correct clear : ℕ)
        → IsReportOf start v rows → HearsFrom start v correct clear
        → DecideInTime v correct clear rows }
    ensures steps { (start : ℕ → ℕ) (v : Log) (rows : List ClosedRound) (correct clear : ℕ)
        → IsReportOf start v rows → HearsFrom start v correct clear → ClosedAreDue start v
        → DecideByStep start v correct clear rows }
{}
