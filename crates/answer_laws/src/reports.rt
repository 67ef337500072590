//! What holds of all reports.
ghost use Rattle.std.specs.Prelude.{◌≡◌, ℕ, List};
ghost use Rattle.command_runs.specs.Explained.{IsReportOf};
ghost use Rattle.omission_explainer.specs.declared.report.Report.{Report as Reported};
ghost use Rattle.round_lang.specs.Syntax.{ProgramTree};
ghost use Rattle.round_meaning.specs.declared.setup.Setup.{Setup as SetupView};
ghost use Rattle.run_events.specs.declared.event.Event.{Event as EventView};

/// Nothing at run time: the events of a run have one report. So a run by threads in which no thread
/// was out of memory has the report that its trace gives when it's run as a schedule.
pub fn one_report()
    ensures { (start : ℕ → ℕ) (p : ProgramTree) (s : SetupView) (events : List EventView)
        (report again : Reported) → IsReportOf start p s events report
        → IsReportOf start p s events again → again ≡ report }
{}
