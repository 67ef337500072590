//! What a yes says of the report of a run in steps: which runs the question covers.
ghost use Rattle.answer_laws.specs.Asked.{ClearRunsAreAsked, OpenRunsAreAsked, StoppedRunsAreAsked};
ghost use Rattle.answer_laws.specs.Asked.{TerminationIsOfAskedReports};
ghost use Rattle.answer_laws.specs.Asked.{YesInAllRoundsIsOfAskedReports};
ghost use Rattle.answer_laws.specs.Asked.{YesInAllRoundsIsOfEveryReport, YesIsOfAskedReports};
ghost use Rattle.answer_laws.specs.EveryReport.{YesIsOfEveryReport};

/// Nothing at run time: a yes of `explore`, whatever the question is, holds of the report of each
/// run that the question covers, of a schedule or by threads. So does a yes in all rounds, whatever
/// the number of rounds of that run is.
pub fn yes_is_of_asked_reports()
    ensures yes { YesIsOfAskedReports }
    ensures all_rounds { YesInAllRoundsIsOfAskedReports }
    ensures termination { TerminationIsOfAskedReports }
{}

/// Nothing at run time: if any message may be missed, every report is of a run that the question
/// covers.
pub fn open_runs_are_asked()
    ensures { OpenRunsAreAsked }
{}

/// Nothing at run time: if any message may be missed, a yes of `explore` is one for every report,
/// of every schedule under every plan and of every run by threads. A yes in all rounds is one for
/// every report of any number of rounds.
pub fn yes_is_of_every_report()
    ensures yes { YesIsOfEveryReport }
    ensures all_rounds { YesInAllRoundsIsOfEveryReport }
{}

/// Nothing at run time: a run that is judged clear from a round on, with all nodes correct, is one
/// of those that `--clear` asks about.
pub fn clear_runs_are_asked()
    ensures { ClearRunsAreAsked }
{}

/// Nothing at run time: a run in which nodes stop is one of those that `--faults crash` asks about,
/// if its rows omit no message that such a run couldn't.
pub fn stopped_runs_are_asked()
    ensures { StoppedRunsAreAsked }
{}
