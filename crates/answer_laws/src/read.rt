//! What files of omissions say of runs.
ghost use Rattle.answer_laws.specs.Read.{OmissionsAreRead, OmissionsAreRunAgain};
ghost use Rattle.answer_laws.specs.Read.{RealisedOmitsJustThat, RunsReportRounds};

/// Nothing at run time: what `--format omissions` prints of a report is read as lines that omit
/// what the report has as omitted. The run in rounds that omits it ends each of the report's rounds
/// with the same state and decision.
pub fn omissions_are_read()
    ensures read { OmissionsAreRead }
    ensures again { OmissionsAreRunAgain }
{}

/// Nothing at run time: the schedule that `realise` writes omits just what its file says, in each
/// round that its receiver ends.
pub fn realised_omits_just_that()
    ensures { RealisedOmitsJustThat }
{}

/// Nothing at run time: what `rounds` prints is what `run` prints of the schedule that `realise`
/// writes for the same program, header and omissions.
pub fn runs_report_rounds()
    ensures { RunsReportRounds }
{}
