//! That every omission table has a schedule; the functions do nothing.
ghost use Rattle.omission_schedules.specs.Laws.{EachNodeStops, EachRunHasAnOrder};
ghost use Rattle.omission_schedules.specs.Laws.{EachTableHasARun, EachTableHasARunWithStops};
ghost use Rattle.omission_schedules.specs.Laws.{EachTableHasASchedule};
ghost use Rattle.omission_schedules.specs.Laws.{EachTableHasASchedulePlaced};
ghost use Rattle.omission_schedules.specs.Laws.{EachTableHasAScheduleWithStops};
ghost use Rattle.omission_schedules.specs.Laws.{EachTableHasAScheduleWithStopsPlaced};
ghost use Rattle.omission_schedules.specs.Laws.{RunsAreRunsInRounds};
ghost use Rattle.omission_schedules.specs.Reports.{OneReportShowsRounds, SchedulesShowRounds};

/// Under each plan, the schedule of an omission test omits exactly what the test says, by the
/// events and by their places.
pub fn each_table_has_a_schedule()
    ensures events { EachTableHasASchedule }
    ensures places { EachTableHasASchedulePlaced }
{}

/// The run in rounds of that schedule is that under the test.
pub fn each_table_has_a_run()
    ensures { EachTableHasARun }
{}

/// If nodes stop, their whole rounds omit what the test says and what wasn't sent.
pub fn each_table_has_a_schedule_with_stops()
    ensures events { EachTableHasAScheduleWithStops }
    ensures places { EachTableHasAScheduleWithStopsPlaced }
    ensures stops { EachNodeStops }
{}

/// The states of whole rounds are then those of the run in rounds that also omits what wasn't sent.
pub fn each_table_has_a_run_with_stops()
    ensures { EachTableHasARunWithStops }
{}

/// Schedules of whole rounds and omission tests have the same runs in rounds.
pub fn runs_are_runs_in_rounds()
    ensures { RunsAreRunsInRounds }
{}

/// Every run is, in its whole rounds, that of a schedule that goes round by round.
pub fn each_run_has_an_order()
    ensures { EachRunHasAnOrder }
{}

/// The report that `explain` gives of the run of a schedule shows the run in rounds under the
/// schedule's omission test, and is the only one that does: `rounds_report` gives this very report.
pub fn schedules_show_rounds()
    ensures shown { SchedulesShowRounds }
    ensures one { OneReportShowsRounds }
{}
