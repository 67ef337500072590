//! What the schedule of a failure shows.
ghost use Rattle.answer_laws.specs.Shown.{FailuresAreShown};

/// Nothing at run time: the report of the schedule that `explore --trace` writes breaks the
/// property, in its last round and not before.
pub fn failures_are_shown()
    ensures { FailuresAreShown }
{}
