//! What an answer says of a failure.
ghost use Rattle.answer_laws.specs.Answered.{AnsweredFailuresAreFound};

/// Nothing at run time: what `explore` answers of the first property that fails is a failure of it,
/// whether a search or a sample found it.
pub fn answered_failures_are_found()
    ensures { AnsweredFailuresAreFound }
{}
