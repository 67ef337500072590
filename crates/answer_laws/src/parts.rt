//! What holds of the parts of a search.
ghost use Rattle.answer_laws.specs.Parts.{PartsAreRead, PartsTellTheWhole};
ghost use Rattle.answer_laws.specs.OneQuestion.{OneQuestion};

use round_explorer::parts_are_all;

/// Nothing at run time: what is printed of a part is the text of that part's answers, and of no
/// others, so that whoever reads it has what was told.
pub fn parts_are_read()
    ensures { PartsAreRead }
{}

/// Nothing at run time: put together, right answers of all parts are right answers about all lists
/// of inputs, as to the round of a `no` and as to `yes in all rounds`.
pub fn parts_tell_the_whole()
    ensures { PartsTellTheWhole }
{
    parts_are_all();
}

/// Nothing at run time: two questions whose digests are of one text are one question.
pub fn one_question()
    ensures { OneQuestion }
{}
