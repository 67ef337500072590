//! The lines that `explore` prints.
ghost use Rattle.answer_laws.specs.AnswerLines.{AnswersAreTheLines};

/// Nothing at run time: of the lines that `explore` prints, those that begin neither with four
/// blanks nor with `note: ` are the answers, in their order.
pub fn answers_are_the_lines()
    ensures { AnswersAreTheLines }
{}
