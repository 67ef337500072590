//! Laws of the definitions; the functions do nothing.
ghost use Rattle.round_lang.specs.Source.{TextsAreOneFormula, TextsAreOneProgram};

/// No text is two programs.
pub fn a_text_is_one_program()
    ensures { TextsAreOneProgram }
{}

/// No text is two expressions.
pub fn a_text_is_one_formula()
    ensures { TextsAreOneFormula }
{}
