//! Laws of the definitions; the functions do nothing.
ghost use Rattle.round_check.specs.OneMeaning.{NamesHaveOneMeaning};

use crate::checked::Checked;

/// Each name in a checked program is that of one thing: where it is read, of one comprehension
/// variable, one field or one variable in scope, and where it is assigned to or decided, of one
/// variable.
pub fn names_have_one_meaning(program: &Checked)
    ensures { NamesHaveOneMeaning program.now }
{
    program.typed();
}
