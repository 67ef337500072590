//! Conditions on a program's states.
ghost use Rattle.std.specs.Prelude.{◌≡◌};
ghost use Rattle.round_check.specs.Conditions.{condition_fault};

use crate::checked::Checked;
use crate::fault::CheckFault;
use crate::names::Names;
use crate::rules::{Place, Rule, Scope, breaks};
use crate::types::{Context, has_type, type_of};
use round_lang::{Formula, Ty};

impl Checked {
    /// Why an expression is no condition on the program's states, if it's none: the first cause, in
    /// the order of a program's own. It's read as one that stands in `end`, but in no block.
    #[tactic(auto, unfolding(crate::specs::Conditions::condition_fault))]
    pub fn condition_fault(&self, condition: &Formula) -> Option<CheckFault>
        ensures { result ≡ condition_fault self.now condition.now }
    {
        let program = self.program();
        let scope = Scope {
            variables: program.variables(),
            blocks: program.blocks(),
            fields: &[],
            place: Place::End,
            bound: &Names::Outermost,
        };
        let context = Context {
            variables: program.variables(),
            fields: &[],
            bound: &Names::Outermost,
        };
        let condition = condition.expr();
        if breaks(Rule::Fresh, condition, &scope) {
            Some(CheckFault::DoubleName)
        } else if breaks(Rule::Known, condition, &scope) {
            Some(CheckFault::UnknownName)
        } else if breaks(Rule::Allowed, condition, &scope) {
            Some(CheckFault::NotAllowedHere)
        } else if has_type(type_of(condition, &context), Ty::Bool) {
            None
        } else {
            Some(CheckFault::WrongType)
        }
    }
}
