//! Two answers to one question.
use round_lang::Vars;

/// What the code and what the evaluator answers: a state, a message, or silence.
#[derive(Drop)]
pub struct Both {
    pub code: Option<Vars>,
    pub evaluated: Option<Vars>,
}

impl Both {
    /// Whether the answers are one.
    pub fn agree(&self) -> bool {
        match (self.code.as_ref(), self.evaluated.as_ref()) {
            (Some(code), Some(evaluated)) => code.same(evaluated),
            (None, None) => true,
            _ => false,
        }
    }
}
