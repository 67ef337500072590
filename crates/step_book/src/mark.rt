//! What is recorded of messages.
ghost use Rattle.std.specs.Prelude.{◌≡◌};
ghost use Rattle.step_book.specs.Stored.{IsShort, mark_by};

use std::marker::Model;

/// What became of a copy of a message: it wasn't made, since its slot or its copying hasn't come;
/// its sender was silent; it's in flight; it was released when its receiver had taken so many
/// steps; or it was dropped. The number of steps stops at that of all rounds together: past the
/// last round no release is told from another.
#[derive(Clone, Copy, PartialEq, Eq, Debug)]
pub enum Mark {
    Unsent,
    Silent,
    Flying,
    Released(u64),
    Lost,
}

/// The code of a release before the receiver's first step.
const FIRST_RELEASED: u32 = 4;

/// A mark in 4 bytes.
#[derive(Clone, Copy)]
pub(crate) struct StoredMark {
    code: u32,
}

impl Model for StoredMark {
    ghost use Rattle.step_book.specs.declared.mark.Mark.{Mark};
    ghost use Rattle.step_book.specs.Stored.{code_back, code_of, mark_by};

    ghost Value = { Mark };

    ghost view = { λ s. mark_by s.code };

    ghost inverse = { λ mark. record { code = code_of mark } };

    ghost inverse_ok = { λ s h i. record { code = code_back s.code i } };
}

impl StoredMark {
    /// A mark whose count of steps, if it has one, isn't too large.
    pub(crate) fn new(mark: Mark) -> StoredMark
        requires { IsShort mark }
        ensures { result ≡ mark }
    {
        let code = match mark {
            Mark::Unsent => 0,
            Mark::Silent => 1,
            Mark::Flying => 2,
            Mark::Lost => 3,
            Mark::Released(count) => FIRST_RELEASED + count as u32,
        };
        StoredMark { code }
    }

    /// The mark.
    pub(crate) fn mark(&self) -> Mark
        ensures { result ≡ self.now }
    {
        mark_by(self.code)
    }
}

/// The mark of a code.
fn mark_by(code: u32) -> Mark
    ensures { result ≡ mark_by code }
{
    match code {
        0 => Mark::Unsent,
        1 => Mark::Silent,
        2 => Mark::Flying,
        3 => Mark::Lost,
        _ => Mark::Released(u64::from(code - FIRST_RELEASED)),
    }
}
