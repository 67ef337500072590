//! The text of a schedule that shows a property failing.
ghost use Rattle.std.specs.Prelude.{◌≡◌, ◌++◌, ◌∷◌, IfOk, string_bytes};
ghost use Rattle.exploration_texts.specs.Lines.{comment_text};

use part_answers::Property as PropertyName;
use run_events::NoMemory;
use std::alloc::Global;

/// A schedule's text behind a comment that says which property fails in which round.
pub fn commented(
    alloc: Global,
    name: PropertyName,
    round: u32,
    schedule: &str,
) -> Result<String, NoMemory>
    ensures { IfOk result (λ text.
        string_bytes text ≡ comment_text name round ++ 10 ∷ schedule.now) }
{
    let name = name.as_str();
    Ok(format!(in alloc; "# {name} fails in round {round}\n{schedule}")?)
}
