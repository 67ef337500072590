//! The line in which an offset lies.
ghost use Rattle.std.specs.Prelude.{◌≡◌};
ghost use Rattle.fault_places.specs.Places as spec;
ghost use Rattle.fault_places.specs.Places.{line_text};

use crate::place::{before, is_newline};

/// How many lines end before the offset.
fn lines_before(text: &str, offset: usize) -> usize
    ensures { result ≡ spec.lines_before text.now offset }
{
    before(text.as_bytes(), offset)
        .iter()
        .filter(|byte| is_newline(**byte))
        .count()
}

/// The line of an offset in bytes, without its end. It's empty if the text ends before the offset
/// with a newline.
pub fn line_at(text: &str, offset: usize) -> &str
    ensures { result.now ≡ line_text text.now offset }
{
    match text.lines().nth(lines_before(text, offset)) {
        Some(line) => line,
        None => "",
    }
}
