//! The first line of a text.
ghost use Rattle.std.specs.Prelude.{◌≡◌, ◌<◌, ◌≤◌, ◌==◌, not, ◌∷◌, ◌++◌, length, IfSome, codes};
ghost use Rattle.std.specs.List.{prefix_len};
ghost use Rattle.std.specs.Str.Lines.{lines, strip_carriage_return};
ghost use Rattle.schedule_text.specs.Fronts.{IsFrontEvent};
ghost use Rattle.run_events.specs.declared.event.Event.TheVariants.{Release, Step};

use crate::last_round::{LastRound, ROUND_DIGITS};
use crate::number::number_before;
use run_events::Name;

/// How many digits the number of a node has at most in a line that is read here.
const NODE_DIGITS: usize = 2;

/// How many bytes the longest such line has: `release `, two nodes and a round, and a byte behind
/// each. In a text that has so many, no byte of the line has to be tested for being there.
const LONGEST: usize = 8 + 2 * (NODE_DIGITS + 1) + ROUND_DIGITS + 1;

/// The node of a first line that is a step and that LF ends, and what follows the line; `None`
/// if the line is none, has a number of many digits or stands near the text's end.
#[inline(always)]
pub(crate) fn front_step(text: &[u8]) -> Option<(u32, &[u8])>
    ensures { IfSome result (λ r. IsFrontEvent text.now (Step r.0) r.1.now) }
{
    if text.len() < LONGEST {
        return None;
    }
    // A word's bytes are compared as one number, which costs one load and one test.
    let (word, rest) = text.split_first_chunk::<4>()?;
    if u32::from_le_bytes(*word) == u32::from_le_bytes(*b"step") && rest[0] == b' ' {
        return number_before(&rest[1..], NODE_DIGITS, b'\n');
    }
    None
}

/// The same for a plain release, of a message's copy 0, by its name.
#[inline(always)]
pub(crate) fn front_release<'a>(text: &'a [u8], last: &mut LastRound) -> Option<(Name, &'a [u8])>
    ensures { IfSome result (λ r. IsFrontEvent text.now (Release r.0) r.1.now) }
{
    if text.len() < LONGEST {
        return None;
    }
    let (word, rest) = text.split_first_chunk::<8>()?;
    if u64::from_le_bytes(*word) == u64::from_le_bytes(*b"release ") {
        return front_name(rest, last);
    }
    None
}

/// The same by what stands behind `release `, in which the longest numbers and their ends have
/// room.
#[inline(always)]
fn front_name<'a>(text: &'a [u8], last: &mut LastRound) -> Option<(Name, &'a [u8])>
    requires { 15 ≤ length text.now }
    ensures { IfSome result
        (λ r. IsFrontEvent (codes "release " ++ text.now) (Release r.0) r.1.now) }
{
    let (from, behind_from) = number_before(text, NODE_DIGITS, b' ')?;
    let (to, behind_to) = number_before(behind_from, NODE_DIGITS, b' ')?;
    let (round, rest) = last.read(behind_to)?;
    let name = Name {
        from,
        to,
        round,
        copy: 0,
    };
    Some((name, rest))
}

/// The first line without its end, and what follows it.
pub(crate) fn first_line(text: &[u8]) -> (&[u8], &[u8])
    requires { 0 < length text.now }
    ensures first { lines text.now ≡ result.0.now ∷ lines result.1.now }
    ensures shorter { length result.1.now < length text.now }
{
    let end = line_length(text);
    if end == text.len() {
        return (text, b"");
    }
    (without_return(&text[..end]), &text[end + 1..])
}

/// How many bytes come before the first LF, or all if there is none.
fn line_length(text: &[u8]) -> usize
    ensures value { result ≡ prefix_len (λ b. not (b == 10)) text.now }
    ensures within { result ≤ length text.now }
{
    text.iter().take_while(|b| **b != b'\n').count()
}

/// A line without the one CR at its end.
fn without_return(line: &[u8]) -> &[u8]
    ensures { result.now ≡ strip_carriage_return line.now }
{
    let end = line.len();
    if end > 0 && line[end - 1] == b'\r' {
        &line[..end - 1]
    } else {
        line
    }
}
