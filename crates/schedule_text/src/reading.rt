//! Reading the texts of schedules, thread setups and headers.
ghost use Rattle.std.specs.Prelude.{◌≡◌, ◌≢◌, ◌<◌, ◌≤◌, ◌↔◌, Err, length};
ghost use Rattle.std.specs.Str.Lines.{lines};
ghost use Rattle.schedule_text.specs.Outcome.{Gives, GivesEnd, GivesHeader, GivesThreads};
ghost use Rattle.schedule_text.specs.Outcome.{IsHeaderRead, IsRead, IsThreadsRead};
ghost use Rattle.schedule_text.specs.Readings.{Answer, AnswerOf, IsReading, IsReadingOf};
ghost use Rattle.schedule_text.specs.Stages as stage;
ghost use Rattle.schedule_text.specs.Texts.{max_text};
ghost use Rattle.schedule_text.specs.declared.kind.Kind.TheVariants as kinds;

use crate::draft::Draft;
use crate::fault::ScheduleFault;
use crate::kind::Kind;
use crate::line_reader::LineReader;
use crate::pace::{Pace, Stop};
use round_meaning::Setup;
use run_events::{Events, PlanKind};
use std::alloc::Global;

/// What a schedule's text says.
#[derive(Drop)]
pub struct Schedule {
    pub setup: Setup,
    pub plan: PlanKind,
    pub events: Events,
}

/// What a thread setup's text says.
#[derive(Drop)]
pub struct ThreadSetup {
    pub setup: Setup,
    pub plan: PlanKind,
    pub pace: Pace,
    pub stops: Vec<Stop>,
}

/// The most bytes that a text may have.
pub const MAX_TEXT: usize = 16_777_216;

/// The schedule that a text is.
///
/// Lines end with LF, which the last may lack, and a CR before it is dropped. Empty lines and lines
/// that begin with `#` are skipped. Words are separated by one space, and numbers are decimal
/// digits of any count. The header is `nodes N`, `faults T`, `inputs V V ..` with one value at
/// least, `rounds R`, and `plan known D` or `plan growing`, in this order; then come events. The
/// next step of node I is `step I`. Copy Y of the message of round R from J to I is let go by
/// `release J I R Y`, lost by `drop J I R Y`, and made by `copy J I R Y`; a `release` or `drop`
/// without its Y is that of copy 0.
///
/// Refused are first a text that is too long, and then the first line at fault: one of another
/// shape or at another place before one with too large a number. `NoMemory` means out of memory
/// alone.
pub fn read_schedule(alloc: Global, text: &str) -> Result<Schedule, ScheduleFault>
    ensures read { IsRead text.now result }
    ensures only { (answer : Answer) → IsReading text.now answer → Gives result answer }
    ensures long { (result ≡ Err ScheduleFault.TooLong) ↔ (max_text < length text.now) }
{
    let (draft, number) = read_text(alloc, Kind::Schedule, text)?;
    draft.schedule(number)
}

/// The thread setup that a text is.
///
/// The lines and the header are those of a schedule. Then comes `pace free` or `pace ticks`, and
/// then lines `stop I C`: node I ends after C steps. All are kept, in their order.
///
/// A text is refused as by `read_schedule`; one that ends before the pace is at fault at the line
/// past its last.
pub fn read_threads(alloc: Global, text: &str) -> Result<ThreadSetup, ScheduleFault>
    ensures read { IsThreadsRead text.now result }
    ensures only { (answer : AnswerOf kinds.Threads) → IsReadingOf kinds.Threads text.now answer
        → GivesThreads result answer }
    ensures long { (result ≡ Err ScheduleFault.TooLong) ↔ (max_text < length text.now) }
{
    let (draft, number) = read_text(alloc, Kind::Threads, text)?;
    draft.threads(number)
}

/// The setup and plan of a text that is a header and nothing more.
///
/// The lines and the header are those of a schedule, and a text is refused as by `read_schedule`;
/// a line behind the header that isn't skipped is at fault.
pub fn read_header(alloc: Global, text: &str) -> Result<(Setup, PlanKind), ScheduleFault>
    ensures read { IsHeaderRead text.now result }
    ensures only { (answer : AnswerOf kinds.Header) → IsReadingOf kinds.Header text.now answer
        → GivesHeader result answer }
    ensures long { (result ≡ Err ScheduleFault.TooLong) ↔ (max_text < length text.now) }
{
    let (draft, number) = read_text(alloc, Kind::Header, text)?;
    draft.header(number)
}

/// What all lines of a text of this kind say, and the number of the line past the last.
#[tactic(auto, unfolding(crate::specs::Stages::answer_of))]
fn read_text(alloc: Global, kind: Kind, text: &str) -> Result<(Draft, u64), ScheduleFault>
    ensures read { GivesEnd kind result (stage.answer_of kind text.now) }
    ensures long { (result ≡ Err ScheduleFault.TooLong) ↔ (max_text < length text.now) }
{
    if text.len() > MAX_TEXT {
        return Err(ScheduleFault::TooLong);
    }
    read_lines(alloc, kind, text.as_bytes())
}

/// The same of a text that isn't too long.
fn read_lines(alloc: Global, kind: Kind, text: &[u8]) -> Result<(Draft, u64), ScheduleFault>
    requires { length text.now ≤ max_text }
    ensures read { GivesEnd kind result (stage.from_line kind 1 stage.start (lines text.now)) }
    ensures short { result ≢ Err ScheduleFault.TooLong }
{
    let mut reader = LineReader::new(alloc);
    reader.read(alloc, kind, text)?;
    Ok((reader.draft, reader.number))
}
