//! The lines of a schedule's text, which comes piece by piece.
ghost use Rattle.std.specs.Prelude.{◌≡◌, ◌+◌, ◌≤◌, ◌++◌, ◌↔◌, ℕ, IfOk, IfSome, IsTrue, List, OnOk};
ghost use Rattle.std.specs.Prelude.{drop, length, take};
ghost use Rattle.std.specs.Str.{IsUtf8};
ghost use Rattle.std.specs.Str.Lines.{lines};
ghost use Rattle.schedule_text.specs.Bytes.{BeginsUtf8};
ghost use Rattle.schedule_text.specs.Intakes.{EndsIntake, EndsLine, HasNoEvents, IsFresh};
ghost use Rattle.schedule_text.specs.Intakes.{IsLongFault, TakesLines, header_in, said};
ghost use Rattle.schedule_text.specs.Texts.{max_text};

use crate::draft::Stage;
use crate::fault::ScheduleFault;
use crate::kind::Kind;
use crate::line_reader::LineReader;
use crate::source::TextFault;
use memchr::memrchr;
use round_meaning::Setup;
use run_events::{NoMemory, PlanKind};
use simdutf8::compat::from_utf8;
use std::alloc::Global;
use std::str;

/// What was read so far: the lines that were taken in, or the first of them at fault, and the bytes
/// behind them.
#[derive(Drop)]
pub(crate) struct Intake {
    pub reader: LineReader,
    pub fault: Option<ScheduleFault>,
    pub bytes: Vec<u8>,
    // Whole lines among the bytes weren't UTF-8: they're looked at again at the end, with the rest.
    pub is_stopped: bool,
}

impl Intake {
    /// Nothing read, with room for so many bytes.
    pub(crate) fn new(alloc: Global, room: usize) -> Result<Intake, NoMemory>
        ensures { IfOk result IsFresh }
    {
        Ok(Intake {
            reader: LineReader::new(alloc),
            fault: None,
            bytes: Vec::with_capacity(alloc, room)?,
            is_stopped: false,
        })
    }

    /// Takes in the whole lines at the front of the bytes, if they're UTF-8. So many bytes were
    /// looked through already, and no line ends within these.
    pub(crate) fn take_lines(&mut self, alloc: Global, searched: usize) -> Result<(), NoMemory>
        requires searched { searched ≤ length self.old.bytes.items }
        requires sized { self.old.reader.number + length self.old.bytes.items ≤ max_text + 1 }
        ensures number { OnOk result (self.new.reader.number + length self.new.bytes.items
            ≤ self.old.reader.number + length self.old.bytes.items) }
        ensures taken { OnOk result (TakesLines self.old self.new) }
    {
        if self.is_stopped {
            return Ok(());
        }
        let Some(whole) = whole_lines(&self.bytes, searched) else {
            self.is_stopped = true;
            return Ok(());
        };
        self.read(alloc, whole)?;
        drop_front(&mut self.bytes, whole);
        Ok(())
    }

    /// Reads the lines of the first bytes, if none is at fault yet.
    fn read(&mut self, alloc: Global, count: usize) -> Result<(), NoMemory>
        requires within { count ≤ length self.old.bytes.items }
        requires sized { self.old.reader.number + count ≤ max_text + 1 }
        ensures bytes { self.new.bytes.items ≡ self.old.bytes.items }
        ensures number { self.new.reader.number ≤ self.old.reader.number + count }
        ensures said { OnOk result ((behind : List (List ℕ))
            → said self.old (lines (take count self.old.bytes.items) ++ behind)
            ≡ said self.new behind) }
    {
        if self.fault.is_some() {
            return Ok(());
        }
        match self
            .reader
            .read(alloc, Kind::Schedule, &self.bytes[..count])
        {
            Ok(()) => Ok(()),
            Err(ScheduleFault::NoMemory) => Err(NoMemory),
            Err(fault) => {
                self.fault = Some(fault);
                Ok(())
            }
        }
    }

    /// Reads the last bytes, behind which the text ends.
    pub(crate) fn finish(&mut self, alloc: Global) -> Result<(), TextFault>
        requires { self.old.reader.number + length self.old.bytes.items ≤ max_text + 1 }
        ensures { EndsIntake result self.old.bytes.items
            (said self.old (lines self.old.bytes.items)) self.new.reader.draft }
    {
        if !is_utf8(&self.bytes) {
            return Err(TextFault::NotUtf8);
        }
        let count = self.bytes.len();
        self.read(alloc, count)?;
        if let Some(fault) = self.fault {
            return Err(TextFault::Schedule(fault));
        }
        match self.reader.draft.stage {
            Stage::Whole(..) => Ok(()),
            _ => Err(TextFault::Schedule(ScheduleFault::BadLine(self.reader.number))),
        }
    }

    /// The setup and the plan of the header, if that is whole.
    pub(crate) fn header(&self, alloc: Global) -> Result<Option<(Setup, PlanKind)>, NoMemory>
        ensures { IfOk result (λ header. header ≡ header_in self.now.reader.draft) }
    {
        self.reader.draft.whole_header(alloc)
    }

    /// Takes the events away that were read.
    pub(crate) fn clear_events(&mut self)
        ensures { HasNoEvents self.old self.new }
    {
        self.reader.draft.events.clear();
    }

    /// The fault of a text of which these are the last bytes that are looked at.
    pub(crate) fn too_long(&self) -> TextFault
        ensures { IsLongFault self.now.bytes.items result }
    {
        if begin_utf8(&self.bytes) {
            TextFault::Schedule(ScheduleFault::TooLong)
        } else {
            TextFault::NotUtf8
        }
    }
}

/// How many bytes the whole lines at the front take, if no line ends within the first `searched`
/// bytes; `None` if they aren't UTF-8.
fn whole_lines(bytes: &[u8], searched: usize) -> Option<usize>
    requires { searched ≤ length bytes.now }
    ensures within { IfSome result (λ n. n ≤ length bytes.now) }
    ensures lines { IfSome result (λ n. EndsLine (take n bytes.now)) }
    ensures utf8 { IfSome result (λ n. IsUtf8 (take n bytes.now)) }
{
    let end = lines_end(bytes, searched);
    if is_utf8(&bytes[..end]) {
        Some(end)
    } else {
        None
    }
}

/// How many bytes the whole lines at the front take, if no line ends within the first `searched`
/// bytes; 0 if there is no whole line.
fn lines_end(bytes: &[u8], searched: usize) -> usize
    requires { searched ≤ length bytes.now }
    ensures within { result ≤ length bytes.now }
    ensures lines { EndsLine (take result bytes.now) }
{
    // Only what is new is looked through, so that a long line isn't looked through anew for each
    // piece.
    let end = line_end(&bytes[searched..]);
    if end == 0 {
        return 0;
    }
    searched + end
}

/// How many bytes come up to the last LF and with it, 0 if there is none.
fn line_end(bytes: &[u8]) -> usize
    ensures within { result ≤ length bytes.now }
    ensures lines { EndsLine (take result bytes.now) }
{
    match memrchr(b'\n', bytes) {
        Some(at) => at + 1,
        None => 0,
    }
}

/// Takes the first bytes away.
fn drop_front(bytes: &mut Vec<u8>, count: usize)
    requires { count ≤ length bytes.old.items }
    ensures { bytes.new.items ≡ drop count bytes.old.items }
{
    // Bytes that stay in their place aren't copied: a long line may have millions of them.
    if count == 0 {
        return;
    }
    let left = bytes.len() - count;
    bytes.copy_within(count.., 0);
    bytes.truncate(left);
}

fn is_utf8(bytes: &[u8]) -> bool
    ensures { IsTrue result ↔ IsUtf8 bytes.now }
{
    from_utf8(bytes).is_ok()
}

/// Whether bytes begin a text in UTF-8: a character may be cut off at their end.
pub fn begin_utf8(bytes: &[u8]) -> bool
    ensures { IsTrue result ↔ BeginsUtf8 bytes.now }
{
    match str::from_utf8(bytes) {
        Ok(_) => true,
        Err(error) => error.error_len().is_none(),
    }
}
