//! What is wrong with the text of a file.
use crate::files::{FileKind, ReadFile, limit_of};
use crate::line_faults::BadLine;
use crate::located::{Located, unwritten};
use crate::schedule_forms::forms_at;
use crate::sentence::Sentence;
use crate::word_fault::word_span;
use command_runs::Refusal;
use omission_texts::read_omissions;
use reason_texts::TextLines;
use round_lang::Span;
use schedule_text::{ScheduleFault, begin_utf8, read_header};
use std::alloc::Global;
use std::io::Write;
use std::str::from_utf8;

impl ReadFile<'_> {
    /// The file's text, if it was read and is UTF-8; of a longer one than its command takes, its
    /// beginning.
    pub(crate) fn text(&self) -> Option<&str> {
        let bytes = self.bytes.as_ref()?.as_slice();
        match from_utf8(bytes) {
            Ok(text) => Some(text),
            Err(error) if self.is_long() && begin_utf8(bytes) => {
                from_utf8(bytes.get(..error.valid_up_to())?).ok()
            }
            Err(_) => None,
        }
    }

    /// Whether the file is longer than its command takes.
    pub(crate) fn is_long(&self) -> bool {
        match &self.bytes {
            Some(bytes) => bytes.len() > limit_of(self.kind),
            None => false,
        }
    }

    /// A part of the file's text.
    pub(crate) fn located<'b>(&'b self, text: &'b str, span: Span) -> Located<'b> {
        Located {
            name: self.name,
            text,
            span,
        }
    }

    /// Tells that the file can't be read, or where it isn't UTF-8, and whether one of these holds.
    pub(crate) fn tell_unread<O: Write>(
        &self,
        alloc: Global,
        out: &mut O,
    ) -> Result<bool, Refusal> {
        let Some(bytes) = &self.bytes else {
            self.tell_whole(&Sentence::Unread(self.failure), out)?;
            if self.kind == FileKind::Header && may_be_numbers(self.name) {
                writeln!(out, "{}", Sentence::HeaderNumbers).map_err(unwritten)?;
            }
            return Ok(true);
        };
        if self.text().is_some() {
            return Ok(false);
        }
        let Err(error) = from_utf8(bytes.as_slice()) else {
            return Ok(false);
        };
        let end = error.valid_up_to();
        let Some(before) = bytes.as_slice().get(..end) else {
            return Ok(false);
        };
        let Ok(text) = from_utf8(before) else {
            return Ok(false);
        };
        let span = Span {
            first: end,
            after: end,
        };
        self.located(text, span)
            .tell(alloc, &Sentence::NotUtf8, out)?;
        Ok(true)
    }

    /// Tells what holds of the file as a whole.
    pub(crate) fn tell_whole<O: Write>(
        &self,
        sentence: &Sentence<'_>,
        out: &mut O,
    ) -> Result<(), Refusal> {
        writeln!(out, "{}: {}", self.name, sentence).map_err(unwritten)
    }

    /// Whether the text of the file, a header or an omission file, is refused for this fault.
    pub(crate) fn is_refused(&self, alloc: Global, fault: ScheduleFault) -> Result<bool, Refusal> {
        let Some(text) = self.text() else {
            return Ok(false);
        };
        if self.is_long() {
            return Ok(fault == ScheduleFault::TooLong);
        }
        let found = match self.kind {
            FileKind::Header => read_header(alloc, text).err(),
            FileKind::Omissions => read_omissions(alloc, text).err(),
            _ => Some(fault),
        };
        match found {
            Some(ScheduleFault::NoMemory) => Err(Refusal::NoMemory),
            found => Ok(found == Some(fault)),
        }
    }

    /// Tells the line for which the text of the file is refused.
    pub(crate) fn tell_line<O: Write>(
        &self,
        alloc: Global,
        fault: ScheduleFault,
        out: &mut O,
    ) -> Result<(), Refusal> {
        let (number, is_large) = match fault {
            ScheduleFault::BadLine(number) => (number, false),
            ScheduleFault::NumberTooLarge(number) => (number, true),
            ScheduleFault::TooLong => return self.tell_whole(&Sentence::TooLong, out),
            ScheduleFault::NoMemory => return Err(Refusal::NoMemory),
        };
        let Some(text) = self.text() else {
            return self.tell_whole(&Sentence::TooLong, out);
        };
        let (before, line) = TextLines::new(alloc, text)?.numbered(number as usize);
        let (span, sentence) = if is_large {
            (large_number(text, line.span), Sentence::NumberTooLarge)
        } else if line.span.first == text.len() {
            (line.span, Sentence::EndsBefore(forms_at(self.kind, before)))
        } else {
            self.bad_line(text, line.span, before).fault()
        };
        self.located(text, span).tell(alloc, &sentence, out)
    }

    /// A line of the file's text that can't be read.
    fn bad_line<'b>(&self, text: &'b str, span: Span, before: usize) -> BadLine<'b> {
        BadLine {
            kind: self.kind,
            bytes: text.as_bytes().get(span.first..span.after).unwrap_or(&[]),
            span,
            before,
        }
    }
}

/// Where the first number of a line stands that is too large; the line if there is none.
fn large_number(text: &str, line: Span) -> Span {
    let bytes = text.as_bytes().get(line.first..line.after).unwrap_or(&[]);
    for (place, word) in bytes.split(|byte| *byte == b' ').enumerate() {
        let is_number = word.iter().all(|byte| byte.is_ascii_digit());
        if is_number && is_large(word) {
            return word_span(bytes, place, line);
        }
    }
    line
}

/// Whether digits make a number above the largest of 32 bits.
fn is_large(digits: &[u8]) -> bool {
    match from_utf8(digits) {
        Ok(digits) => !digits.is_empty() && digits.parse::<u32>().is_err(),
        Err(_) => false,
    }
}

/// Whether the name of a header may be meant as its numbers: it begins with `@`, or has digits and
/// colons alone.
fn may_be_numbers(name: &str) -> bool {
    if name.starts_with('@') {
        return true;
    }
    name.contains(':')
        && name
            .bytes()
            .all(|byte| byte == b':' || byte.is_ascii_digit())
}
