//! Why a text that is read gives no run.
use crate::files::{CommandFiles, FileKind, ReadFile};
use crate::header::LineFault;
use crate::named_faults::{event_fault, omission_fault};
use crate::refusals::unless_refused;
use crate::sentence::Sentence;
use crate::word_fault::WordFault;
use command_runs::Refusal;
use omission_texts::{OmissionLine, read_omissions};
use reason_texts::{HEADER_LINES, TextLines};
use schedule_text::{read_header, read_schedule};
use std::alloc::Global;
use std::io::Write;

/// Tells what is wrong with a line of a file, and whether the file has that line.
pub(crate) fn tell_fault<O: Write>(
    alloc: Global,
    file: &ReadFile<'_>,
    fault: LineFault,
    out: &mut O,
) -> Result<bool, Refusal> {
    let (index, fault) = fault;
    let Some(text) = file.text() else {
        return Ok(false);
    };
    let Some(line) = TextLines::new(alloc, text)?.significant(index) else {
        return Ok(false);
    };
    file.located(text, fault.span(text, line.span))
        .tell(alloc, &fault.sentence, out)?;
    Ok(true)
}

/// Tells what the run hasn't of what an event of a schedule, or a line of an omission file, names;
/// and whether it can be told.
pub(crate) fn tell_unknown<O: Write>(
    alloc: Global,
    files: &CommandFiles<'_>,
    position: usize,
    out: &mut O,
) -> Result<bool, Refusal> {
    if let Some(file) = files.of(FileKind::Schedule) {
        return tell_unknown_event(alloc, file, position, out);
    }
    match (files.of(FileKind::Header), files.of(FileKind::Omissions)) {
        (Some(header), Some(omissions)) => {
            tell_unknown_omission(alloc, header, omissions, position, out)
        }
        _ => Ok(false),
    }
}

fn tell_unknown_event<O: Write>(
    alloc: Global,
    file: &ReadFile<'_>,
    position: usize,
    out: &mut O,
) -> Result<bool, Refusal> {
    let Some(text) = file.text() else {
        return Ok(false);
    };
    let Some(schedule) = unless_refused(read_schedule(alloc, text))? else {
        return Ok(false);
    };
    let events = schedule.events.to_vec(alloc)?;
    let Some(event) = events.get(position) else {
        return Ok(false);
    };
    match event_fault(&schedule.setup, *event) {
        Some(fault) => {
            let index = position.saturating_add(HEADER_LINES);
            tell_fault(alloc, file, (index, fault), out)
        }
        None => Ok(false),
    }
}

fn tell_unknown_omission<O: Write>(
    alloc: Global,
    header: &ReadFile<'_>,
    file: &ReadFile<'_>,
    position: usize,
    out: &mut O,
) -> Result<bool, Refusal> {
    let (Some(header_text), Some(text)) = (header.text(), file.text()) else {
        return Ok(false);
    };
    let Some((setup, _)) = unless_refused(read_header(alloc, header_text))? else {
        return Ok(false);
    };
    let Some(omissions) = unless_refused(read_omissions(alloc, text))? else {
        return Ok(false);
    };
    let Some(line) = omissions.as_slice().get(position) else {
        return Ok(false);
    };
    match omission_fault(&setup, line) {
        Some(fault) => tell_fault(alloc, file, (position, fault), out),
        None => Ok(false),
    }
}

/// Tells the first line of an omission file by which a correct node crashes, and whether there is
/// one.
pub(crate) fn tell_correct_crash<O: Write>(
    alloc: Global,
    files: &CommandFiles<'_>,
    correct: &[u32],
    out: &mut O,
) -> Result<bool, Refusal> {
    let Some(file) = files.of(FileKind::Omissions) else {
        return Ok(false);
    };
    let Some(text) = file.text() else {
        return Ok(false);
    };
    let Some(omissions) = unless_refused(read_omissions(alloc, text))? else {
        return Ok(false);
    };
    for (index, line) in omissions.as_slice().iter().enumerate() {
        if let OmissionLine::Crash { node, .. } = line {
            if correct.contains(node) {
                let fault = WordFault::of_word(1, Sentence::CorrectStops { node: *node });
                return tell_fault(alloc, file, (index, fault), out);
            }
        }
    }
    Ok(false)
}
