//! Why a source is no program.
use crate::files::{CommandFiles, FileKind};
use crate::located::unwritten;
use crate::nesting::{Reading, too_deep_at};
use crate::refusals::unless_refused;
use crate::sentence::Sentence;
use command_runs::Refusal;
use fault_places::{Double, Related, expected_at, fault_place};
use round_check::CheckFault;
use round_lang::{LangFault, Span, parse};
use std::alloc::Global;
use std::io::Write;

/// What some editors put before a text's first character.
const BYTE_ORDER_MARK: &str = "\u{feff}";

/// Tells where the text of the source goes wrong, and whether it can be told.
pub(crate) fn tell_source<O: Write>(
    alloc: Global,
    files: &CommandFiles<'_>,
    fault: LangFault,
    out: &mut O,
) -> Result<bool, Refusal> {
    let Some(file) = files.of(FileKind::Source) else {
        return Ok(false);
    };
    let Some(text) = file.text() else {
        return Ok(false);
    };
    match fault {
        LangFault::BadToken(span) if text.starts_with(BYTE_ORDER_MARK) => {
            file.located(text, span)
                .tell(alloc, &Sentence::ByteOrderMark, out)?;
        }
        LangFault::BadToken(span) | LangFault::Unexpected(span) => {
            let expected = expected_at(alloc, text, span.first)?;
            file.located(text, expected.place(span))
                .tell(alloc, &expected, out)?;
            if let Some(mistake) = expected.mistake() {
                writeln!(out, "{mistake}").map_err(unwritten)?;
            }
        }
        LangFault::LimitPassed(span) => {
            let sentence = limit_sentence(text, span);
            file.located(text, span).tell(alloc, &sentence, out)?;
        }
        LangFault::TooDeep => match too_deep_at(alloc, text, Reading::Program)? {
            Some(span) => file
                .located(text, span)
                .tell(alloc, &Sentence::TooDeep, out)?,
            None => file.tell_whole(&Sentence::TooDeep, out)?,
        },
        LangFault::TooLong => file.tell_whole(&Sentence::TooLongSource, out)?,
        LangFault::NoMemory => return Err(Refusal::NoMemory),
    }
    Ok(true)
}

/// What is said of a number, a name or a list that passes its limit.
pub(crate) fn limit_sentence(text: &str, span: Span) -> Sentence<'static> {
    let before = match text.get(..span.first) {
        Some(before) => before.trim_end(),
        None => "",
    };
    let begins_with_digit = match text.as_bytes().get(span.first) {
        Some(first) => first.is_ascii_digit(),
        None => false,
    };
    if before.ends_with("values") {
        Sentence::Limit("a program has 1 to 64 values")
    } else if before.ends_with("period") {
        Sentence::Limit("a period has 1 to 8 rounds")
    } else if begins_with_digit {
        Sentence::Limit("a number is at most 4294967295")
    } else if span.after.saturating_sub(span.first) > 32 {
        Sentence::Limit("a name has at most 32 characters")
    } else {
        Sentence::Limit("a program has at most 16 variables, and a message at most 8 fields")
    }
}

/// Tells where the program of the source is at fault, and whether it can be told.
pub(crate) fn tell_check<O: Write>(
    alloc: Global,
    files: &CommandFiles<'_>,
    fault: CheckFault,
    out: &mut O,
) -> Result<bool, Refusal> {
    let Some(file) = files.of(FileKind::Source) else {
        return Ok(false);
    };
    let Some(text) = file.text() else {
        return Ok(false);
    };
    let Some(program) = unless_refused(parse(alloc, text))? else {
        return Ok(false);
    };
    let Some(found) = fault_place(alloc, text, &program, fault)? else {
        return Ok(false);
    };
    let excerpt = file.located(text, found.span()).excerpt(alloc)?;
    match found.related() {
        None => excerpt.tell(&found, out)?,
        Some(related) => {
            let other = file.located(text, related.span()).excerpt(alloc)?;
            excerpt.tell(&found, out)?;
            other.tell(&sentence_of(&related), out)?;
        }
    }
    Ok(true)
}

/// What is said of another place that a fault has to do with.
fn sentence_of(related: &Related<'_>) -> Sentence<'static> {
    match related {
        Related::Nearest(_) => Sentence::DeclaredHere,
        Related::Declared(_) => Sentence::DeclaredHere,
        Related::First(_, Double::Input) => Sentence::FirstOfKind("input"),
        Related::First(_, Double::Decide) => Sentence::FirstOfKind("decide"),
        Related::First(_, _) => Sentence::FirstMeaning,
        Related::Fields(_) => Sentence::FieldsHere,
    }
}
