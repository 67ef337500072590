//! Which forms a line may have, by where it stands.
use crate::files::FileKind;

/// The forms that a line may have with so many lines before it that say something.
pub(crate) fn forms_at(kind: FileKind, before: usize) -> &'static str {
    match kind {
        FileKind::Omissions => "`omit I R J`, `cut LIST R` or `crash J R LIST`",
        _ => match before {
            0 => "`nodes N`",
            1 => "`faults T`",
            2 => "`inputs V V ..`",
            3 => "`rounds R`",
            4 => "`plan known D` or `plan growing`",
            _ => forms_after_header(kind, before),
        },
    }
}

/// The forms of a line behind the header's five.
fn forms_after_header(kind: FileKind, before: usize) -> &'static str {
    match kind {
        FileKind::Schedule => {
            "an event: `step I`, `release J I R`, `drop J I R` or `copy J I R Y`"
        }
        FileKind::Setup if before == 5 => "`pace free` or `pace ticks`",
        FileKind::Setup => "`stop I C`",
        _ => "nothing more: a header is five lines",
    }
}

/// The forms of an event by its first word, if it's one of an event.
pub(crate) fn forms_of_event(word: &[u8]) -> Option<&'static str> {
    match word {
        b"step" => Some("`step I`"),
        b"release" => Some("`release J I R`, or `release J I R Y` of copy Y"),
        b"drop" => Some("`drop J I R`, or `drop J I R Y` of copy Y"),
        b"copy" => Some("`copy J I R Y`, where Y numbers the copy from 1 to 3"),
        _ => None,
    }
}

/// The words with which a line may begin that has so many lines before it that say something.
pub(crate) fn words_at(kind: FileKind, before: usize) -> &'static [&'static str] {
    match kind {
        FileKind::Omissions => &["omit", "cut", "crash"],
        _ => match before {
            0 => &["nodes"],
            1 => &["faults"],
            2 => &["inputs"],
            3 => &["rounds"],
            4 => &["plan"],
            _ => words_after_header(kind, before),
        },
    }
}

/// The words with which a line behind the header's five may begin.
fn words_after_header(kind: FileKind, before: usize) -> &'static [&'static str] {
    match kind {
        FileKind::Schedule => &["step", "release", "drop", "copy"],
        FileKind::Setup if before == 5 => &["pace"],
        FileKind::Setup => &["stop"],
        _ => &[],
    }
}
