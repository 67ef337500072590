//! What is wrong with a line that has none of the forms which may stand there.
use crate::files::FileKind;
use crate::schedule_forms::{forms_at, forms_of_event, words_at};
use crate::sentence::Sentence;
use crate::word_fault::{part_of, word_span};
use round_lang::Span;

/// A line that can't be read: its bytes, where it stands, and how many lines before it say
/// something.
#[derive(Clone, Copy)]
pub(crate) struct BadLine<'a> {
    pub kind: FileKind,
    pub bytes: &'a [u8],
    pub span: Span,
    pub before: usize,
}

/// A part of a text, and what is wrong with it.
pub(crate) type PartFault = (Span, Sentence<'static>);

impl BadLine<'_> {
    /// What is wrong with the line, and where: the first of the common mistakes, or else which
    /// forms may stand there.
    pub(crate) fn fault(&self) -> PartFault {
        if let Some(found) = self.hidden_fault() {
            return found;
        }
        if let Some(found) = self.number_fault() {
            return found;
        }
        if let Some(found) = self.word_fault() {
            return found;
        }
        (self.span, Sentence::Expected(self.forms()))
    }

    /// A fault that is hard to see: a byte order mark, a blank or a tab too many, or a comment
    /// behind other words.
    fn hidden_fault(&self) -> Option<PartFault> {
        if self.bytes.starts_with(&[0xef, 0xbb, 0xbf]) {
            return Some((part_of(self.span, 0, 3), Sentence::ByteOrderMark));
        }
        let mut last = b' ';
        for (at, byte) in self.bytes.iter().enumerate() {
            let part = part_of(self.span, at, at.saturating_add(1));
            match byte {
                b'#' => return Some((self.part_from(at), Sentence::CommentAlone)),
                b'\t' => return Some((part, Sentence::OneBlank)),
                b' ' if last == b' ' => return Some((part, Sentence::OneBlank)),
                _ => last = *byte,
            }
        }
        if last == b' ' {
            let at = self.bytes.len().saturating_sub(1);
            return Some((self.part_from(at), Sentence::OneBlank));
        }
        None
    }

    /// The part of the line from a byte on.
    fn part_from(&self, first: usize) -> Span {
        part_of(self.span, first, self.bytes.len())
    }

    /// A number with a sign, or numbers with commas between them where blanks should be.
    fn number_fault(&self) -> Option<PartFault> {
        for (place, word) in self.bytes.split(|byte| *byte == b' ').enumerate() {
            let sentence = match word {
                [b'-' | b'+', digit, ..] if digit.is_ascii_digit() => Sentence::DigitsAlone,
                [digit, rest @ ..]
                    if digit.is_ascii_digit()
                        && self.kind != FileKind::Omissions
                        && rest.contains(&b',') => { Sentence::BlanksBetween }
                _ => continue,
            };
            return Some((word_span(self.bytes, place, self.span), sentence));
        }
        None
    }

    /// A first word that has a place elsewhere, or is written with capitals.
    fn word_fault(&self) -> Option<PartFault> {
        let place = word_span(self.bytes, 0, self.span);
        let word = self.bytes.split(|byte| *byte == b' ').next()?;
        if self.kind != FileKind::Setup && matches!(word, b"stop" | b"pace") {
            return Some((place, Sentence::OfThreads));
        }
        for expected in words_at(self.kind, self.before) {
            if word != expected.as_bytes() && word.eq_ignore_ascii_case(expected.as_bytes()) {
                return Some((place, Sentence::IsIt(expected)));
            }
        }
        None
    }

    /// The forms that may stand there; of an event, those with its first word.
    fn forms(&self) -> &'static str {
        let forms = forms_at(self.kind, self.before);
        if self.kind != FileKind::Schedule || self.before < 5 {
            return forms;
        }
        match self.bytes.split(|byte| *byte == b' ').next() {
            Some(word) => forms_of_event(word).unwrap_or(forms),
            None => forms,
        }
    }
}
