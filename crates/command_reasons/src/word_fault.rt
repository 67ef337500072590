//! What is wrong with a number of a line.
use crate::sentence::Sentence;
use round_lang::Span;

/// What is said of a word of a line that says something. Words count from 0, the first of which
/// says what the line is; of the line as a whole there is none.
#[derive(Clone, Copy, PartialEq, Eq, Debug)]
pub(crate) struct WordFault {
    pub word: Option<usize>,
    pub sentence: Sentence<'static>,
}

impl WordFault {
    /// A fault of a word.
    pub(crate) fn of_word(word: usize, sentence: Sentence<'static>) -> WordFault {
        WordFault {
            word: Some(word),
            sentence,
        }
    }

    /// A fault of a word, if there is one.
    pub(crate) fn if_any(word: usize, sentence: Option<Sentence<'static>>) -> Option<WordFault> {
        Some(WordFault::of_word(word, sentence?))
    }

    /// A fault of the whole line.
    pub(crate) fn of_line(sentence: Sentence<'static>) -> WordFault {
        WordFault {
            word: None,
            sentence,
        }
    }

    /// Where in the text the fault is, on the line that stands at a part of it.
    pub(crate) fn span(&self, text: &str, line: Span) -> Span {
        let Some(word) = self.word else {
            return line;
        };
        let Some(bytes) = text.as_bytes().get(line.first..line.after) else {
            return line;
        };
        word_span(bytes, word, line)
    }
}

/// Where a word of a line stands in its text; the line, if it has no such word.
pub(crate) fn word_span(bytes: &[u8], word: usize, line: Span) -> Span {
    let mut first = 0;
    let mut words: usize = 0;
    for (at, byte) in bytes.iter().enumerate() {
        if *byte == b' ' {
            if words == word {
                return part_of(line, first, at);
            }
            words = words.saturating_add(1);
            first = at.saturating_add(1);
        }
    }
    if words == word {
        part_of(line, first, bytes.len())
    } else {
        line
    }
}

/// A part of a line, by its bytes from the line's first.
pub(crate) fn part_of(line: Span, first: usize, after: usize) -> Span {
    Span {
        first: line.first.saturating_add(first),
        after: line.first.saturating_add(after),
    }
}
