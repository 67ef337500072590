//! The words of a line.
use crate::transcript::TranscriptFault;
use std::alloc::Global;

/// The words of a line, which has this number. Blanks stand between words; one with blanks in it
/// stands in single or double quotes.
pub(crate) fn words_of(
    alloc: Global,
    line: &str,
    number: usize,
) -> Result<Vec<&str>, TranscriptFault> {
    let mut words = Vec::new(alloc);
    let mut place = Place::Between;
    for (at, character) in line.char_indices() {
        let next = place.after(at, character);
        let end = match (place, next) {
            (Place::Quoted(first, _), Place::Between) => Some(first),
            (Place::Word(first), Place::Between) => Some(first),
            _ => None,
        };
        if let Some(first) = end {
            words.push(part(line, first, at))?;
        }
        place = next;
    }
    match place {
        Place::Between => {}
        Place::Word(first) => words.push(part(line, first, line.len()))?,
        Place::Quoted(..) => return Err(TranscriptFault::Unquoted(number)),
    }
    Ok(words)
}

/// Where in a line a character is.
#[derive(Clone, Copy, PartialEq, Eq)]
enum Place {
    Between,
    /// In a word that begins at this byte.
    Word(usize),
    /// In a word that begins at this byte and ends at the quote.
    Quoted(usize, char),
}

impl Place {
    /// Where the next character is, after one at this byte.
    fn after(self, at: usize, character: char) -> Place {
        match self {
            Place::Between => {
                if character == '\'' || character == '"' {
                    Place::Quoted(at.saturating_add(1), character)
                } else if character.is_whitespace() {
                    Place::Between
                } else {
                    Place::Word(at)
                }
            }
            Place::Word(_) => {
                if character.is_whitespace() {
                    Place::Between
                } else {
                    self
                }
            }
            Place::Quoted(_, quote) => {
                if character == quote {
                    Place::Between
                } else {
                    self
                }
            }
        }
    }
}

fn part(line: &str, first: usize, end: usize) -> &str {
    line.get(first..end).unwrap_or("")
}
