//! Texts in XML.
use std::fmt;

/// A text in XML, in which no character has another meaning. A character that XML hasn't, as most
/// control characters, prints as the sign of a character that can't be shown.
#[derive(Clone, Copy)]
pub struct Escaped<'a>(pub &'a str);

impl fmt::Display for Escaped<'_> {
    fn fmt<W: fmt::Write>(&self, f: &mut fmt::Formatter<W>) -> fmt::Result {
        for character in self.0.chars() {
            write_escaped(character, f)?;
        }
        Ok(())
    }
}

fn write_escaped<W: fmt::Write>(character: char, f: &mut fmt::Formatter<W>) -> fmt::Result {
    match character {
        '&' => write!(f, "&amp;"),
        '<' => write!(f, "&lt;"),
        '>' => write!(f, "&gt;"),
        '"' => write!(f, "&quot;"),
        '\t' | '\n' => write!(f, " "),
        '\0'..='\u{1f}' | '\u{7f}'..='\u{9f}' | '\u{fffe}' | '\u{ffff}' => write!(f, "\u{fffd}"),
        _ => write!(f, "{character}"),
    }
}
