//! A part of a file's text, and a sentence about it.
use command_runs::Refusal;
use fault_places::{Excerpt, excerpt_of, place_of};
use round_lang::Span;
use run_events::NoMemory;
use std::alloc::Global;
use std::io::Write;
use std::{fmt, io};

/// A part of a file's text.
#[derive(Clone, Copy)]
pub(crate) struct Located<'a> {
    pub name: &'a str,
    pub text: &'a str,
    pub span: Span,
}

impl<'a> Located<'a> {
    /// Writes the place and the sentence, and below them the line of the part with `^` under it.
    pub(crate) fn tell<S: fmt::Display, O: Write>(
        &self,
        alloc: Global,
        sentence: &S,
        out: &mut O,
    ) -> Result<(), Refusal> {
        self.excerpt(alloc)?.tell(sentence, out)
    }

    /// The part with its line. To tell a sentence about it takes no more memory.
    pub(crate) fn excerpt(&self, alloc: Global) -> Result<LocatedExcerpt<'a>, NoMemory> {
        let excerpt = excerpt_of(alloc, self.text, self.span)?;
        Ok(LocatedExcerpt {
            located: *self,
            excerpt,
        })
    }
}

/// A part of a file's text, and its line.
#[derive(Drop)]
pub(crate) struct LocatedExcerpt<'a> {
    located: Located<'a>,
    excerpt: Excerpt,
}

impl LocatedExcerpt<'_> {
    /// Writes the place and the sentence, and below them the line of the part with `^` under it.
    pub(crate) fn tell<S: fmt::Display, O: Write>(
        &self,
        sentence: &S,
        out: &mut O,
    ) -> Result<(), Refusal> {
        let Located { name, text, span } = self.located;
        let place = place_of(text, span.first);
        writeln!(out, "{name}:{place}: {sentence}").map_err(unwritten)?;
        let line = Shown(self.excerpt.line.as_str());
        writeln!(out, "    {line}").map_err(unwritten)?;
        writeln!(out, "    {}", self.excerpt.carets.as_str()).map_err(unwritten)
    }
}

/// A line as a terminal shows it: with `?` for each control character but the tab.
#[derive(Clone, Copy)]
struct Shown<'a>(&'a str);

impl fmt::Display for Shown<'_> {
    fn fmt<W: fmt::Write>(&self, f: &mut fmt::Formatter<W>) -> fmt::Result {
        for character in self.0.chars() {
            if is_hidden(character) {
                write!(f, "?")?;
            } else {
                write!(f, "{character}")?;
            }
        }
        Ok(())
    }
}

/// Whether a terminal would take the character for an order.
fn is_hidden(character: char) -> bool {
    (character < ' ' && character != '\t') || ('\u{7f}' <= character && character <= '\u{9f}')
}

/// A writer's fault as a refusal.
pub(crate) fn unwritten(_error: io::Error) -> Refusal {
    Refusal::Write
}
