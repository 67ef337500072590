//! A line with `^` under a part of it.
ghost use Rattle.std.specs.Prelude.{◌≡◌, ◌++◌, IfOk, OnOk, count_by, drop, encode_utf8_all, map};
ghost use Rattle.std.specs.Prelude.{replicate, string_bytes, take};
ghost use Rattle.std.specs.Str.{chars};
ghost use Rattle.fault_places.specs.Excerpts as spec;
ghost use Rattle.fault_places.specs.Excerpts.{characters_before, characters_in, line_characters};
ghost use Rattle.fault_places.specs.Excerpts.{shown_carets, shown_line};
ghost use Rattle.fault_places.specs.Places.{begins_character};

use crate::line::line_at;
use crate::place::{before, begins_character, place_of};
use round_lang::Span;
use run_events::NoMemory;
use std::alloc::Global;
use std::fmt;

/// How many characters of a line are shown at most.
const MAX_SHOWN: usize = 160;

/// How many characters are shown before the part that is marked, if a line is longer.
const SHOWN_BEFORE: usize = 80;

/// A line of a text, and the line under it, with `^` under a part. A tab stands under a tab.
#[derive(Drop, Debug)]
pub struct Excerpt {
    pub line: String,
    pub carets: String,
}

/// Both lines.
impl fmt::Display for Excerpt {
    fn fmt<W: fmt::Write>(&self, f: &mut fmt::Formatter<W>) -> fmt::Result {
        write!(f, "{}\n{}", self.line.as_str(), self.carets.as_str())
    }
}

/// The characters of a line.
fn characters(alloc: Global, line: &str) -> Result<Vec<char>, NoMemory>
    ensures { IfOk result (λ v. v.items ≡ chars line.now) }
{
    Ok(line.chars().collect::<Vec<char>>(alloc)?)
}

/// Writes the characters.
fn push_all(out: &mut String, characters: &[char]) -> Result<(), NoMemory>
    ensures { OnOk result
        (string_bytes out.new ≡ string_bytes out.old ++ encode_utf8_all characters.now) }
{
    for character in characters {
        out.push(*character)?;
    }
    Ok(())
}

/// What stands under a character that isn't marked.
fn blank_under(character: char) -> char
    ensures { result ≡ spec.blank_under character }
{
    if character == '\t' { '\t' } else { ' ' }
}

/// Writes what stands under characters that aren't marked.
fn push_blanks(out: &mut String, characters: &[char]) -> Result<(), NoMemory>
    ensures { OnOk result (string_bytes out.new
        ≡ string_bytes out.old ++ encode_utf8_all (map spec.blank_under characters.now)) }
{
    for character in characters {
        out.push(blank_under(*character))?;
    }
    Ok(())
}

/// Writes `^` so many times.
fn push_carets(out: &mut String, count: usize) -> Result<(), NoMemory>
    ensures { OnOk result (string_bytes out.new ≡ string_bytes out.old ++ replicate count 94) }
{
    for _caret in 0..count {
        out.push('^')?;
    }
    Ok(())
}

/// So many elements from a place on, or as many as there are.
fn part<T>(items: &[T], first: usize, count: usize) -> &[T]
    ensures { result.now ≡ take count (drop first items.now) }
{
    let Some(rest) = items.get(first..) else {
        return &[];
    };
    match rest.get(..count) {
        Some(part) => part,
        None => rest,
    }
}

/// How many characters begin in the bytes.
fn count_characters(bytes: &[u8]) -> usize
    ensures { result ≡ count_by begins_character bytes.now }
{
    bytes.iter().filter(|byte| begins_character(**byte)).count()
}

/// How many characters a part of the text has.
fn characters_in(text: &str, span: Span) -> usize
    ensures { result ≡ spec.characters_in text.now span }
{
    let before = before(text.as_bytes(), span.after);
    match before.get(span.first..) {
        Some(part) => count_characters(part),
        None => 0,
    }
}

/// How many characters of a line are left out at its beginning.
fn left_out(line: &[char], first: usize) -> usize
    ensures { result ≡ spec.left_out line.now first }
{
    first
        .saturating_sub(SHOWN_BEFORE)
        .min(line.len().saturating_sub(MAX_SHOWN))
}

/// What stands for so many characters that are left out.
fn cut_mark(left_out: usize) -> &'static str
    ensures { result.now ≡ spec.cut_mark left_out }
{
    if left_out == 0 { "" } else { ".." }
}

/// What stands under that.
fn cut_blank(left_out: usize) -> &'static str
    ensures { result.now ≡ spec.cut_blank left_out }
{
    if left_out == 0 { "" } else { "  " }
}

/// How many characters are marked.
fn marked(line: &[char], first: usize, count: usize) -> usize
    ensures { result ≡ spec.marked line.now first count }
{
    let shown_to = line.len().min(left_out(line, first) + MAX_SHOWN);
    count.min(shown_to.saturating_sub(first)).max(1)
}

/// What is shown of a line.
#[tactic(auto, unfolding(crate::specs::Excerpts::shown_line))]
fn shown_line(alloc: Global, line: &[char], first: usize) -> Result<String, NoMemory>
    ensures { IfOk result (λ s. string_bytes s ≡ spec.shown_line line.now first) }
{
    let left_out = left_out(line, first);
    let mut out = String::new(alloc);
    out.push_str(cut_mark(left_out))?;
    push_all(&mut out, part(line, left_out, MAX_SHOWN))?;
    out.push_str(cut_mark(line.len().saturating_sub(left_out + MAX_SHOWN)))?;
    Ok(out)
}

/// What is shown under it.
#[tactic(auto, unfolding(crate::specs::Excerpts::shown_carets))]
fn shown_carets(
    alloc: Global,
    line: &[char],
    first: usize,
    count: usize,
) -> Result<String, NoMemory>
    ensures { IfOk result (λ s. string_bytes s ≡ spec.shown_carets line.now first count) }
{
    let left_out = left_out(line, first);
    let mut out = String::new(alloc);
    out.push_str(cut_blank(left_out))?;
    push_blanks(
        &mut out,
        part(line, left_out, first.saturating_sub(left_out)),
    )?;
    push_carets(&mut out, marked(line, first, count))?;
    Ok(out)
}

/// The line on which a part of the text begins, and `^` under each character of the part on that
/// line, one at least. Of a line of more than 160 characters so many are shown, with `..` for what
/// is left out.
pub fn excerpt_of(alloc: Global, text: &str, span: Span) -> Result<Excerpt, NoMemory>
    ensures line { IfOk result (λ e. string_bytes e.line
        ≡ shown_line (line_characters text.now span)
        (characters_before text.now span)) }
    ensures carets { IfOk result (λ e. string_bytes e.carets
        ≡ shown_carets (line_characters text.now span)
        (characters_before text.now span) (characters_in text.now span)) }
{
    let line = characters(alloc, line_at(text, span.first))?;
    let first = (place_of(text, span.first).column - 1).min(line.len());
    let count = characters_in(text, span);
    Ok(Excerpt {
        line: shown_line(alloc, &line, first)?,
        carets: shown_carets(alloc, &line, first, count)?,
    })
}
