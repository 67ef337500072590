//! Where an offset lies in a text.
ghost use Rattle.std.specs.Prelude.{◌≡◌, take};
ghost use Rattle.fault_places.specs.Places as spec;
ghost use Rattle.fault_places.specs.Places.{column_of, line_of};

use std::fmt;

/// A place in a text, as an editor counts: the line and the column, both from 1. Each character is
/// a column, a tab too.
#[derive(Clone, Copy, PartialEq, Eq, Debug)]
pub struct Place {
    pub line: usize,
    pub column: usize,
}

/// `LINE:COLUMN`.
impl fmt::Display for Place {
    fn fmt<W: fmt::Write>(&self, f: &mut fmt::Formatter<W>) -> fmt::Result {
        write!(f, "{}:{}", self.line, self.column)
    }
}

pub(crate) fn is_newline(byte: u8) -> bool
    ensures { result ≡ spec.is_newline byte }
{
    byte == b'\n'
}

/// Whether a character begins with the byte, in UTF-8.
pub(crate) fn begins_character(byte: u8) -> bool
    ensures { result ≡ spec.begins_character byte }
{
    !(128 <= byte && byte < 192)
}

/// The bytes before an offset; all of them, if it lies past the end.
pub(crate) fn before(bytes: &[u8], offset: usize) -> &[u8]
    ensures { result.now ≡ take offset bytes.now }
{
    match bytes.get(..offset) {
        Some(before) => before,
        None => bytes,
    }
}

/// The place of an offset in bytes. One past the end of the text has the end's place.
pub fn place_of(text: &str, offset: usize) -> Place
    ensures line { result.line ≡ line_of text.now offset }
    ensures column { result.column ≡ column_of text.now offset }
{
    let before = before(text.as_bytes(), offset);
    let mut place = Place { line: 1, column: 1 };
    for byte in before {
        if is_newline(*byte) {
            place.line += 1;
            place.column = 1;
        } else if begins_character(*byte) {
            place.column += 1;
        }
    }
    place
}
