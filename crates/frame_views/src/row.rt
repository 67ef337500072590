//! Rows that are read where they lie.
ghost use Rattle.std.specs.Prelude.{◌≡◌, ◌≤◌, ◌*◌, drop, length, slice_index};
ghost use Rattle.frame_format.specs.Reading.{numbers};

use byteorder::{BigEndian, ByteOrder};
use std::marker::Model;

/// A row of a frame. Contracts see the list of its numbers.
#[derive(Drop, Debug)]
pub struct RowView<'a> {
    bytes: &'a [u8],
    entries: usize,
}

impl<'a> Model for RowView<'a> {
    ghost use Rattle.std.specs.Prelude.{ℕ, List, ◌*◌, ◌≤◌, length};
    ghost use Rattle.frame_format.specs.Reading.{numbers};

    ghost Value = { List ℕ };

    ghost view = { λ a. numbers a.entries a.bytes.now };

    ghost invariant = { λ a. 4 * a.entries ≤ length a.bytes.now };
}

impl<'a> RowView<'a> {
    /// The row of so many numbers at the front.
    pub(crate) fn over(bytes: &'a [u8], entries: usize) -> RowView<'a>
        requires { 4 * entries ≤ length bytes.now }
        ensures { result ≡ numbers entries bytes.now }
    {
        RowView { bytes, entries }
    }

    /// The entry of a value, 0 from K on.
    pub fn at(&self, value: u32) -> u32
        ensures { result ≡ slice_index self.now value }
    {
        if value as usize >= self.entries {
            return 0;
        }
        BigEndian::read_u32(from_place(self.bytes, 4 * value as usize))
    }
}

/// The bytes from a place on.
pub(crate) fn from_place(bytes: &[u8], place: usize) -> &[u8]
    requires { place ≤ length bytes.now }
    ensures { result.now ≡ drop place bytes.now }
{
    &bytes[place..]
}
