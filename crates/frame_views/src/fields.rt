//! Fields that are read where they lie.
ghost use Rattle.std.specs.Prelude.{◌≡◌, ◌≤◌, length, IfSome, slice_index};
ghost use Rattle.round_lang.specs.Values.{at, flag, num, row, set};
ghost use Rattle.frame_format.specs.Formats.{size, width, IsBlock};
ghost use Rattle.frame_format.specs.Reading.{fields_at};
ghost use Rattle.frame_views.specs.Views.{spot_value};

use crate::row::{RowView, from_place};
use byteorder::{BigEndian, ByteOrder};
use frame_format::size_of;
use round_lang::{Kind, ValueSet};
use std::marker::Model;

/// The fields of a message, which lie in borrowed bytes. Contracts see their values.
#[derive(Drop, Debug)]
pub struct FieldsView<'k, 'a> {
    kinds: &'k [Kind],
    bytes: &'a [u8],
}

impl<'k, 'a> Model for FieldsView<'k, 'a> {
    ghost use Rattle.std.specs.Prelude.{List};
    ghost use Rattle.round_lang.specs.declared.value.Value.{Value as FieldValue};
    ghost use Rattle.frame_format.specs.Reading.{fields_at};
    ghost use Rattle.frame_views.specs.Views.{HasFields};

    ghost Value = { List FieldValue };

    ghost view = { λ a. fields_at a.kinds.now a.bytes.now };

    ghost invariant = { λ a. HasFields a.kinds.now a.bytes.now };
}

impl<'k, 'a> FieldsView<'k, 'a> {
    /// The fields of these kinds that the bytes begin with.
    pub fn over(kinds: &'k [Kind], bytes: &'a [u8]) -> FieldsView<'k, 'a>
        requires block { IsBlock kinds.now }
        requires room { size kinds.now ≤ length bytes.now }
        ensures { result ≡ fields_at kinds.now bytes.now }
    {
        FieldsView { kinds, bytes }
    }

    /// The kind of a field, and the bytes from its first one on.
    fn spot(&self, place: usize) -> Option<(Kind, &'a [u8])>
        ensures value { spot_value result ≡ at self.now place }
        ensures room { IfSome result (λ s. width s.0 ≤ length s.1.now) }
    {
        spot_in(self.bytes, self.kinds, place)
    }

    /// The number that field `place` is, 0 if it is none.
    pub fn num(&self, place: usize) -> u32
        ensures { result ≡ num (at self.now place) }
    {
        match self.spot(place) {
            Some((Kind::Num, bytes)) => BigEndian::read_u32(bytes),
            _ => 0,
        }
    }

    /// The truth value that field `place` is, false if it is none.
    pub fn flag(&self, place: usize) -> bool
        ensures { result ≡ flag (at self.now place) }
    {
        match self.spot(place) {
            Some((Kind::Flag, bytes)) => bytes[0] == 1,
            _ => false,
        }
    }

    /// The set that field `place` is, the empty one if it is none.
    pub fn set(&self, place: usize) -> ValueSet
        ensures { result.bits ≡ set (at self.now place) }
    {
        match self.spot(place) {
            Some((Kind::Set, bytes)) => ValueSet {
                bits: BigEndian::read_u64(bytes),
            },
            _ => ValueSet::empty(),
        }
    }

    /// The row that field `place` is, one of no entries if it is none.
    pub fn row(&self, place: usize) -> RowView<'a>
        ensures { result ≡ row (at self.now place) }
    {
        match self.spot(place) {
            Some((Kind::Row(entries), bytes)) => RowView::over(bytes, entries),
            _ => RowView::over(&[], 0),
        }
    }

    /// The entry of a value in the row that field `place` is, 0 from K on.
    pub fn entry(&self, place: usize, value: u32) -> u32
        ensures { result ≡ slice_index (row (at self.now place)) value }
    {
        self.row(place).at(value)
    }
}

/// The kind of a field, and the bytes from its first one on, among fields of these kinds.
fn spot_in<'a>(bytes: &'a [u8], kinds: &[Kind], place: usize) -> Option<(Kind, &'a [u8])>
    requires block { IsBlock kinds.now }
    requires room { size kinds.now ≤ length bytes.now }
    ensures value { spot_value result ≡ at (fields_at kinds.now bytes.now) place }
    ensures room { IfSome result (λ s. width s.0 ≤ length s.1.now) }
{
    if place < kinds.len() {
        let first = size_of(&kinds[..place]);
        Some((kinds[place], from_place(bytes, first)))
    } else {
        None
    }
}
