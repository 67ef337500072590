//! The places of a frame, each written on its own.
ghost use Rattle.std.specs.Prelude.{◌≡◌, ◌+◌, ◌*◌, ◌%◌, ◌^◌, ◌<◌, ◌≤◌, ◌++◌, ◌∷◌, [], length};
ghost use Rattle.std.specs.Prelude.{IfSome, MatchOption};
ghost use Rattle.std.specs.Borrow.{sem, LendsBoth, Array, u8 as byte};
ghost use Rattle.run_events.specs.Limits.{max_copy, max_rounds};
ghost use Rattle.byteorder.specs.Endian.{big_bytes};
ghost use Rattle.frame_format.specs.declared.version.FrameVersion.TheVariants.{V2};
ghost use Rattle.frame_format.specs.Formats.{kinds_at, size, width, IsBlock};
ghost use Rattle.frame_format.specs.Headers.{header};
ghost use Rattle.frame_format.specs.Spelling.{flag_byte};
ghost use Rattle.frame_views.specs.Writing.{with_entry, IsSplit};

use byteorder::{BigEndian, ByteOrder};
use frame_format::{Layout, width, write_header};
use round_lang::Kind;

/// A frame of a round that is to be written into bytes.
#[derive(Drop)]
pub struct FrameMut<'a, 'l> {
    pub bytes: &'a mut [u8],
    pub layout: &'l Layout,
    pub round: u32,
}

impl<'a, 'l> FrameMut<'a, 'l> {
    /// The bytes are `Layout::len(round)` many, and the round is 1 to 4,096.
    pub fn new(layout: &'l Layout, round: u32, bytes: &'a mut [u8]) -> FrameMut<'a, 'l>
        requires first { 1 ≤ round }
        requires last { round ≤ max_rounds }
        requires room { length bytes.old ≡ 13 + size (kinds_at layout.now round) }
        ensures same { result.bytes.ghost_name ≡ bytes.entry.ghost_name }
        ensures bytes { result.bytes.now ≡ bytes.old }
        ensures round { result.round ≡ round }
        ensures layout { result.layout.now ≡ layout.now }
    {
        FrameMut {
            layout,
            round,
            bytes,
        }
    }

    /// The places of the header and of the fields, which share no byte. The clauses tell what they
    /// are when they are lent, and nothing of what is written there: `write_frame` tells that.
    pub fn parts(&mut self) -> (HeaderMut<'_, 'l>, FieldsMut<'_, 'l>)
        requires { 13 ≤ length self.old.bytes.now }
        ensures header { length result.0.bytes.now ≡ 13 }
        ensures bytes { result.0.bytes.now ++ result.1.bytes.now ≡ self.old.bytes.now }
        ensures layout { result.0.layout.now ≡ self.old.layout.now }
        ensures round { result.0.round ≡ self.old.round }
        ensures kinds { result.1.kinds.now ≡ kinds_at self.old.layout.now self.old.round }
        ensures block { IsBlock result.1.kinds.now }
        ensures values { result.1.values ≡ self.old.layout.now.values }
        ensures few { result.1.values ≤ 64 }
    {
        let layout = self.layout;
        let round = self.round;
        let bytes = &mut *self.bytes;
        let (header, fields) = bytes.split_at_mut(13);
        (
            HeaderMut {
                layout,
                round,
                bytes: header,
            },
            FieldsMut {
                kinds: layout.kinds(round),
                values: layout.values(),
                bytes: fields,
            },
        )
    }
}

/// The places of the header and of the fields.
pub fn cut(bytes: &mut [u8]) -> (&mut [u8], &mut [u8])
    requires { 13 ≤ length bytes.old }
    ensures* writes_back { sem 𝓛 (LendsBoth (Array byte 0) (Array byte 0) (Array byte 0)
        bytes.entry result ◌++◌) }
    ensures header { length result.0.now ≡ 13 }
    ensures fields { length result.1.now + 13 ≡ length bytes.old }
{
    bytes.split_at_mut(13)
}

/// The place of the first field, which takes so many bytes, and those of the others.
pub fn split_field(bytes: &mut [u8], width: usize) -> (&mut [u8], &mut [u8])
    requires { width ≤ length bytes.old }
    ensures* writes_back { sem 𝓛 (LendsBoth (Array byte 0) (Array byte 0) (Array byte 0)
        bytes.entry result ◌++◌) }
    ensures first { length result.0.now ≡ width }
    ensures others { length result.1.now + width ≡ length bytes.old }
{
    bytes.split_at_mut(width)
}

/// The place of a header.
#[derive(Drop)]
pub struct HeaderMut<'a, 'l> {
    pub bytes: &'a mut [u8],
    pub layout: &'l Layout,
    pub round: u32,
}

impl<'a, 'l> HeaderMut<'a, 'l> {
    pub fn over(layout: &'l Layout, round: u32, bytes: &'a mut [u8]) -> HeaderMut<'a, 'l>
        ensures same { result.bytes.ghost_name ≡ bytes.entry.ghost_name }
        ensures bytes { result.bytes.now ≡ bytes.old }
        ensures layout { result.layout.now ≡ layout.now }
        ensures round { result.round ≡ round }
    {
        HeaderMut {
            layout,
            round,
            bytes,
        }
    }

    /// Writes the header of version 2: the nodes are below the layout's number, the round is the
    /// frame's, and the copy is 0 to 3.
    pub fn write(&mut self, from: u32, to: u32, round: u32, copy: u32)
        requires room { length self.old.bytes.now ≡ 13 }
        requires from { from < self.old.layout.now.nodes }
        requires to { to < self.old.layout.now.nodes }
        requires round { round ≡ self.old.round }
        requires copy { copy ≤ max_copy }
        ensures same { self.new.bytes.ghost_name ≡ self.old.bytes.ghost_name }
        ensures value { self.new.bytes.now ≡ header self.old.layout.now V2 from to round copy }
        ensures layout { self.new.layout ≡ self.old.layout }
        ensures round { self.new.round ≡ self.old.round }
    {
        let layout = self.layout;
        let bytes = &mut *self.bytes;
        write_header(layout, from, to, round, copy, bytes);
    }
}

/// The places of the fields that are left.
#[derive(Drop)]
pub struct FieldsMut<'a, 'l> {
    pub bytes: &'a mut [u8],
    pub kinds: &'l [Kind],
    pub values: u32,
}

impl<'a, 'l> FieldsMut<'a, 'l> {
    /// The places of the fields of a round.
    pub fn over(layout: &'l Layout, round: u32, bytes: &'a mut [u8]) -> FieldsMut<'a, 'l>
        ensures same { result.bytes.ghost_name ≡ bytes.entry.ghost_name }
        ensures bytes { result.bytes.now ≡ bytes.old }
        ensures kinds { result.kinds.now ≡ kinds_at layout.now round }
        ensures block { IsBlock result.kinds.now }
        ensures values { result.values ≡ layout.now.values }
        ensures few { result.values ≤ 64 }
    {
        FieldsMut {
            kinds: layout.kinds(round),
            values: layout.values(),
            bytes,
        }
    }

    /// The place of the next field, and those of the others; none after the last. The clauses tell
    /// what they are when they are lent, as those of `FrameMut::parts`.
    pub fn split_first(self) -> Option<(FieldMut<'a>, FieldsMut<'a, 'l>)>
        requires block { IsBlock self.kinds.now }
        requires room { size self.kinds.now ≤ length self.bytes.now }
        ensures places { MatchOption result (self.entry.kinds.now ≡ [])
            (λ p. IsSplit self.entry.kinds.now self.entry.bytes.now
            p.0.bytes.now p.1.kinds.now p.1.bytes.now) }
        ensures values { IfSome result (λ p. (p.0.values ≡ self.entry.values)
            × (p.1.values ≡ self.entry.values)) }
    {
        let FieldsMut {
            kinds,
            values,
            bytes,
        } = self;
        let Some((kind, kinds)) = kinds.split_first() else {
            return None;
        };
        let (first, rest) = bytes.split_at_mut(width(*kind));
        Some((
            FieldMut {
                values,
                bytes: first,
            },
            FieldsMut {
                kinds,
                values,
                bytes: rest,
            },
        ))
    }
}

/// The place of one field.
#[derive(Drop)]
pub struct FieldMut<'a> {
    pub bytes: &'a mut [u8],
    pub values: u32,
}

impl<'a> FieldMut<'a> {
    pub fn over(values: u32, bytes: &'a mut [u8]) -> FieldMut<'a>
        ensures same { result.bytes.ghost_name ≡ bytes.entry.ghost_name }
        ensures bytes { result.bytes.now ≡ bytes.old }
        ensures values { result.values ≡ values }
    {
        FieldMut { values, bytes }
    }

    /// Writes a number.
    pub fn put_num(&mut self, n: u32)
        requires { length self.old.bytes.now ≡ 4 }
        ensures same { self.new.bytes.ghost_name ≡ self.old.bytes.ghost_name }
        ensures values { self.new.values ≡ self.old.values }
        ensures value { self.new.bytes.now ≡ big_bytes 4 n }
    {
        let bytes = &mut *self.bytes;
        BigEndian::write_u32(bytes, n);
    }

    /// Writes a truth value.
    pub fn put_flag(&mut self, b: bool)
        requires { length self.old.bytes.now ≡ 1 }
        ensures same { self.new.bytes.ghost_name ≡ self.old.bytes.ghost_name }
        ensures values { self.new.values ≡ self.old.values }
        ensures value { self.new.bytes.now ≡ flag_byte b ∷ [] }
    {
        self.bytes[0] = u8::from(b);
    }

    /// Writes a set; the bits from K up are cleared.
    pub fn put_set(&mut self, bits: u64)
        requires room { length self.old.bytes.now ≡ 8 }
        requires few { self.old.values ≤ 64 }
        ensures same { self.new.bytes.ghost_name ≡ self.old.bytes.ghost_name }
        ensures values { self.new.values ≡ self.old.values }
        ensures value { self.new.bytes.now ≡ big_bytes 8 (bits % 2 ^ self.old.values) }
    {
        let kept = low_bits(bits, self.values);
        let bytes = &mut *self.bytes;
        BigEndian::write_u64(bytes, kept);
    }

    /// Writes the entry of a value of the row, and leaves the others.
    pub fn put_entry(&mut self, value: u32, n: u32)
        requires { 4 * value + 4 ≤ length self.old.bytes.now }
        ensures same { self.new.bytes.ghost_name ≡ self.old.bytes.ghost_name }
        ensures values { self.new.values ≡ self.old.values }
        ensures value { self.new.bytes.now ≡ with_entry self.old.bytes.now value n }
        ensures length { length self.new.bytes.now ≡ length self.old.bytes.now }
    {
        let at = 4 * value as usize;
        let bytes = &mut *self.bytes;
        BigEndian::write_u32(&mut bytes[at..at + 4], n);
    }
}

/// The bits below K.
fn low_bits(bits: u64, values: u32) -> u64
    requires { values ≤ 64 }
    ensures { result ≡ bits % 2 ^ values }
{
    if values < 64 {
        bits & ((1 << values) - 1)
    } else {
        bits
    }
}
