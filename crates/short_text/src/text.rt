//! A text of bounded length, made in place.
ghost use Rattle.std.specs.Prelude.{◌≡◌, ◌+◌, ◌<◌, ◌≤◌, ◌++◌, ◌∷◌, [], length};
ghost use Rattle.short_text.specs.Short.{room};

use std::marker::Model;

/// How many bytes a short text may have.
pub const ROOM: usize = 768;

/// Bytes up to a bound, without memory of their own; contracts see the list of them.
#[derive(Drop)]
pub struct ShortText {
    bytes: [u8; ROOM],
    length: usize,
}

impl Model for ShortText {
    ghost use Rattle.std.specs.Prelude.{◌≤◌, List, ℕ, take};
    ghost use Rattle.short_text.specs.Short.{room};

    ghost Value = { List ℕ };

    ghost view = { λ t. take t.length t.bytes };

    ghost invariant = { λ t. t.length ≤ room };
}

impl ShortText {
    /// An empty text. Its array is on the stack, so a writer makes one and clears it.
    #[inline(always)]
    pub fn new() -> ShortText
        ensures { result ≡ [] }
    {
        ShortText {
            bytes: [0; ROOM],
            length: 0,
        }
    }

    /// How many bytes there are, at most `ROOM`.
    #[inline(always)]
    pub fn len(&self) -> usize
        ensures { result ≡ length self.now }
    {
        self.length
    }

    /// Appends a byte. The caller has made sure that there is room for it, so nothing is tested.
    #[inline(always)]
    pub fn push(&mut self, byte: u8)
        requires { length self.old < room }
        ensures text { self.new ≡ self.old ++ byte ∷ [] }
        ensures long { length self.new ≡ length self.old + 1 }
    {
        self.bytes[self.length] = byte;
        self.length += 1;
    }

    /// Appends two bytes, with room as for `push`.
    #[inline(always)]
    pub fn push_two(&mut self, first: u8, second: u8)
        requires { length self.old + 2 ≤ room }
        ensures text { self.new ≡ self.old ++ first ∷ second ∷ [] }
        ensures long { length self.new ≡ length self.old + 2 }
    {
        let end = self.length;
        self.bytes[end] = first;
        self.bytes[end + 1] = second;
        self.length = end + 2;
    }

    /// Appends an array, with room as for `push`: words of a known length go faster so than by
    /// `push_all`.
    #[inline(always)]
    pub fn push_array<const N: usize>(&mut self, bytes: &[u8; N])
        requires { length self.old + length bytes.now ≤ room }
        ensures text { self.new ≡ self.old ++ bytes.now }
        ensures long { length self.new ≡ length self.old + length bytes.now }
    {
        let end = self.length;
        for place in 0..N {
            self.bytes[end + place] = bytes[place];
        }
        self.length = end + N;
    }

    /// Appends some bytes, with room as for `push`.
    #[inline(always)]
    pub fn push_all(&mut self, bytes: &[u8])
        requires { length self.old + length bytes.now ≤ room }
        ensures text { self.new ≡ self.old ++ bytes.now }
        ensures long { length self.new ≡ length self.old + length bytes.now }
    {
        let end = self.length + bytes.len();
        self.bytes[self.length..end].copy_from_slice(bytes);
        self.length = end;
    }

    /// Makes the text empty, so that there is room for `ROOM` bytes again.
    #[inline(always)]
    pub fn clear(&mut self)
        ensures { self.new ≡ [] }
    {
        self.length = 0;
    }

    /// The bytes so far. They are any bytes: whoever wants a `str` tests them.
    #[inline(always)]
    pub fn as_slice(&self) -> &[u8]
        ensures { result.now ≡ self.now }
    {
        &self.bytes[..self.length]
    }
}
