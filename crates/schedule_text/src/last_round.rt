//! Rounds of lines that follow each other, which are mostly the same.
ghost use Rattle.std.specs.Prelude.{◌≡◌, ◌<◌, length, take, IfSome};
ghost use Rattle.std.specs.Int.{from_le_bytes, w64};
ghost use Rattle.schedule_text.specs.Fronts.{IsNumberBefore};

use crate::number::number_before;
use std::marker::Model;

/// How many digits the number of a round has at most if it is read here.
pub(crate) const ROUND_DIGITS: usize = 8;

/// How many bytes a round that is kept has at most, with its LF.
const KEPT: usize = 7;

/// The round that was read last, with the LF behind it. A text that begins with the same bytes has
/// the same round, so its digits aren't read again.
#[derive(Drop)]
pub(crate) struct LastRound {
    // The bytes as one number, in which those under the mask count. Before the first round this is
    // 1 under the mask 0, as no bytes are.
    word: u64,
    mask: u64,
    round: u32,
    length: usize,
}

impl Model for LastRound {
    ghost use Rattle.schedule_text.specs.Rounds.{KeepsRound};

    ghost Value = { Unit {0} };

    ghost view = { λ _. tt };

    ghost invariant = { λ r. KeepsRound r.word r.mask r.round r.length };
}

impl LastRound {
    /// No round yet.
    pub(crate) fn new() -> LastRound {
        LastRound {
            word: 1,
            mask: 0,
            round: 0,
            length: 0,
        }
    }

    /// The round that stands before LF at the front of a text, and what follows the LF.
    #[inline(always)]
    pub(crate) fn read<'a>(&mut self, text: &'a [u8]) -> Option<(u32, &'a [u8])>
        requires { 8 < length text.now }
        ensures { IfSome result (λ r. IsNumberBefore text.now 10 r.0 r.1.now) }
    {
        let word = u64::from_le_bytes(*text.first_chunk::<8>()?);
        if word & self.mask == self.word {
            return Some((self.round, &text[self.length..]));
        }
        self.read_anew(word, text)
    }

    /// The same if the digits have to be read; the round is kept if it is short.
    #[inline(never)]
    fn read_anew<'a>(&mut self, word: u64, text: &'a [u8]) -> Option<(u32, &'a [u8])>
        requires long { 8 < length text.now }
        requires word { word ≡ from_le_bytes w64 (take 8 text.now) }
        ensures { IfSome result (λ r. IsNumberBefore text.now 10 r.0 r.1.now) }
    {
        let (round, rest) = number_before(text, ROUND_DIGITS, b'\n')?;
        let length = text.len() - rest.len();
        if length <= KEPT {
            let mask = (1u64 << (8 * length)) - 1;
            *self = LastRound {
                word: word & mask,
                mask,
                round,
                length,
            };
        }
        Some((round, rest))
    }
}
