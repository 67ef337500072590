//! Which question a part answers.
ghost use Rattle.std.specs.Prelude.{◌≡◌, ◌≢◌, IfNone, IfSome, length};
ghost use Rattle.std.specs.List.{list_all};
ghost use Rattle.hex.specs.Hex.{encode_lower};
ghost use Rattle.part_answers.specs.Questions.{IsQuestion, is_hex_digit};

use std::marker::Model;
use std::{fmt, str};

/// How many digits a question has.
const DIGITS: usize = 64;

/// A SHA-256 of a question, as 64 hex digits in lower case. Contracts see the list of the digits.
#[derive(Clone, Copy, Debug, PartialEq, Eq)]
pub struct Question {
    digits: [u8; DIGITS],
}

impl Model for Question {
    ghost use Rattle.std.specs.Prelude.{◌≡◌, List, ℕ, true};
    ghost use Rattle.std.specs.List.{list_all};
    ghost use Rattle.part_answers.specs.Questions.{is_hex_digit};

    ghost Value = { List ℕ };

    ghost view = { λ q. q.digits };

    ghost invariant = { λ q. list_all is_hex_digit q.digits ≡ true };

    ghost inverse = { λ digits. record { digits = digits } };
}

fn is_hex_digit(byte: u8) -> bool
    ensures { result ≡ is_hex_digit byte }
{
    byte.is_ascii_digit() || (byte >= b'a' && byte <= b'f')
}

fn are_hex_digits(bytes: &[u8]) -> bool
    ensures { result ≡ list_all is_hex_digit bytes.now }
{
    bytes.iter().all(|byte| is_hex_digit(*byte))
}

/// The bytes, if there are as many as a question has.
fn digits_of(bytes: &[u8]) -> Option<[u8; DIGITS]>
    ensures some { IfSome result (λ digits. (digits ≡ bytes.now) × (length bytes.now ≡ 64)) }
    ensures none { IfNone result (length bytes.now ≢ 64) }
{
    bytes.try_into().ok()
}

impl Question {
    /// The question that a digest names.
    pub fn of(digest: &[u8; 32]) -> Question
        ensures { result ≡ encode_lower digest.now }
    {
        let mut digits = [b'0'; DIGITS];
        let encoded = hex::encode_to_slice(*digest, &mut digits);
        prove!(encoded.is_ok());
        Question { digits }
    }

    /// The question of 64 hex digits in lower case.
    pub fn read(text: &str) -> Option<Question>
        ensures some { IfSome result (λ question. (question ≡ text.now) × IsQuestion text.now) }
        ensures none { IfNone result (¬ (IsQuestion text.now)) }
    {
        let digits = digits_of(text.as_bytes())?;
        if !are_hex_digits(&digits) {
            return None;
        }
        Some(Question { digits })
    }

    /// Its digits.
    pub fn as_str(&self) -> &str
        ensures { result.now ≡ self.now }
    {
        str::from_utf8(&self.digits).unwrap()
    }
}

/// Its digits.
impl fmt::Display for Question {
    ghost use Rattle.std.specs.Prelude.{Some};

    ghost output = { λ question. Some question };

    fn fmt<W: fmt::Write>(&self, f: &mut fmt::Formatter<W>) -> fmt::Result {
        write!(f, "{}", self.as_str())
    }
}
