//! Numbers in decimal digits.
ghost use Rattle.std.specs.Prelude.{◌≡◌, ◌+◌, ◌<◌, ◌≤◌, ◌++◌, ◌∷◌, [], length};
ghost use Rattle.std.specs.Fmt.{decimal};
ghost use Rattle.short_text.specs.Short.{room};

use crate::text::ShortText;
use itoa::Buffer;

/// Appends a number. It has at most 20 digits, and there must be room for so many, whatever it is;
/// those of one digit, which are the most frequent, are written without a call.
#[inline(always)]
pub fn push_number(number: u64, text: &mut ShortText)
    requires { length text.old + 20 ≤ room }
    ensures text { text.new ≡ text.old ++ decimal number }
    ensures short { length text.new ≤ length text.old + 20 }
{
    if number < 10 {
        text.push(b'0' + number as u8);
    } else {
        push_long(number, text);
    }
}

/// Appends a number and a byte behind it, which takes less than one after the other where the
/// number has one digit.
#[inline(always)]
pub fn push_number_and(number: u64, end: u8, text: &mut ShortText)
    requires { length text.old + 21 ≤ room }
    ensures text { text.new ≡ text.old ++ (decimal number ++ end ∷ []) }
    ensures short { length text.new ≤ length text.old + 21 }
{
    if number < 10 {
        text.push_two(b'0' + number as u8, end);
    } else {
        push_long(number, text);
        text.push(end);
    }
}

/// Appends a number of several digits, where up to four are written by `push_digits`.
#[inline(never)]
fn push_long(number: u64, text: &mut ShortText)
    requires { length text.old + 20 ≤ room }
    ensures text { text.new ≡ text.old ++ decimal number }
    ensures short { length text.new ≤ length text.old + 20 }
{
    if number < 100 {
        push_digits(number as u32, text);
    } else if number < 10_000 {
        let rest = number % 100;
        push_digits((number / 100) as u32, text);
        text.push_two(b'0' + (rest / 10) as u8, b'0' + (rest % 10) as u8);
    } else {
        let mut digits = Buffer::new();
        text.push_all(digits.format(number).as_bytes());
    }
}

/// Appends a number of two digits at most, faster than a longer one could be.
#[inline]
pub fn push_digits(number: u32, text: &mut ShortText)
    requires small { number < 100 }
    requires room { length text.old + 2 ≤ room }
    ensures text { text.new ≡ text.old ++ decimal number }
    ensures short { length text.new ≤ length text.old + 2 }
{
    if number < 10 {
        let ones = number as u8;
        text.push(b'0' + ones);
    } else {
        let (tens, ones) = ((number / 10) as u8, (number % 10) as u8);
        text.push_two(b'0' + tens, b'0' + ones);
    }
}
