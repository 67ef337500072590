//! Numbers in a line, separated by single spaces.
ghost use Rattle.std.specs.Prelude.{◌≡◌, ◌+◌, ◌<◌, ◌≤◌, length, IfSome};
ghost use Rattle.std.specs.Char.{is_ascii_digit};
ghost use Rattle.std.specs.List.{prefix_len};
ghost use Rattle.schedule_text.specs.Fronts.{IsFront, IsNumberBefore, capped, front_value};

/// The largest number that a line may have.
pub(crate) const MAX_NUMBER: u64 = 4_294_967_295;

/// The number at the front of a text, and what follows its space, if one does. Each number above
/// the largest counts as the next one.
#[derive(Clone, Copy)]
pub(crate) struct Front<'a> {
    pub value: u64,
    pub rest: Option<&'a [u8]>,
}

/// How many digits a text begins with, and their value, if each above the largest counts as the
/// next one.
fn front_digits(text: &[u8]) -> (usize, u64)
    ensures count { result.0 ≡ prefix_len is_ascii_digit text.now }
    ensures within { result.0 ≤ length text.now }
    ensures value { result.1 ≡ capped (front_value text.now) }
{
    let mut value = 0u64;
    for (place, byte) in text.iter().enumerate() {
        if !byte.is_ascii_digit() {
            return (place, value);
        }
        value = (10 * value + u64::from(byte - b'0')).min(MAX_NUMBER + 1);
    }
    (text.len(), value)
}

/// The number that a text begins with; `None` if its first word is no number.
pub(crate) fn first_number(text: &[u8]) -> Option<Front<'_>>
    ensures { IsFront result text.now }
{
    let (count, value) = front_digits(text);
    if count == 0 {
        return None;
    }
    if count == text.len() {
        return Some(Front { value, rest: None });
    }
    if text[count] != b' ' {
        return None;
    }
    Some(Front {
        value,
        rest: Some(&text[count + 1..]),
    })
}

/// The number of so many digits at most that stands before this byte at the front of a text, and
/// what follows the byte. No byte is tested for being there.
#[inline(always)]
pub(crate) fn number_before(text: &[u8], digits: usize, end: u8) -> Option<(u32, &[u8])>
    requires few { digits ≤ 8 }
    requires long { digits < length text.now }
    ensures number { IfSome result (λ r. IsNumberBefore text.now end r.0 r.1.now) }
    ensures near { IfSome result (λ r. length text.now ≤ length r.1.now + (digits + 1)) }
{
    let mut value = 0u32;
    for place in 0..digits + 1 {
        let byte = text[place];
        if place > 0 && byte == end {
            return Some((value, &text[place + 1..]));
        }
        if !byte.is_ascii_digit() {
            return None;
        }
        value = 10 * value + u32::from(byte - b'0');
    }
    None
}
