//! Reading numbers.
ghost use Rattle.std.specs.Prelude.{◌≡◌, ◌≢◌, ◌↔◌, ◌<◌, ◌^◌, ℕ, IfNone, IfSome, IsTrue};
ghost use Rattle.std.specs.Fmt.{decimal};
ghost use Rattle.part_answers.specs.Answers.{IsRound};

use itoa::Buffer;
use run_events::MAX_ROUNDS;

/// The number that a text is in decimal digits, with neither a sign nor a leading zero.
pub(crate) fn read_number(text: &str) -> Option<u32>
    ensures some { IfSome result (λ n. text.now ≡ decimal n) }
    ensures none { IfNone result ((n : ℕ) → n < 2 ^ 32 → text.now ≢ decimal n) }
{
    let number: u32 = text.parse().ok()?;
    if Buffer::new().format(number) == text {
        Some(number)
    } else {
        None
    }
}

/// The round that a text is.
pub(crate) fn read_round(text: &str) -> Option<u32>
    ensures some { IfSome result (λ n. (text.now ≡ decimal n) × IsRound n) }
    ensures none { IfNone result ((n : ℕ) → IsRound n → text.now ≢ decimal n) }
{
    let round = read_number(text)?;
    if !is_round(round) {
        return None;
    }
    Some(round)
}

/// Whether a program may have so many rounds.
fn is_round(round: u32) -> bool
    ensures { IsTrue result ↔ IsRound round }
{
    1 <= round && round <= MAX_ROUNDS
}
