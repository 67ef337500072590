//! Numbers below 0 among the words, which `clap` takes for options.
ghost use Rattle.std.specs.Prelude.{◌≡◌, map, take};
ghost use Rattle.std.specs.List.{list_any};
ghost use Rattle.command_words.specs.Given.{begins_negative, has_negative, has_negative_among};
ghost use Rattle.command_words.specs.Given.{has_negative_change, has_negative_list};
ghost use Rattle.command_words.specs.Values.{is_negative};

/// Whether a word is a number below 0: `-` and then a digit.
fn is_negative(word: &str) -> bool
    ensures { result ≡ is_negative word.now }
{
    match word.as_bytes() {
        [b'-', digit, ..] => digit.is_ascii_digit(),
        _ => false,
    }
}

/// Whether a number below 0 follows the option.
pub(crate) fn has_negative(option: &str, words: &[&str]) -> bool
    ensures { result ≡ has_negative option.now (map (λ s. s.now) words.now) }
{
    match words {
        [] => false,
        [word, rest @ ..] => {
            (*word == option && begins_negative(rest)) || has_negative(option, rest)
        }
    }
}

fn begins_negative(words: &[&str]) -> bool
    ensures { result ≡ begins_negative (map (λ s. s.now) words.now) }
{
    match words {
        [] => false,
        [word, ..] => is_negative(word),
    }
}

/// Whether a number below 0 follows an option that has a list.
pub(crate) fn has_negative_list(words: &[&str]) -> bool
    ensures { result ≡ has_negative_list (map (λ s. s.now) words.now) }
{
    has_negative("--correct", words)
        || has_negative("--delays", words)
        || has_negative("--orders", words)
        || has_negative("--nodes", words)
}

/// Whether a number below 0 is among so many words that follow the option.
fn has_negative_among(option: &str, count: usize, words: &[&str]) -> bool
    ensures { result ≡ has_negative_among option.now count (map (λ s. s.now) words.now) }
{
    match words {
        [] => false,
        [word, rest @ ..] => {
            (*word == option && any_negative(count, rest))
                || has_negative_among(option, count, rest)
        }
    }
}

/// Whether a number below 0 is among the first so many words.
fn any_negative(count: usize, words: &[&str]) -> bool
    ensures { result ≡ list_any is_negative (take count (map (λ s. s.now) words.now)) }
{
    match words {
        [word, rest @ ..] if 0 < count => is_negative(word) || any_negative(count - 1, rest),
        _ => false,
    }
}

/// Whether a number below 0 is among the values of a stop or of a message's delay.
pub(crate) fn has_negative_change(words: &[&str]) -> bool
    ensures { result ≡ has_negative_change (map (λ s. s.now) words.now) }
{
    has_negative_among("--stop", 2, words) || has_negative_among("--delay", 4, words)
}
