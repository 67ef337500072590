//! What comes next among the tokens.
ghost use Rattle.std.specs.Prelude.{◌≡◌, ◌≤◌, IfOk, IfSome, length, option_map};
ghost use Rattle.round_lang.specs.CodeTokens.{lexemes};
ghost use Rattle.round_lang.specs.Outcome.{Gives, left_of, name_found, operator_found, rest_of};
ghost use Rattle.round_lang.specs.Reading as reading;
ghost use Rattle.round_lang.specs.Grammar as grammar;

use crate::expr::{BinaryOperator, Ty};
use crate::fault::Span;
use crate::limits::{MAX_NAME, MAX_NUMBER};
use crate::name::Name;
use crate::parsing::fault::Fault;
use crate::parsing::level::{Level, is_level, level_of};
use crate::token::{Mark, Token, Word, is_mark};

/// Where the next token stands, or where the text ends.
pub(crate) fn span_at(end: usize, tokens: &[Token<'_>]) -> Span {
    match tokens {
        [first, ..] => first.span,
        [] => Span {
            first: end,
            after: end,
        },
    }
}

/// The tokens after this mark, if it comes next.
#[tactic(auto, unfolding(crate::specs::Reading::after))]
pub(crate) fn after<'t, 'a>(mark: Mark, tokens: &'t [Token<'a>]) -> Option<&'t [Token<'a>]>
    ensures after { option_map rest_of result ≡ reading.after mark (lexemes tokens.now) }
    ensures fewer { IfSome result (λ rest. length rest.now ≤ length tokens.now) }
{
    match tokens {
        [first, rest @ ..] => match first.word {
            Word::Mark(found) => {
                if is_mark(found, mark) {
                    Some(rest)
                } else {
                    None
                }
            }
            _ => None,
        },
        [] => None,
    }
}

/// The tokens after this mark, which has to come next.
pub(crate) fn expect<'t, 'a>(
    end: usize,
    mark: Mark,
    tokens: &'t [Token<'a>],
) -> Result<&'t [Token<'a>], Fault>
    ensures gives { Gives rest_of result (reading.after mark (lexemes tokens.now)) }
    ensures fewer { IfOk result (λ rest. length rest.now ≤ length tokens.now) }
{
    match after(mark, tokens) {
        Some(rest) => Ok(rest),
        None => Err(Fault::Unexpected(span_at(end, tokens))),
    }
}

/// The tokens after the `=` that has to come next.
#[tactic(auto, unfolding(crate::specs::Reading::after_equal))]
pub(crate) fn expect_equal<'t, 'a>(
    end: usize,
    tokens: &'t [Token<'a>],
) -> Result<&'t [Token<'a>], Fault>
    ensures gives { Gives rest_of result (reading.after_equal (lexemes tokens.now)) }
    ensures fewer { IfOk result (λ rest. length rest.now ≤ length tokens.now) }
{
    match tokens {
        [first, rest @ ..] => match first.word {
            Word::Infix(BinaryOperator::Equal) => Ok(rest),
            _ => Err(Fault::Unexpected(first.span)),
        },
        [] => Err(Fault::Unexpected(span_at(end, tokens))),
    }
}

/// The name that has to come next.
#[tactic(auto, unfolding(crate::specs::Reading::name_at))]
pub(crate) fn name_at<'t, 'a>(
    end: usize,
    tokens: &'t [Token<'a>],
) -> Result<(Name<'a>, &'t [Token<'a>]), Fault>
    ensures gives { Gives name_found result (reading.name_at (lexemes tokens.now)) }
    ensures fewer { IfOk result (λ x. length x.1.now ≤ length tokens.now) }
    ensures short { IfOk result (λ x. length x.0.text.now ≤ MAX_NAME) }
{
    match tokens {
        [first, rest @ ..] => match first.word {
            Word::Name(name) => {
                if name.text.len() <= MAX_NAME {
                    Ok((name, rest))
                } else {
                    Err(Fault::LimitPassed(first.span))
                }
            }
            _ => Err(Fault::Unexpected(first.span)),
        },
        [] => Err(Fault::Unexpected(span_at(end, tokens))),
    }
}

/// The type that has to come next.
#[tactic(auto, unfolding(crate::specs::Reading::type_at))]
pub(crate) fn type_at<'t, 'a>(
    end: usize,
    tokens: &'t [Token<'a>],
) -> Result<(Ty, &'t [Token<'a>]), Fault>
    ensures gives { Gives left_of result (reading.type_at (lexemes tokens.now)) }
    ensures fewer { IfOk result (λ x. length x.1.now ≤ length tokens.now) }
{
    match tokens {
        [first, rest @ ..] => match first.word {
            Word::Kind(ty) => Ok((ty, rest)),
            _ => Err(Fault::Unexpected(first.span)),
        },
        [] => Err(Fault::Unexpected(span_at(end, tokens))),
    }
}

/// The value of digits, if each above the largest number counts as the next one.
#[tactic(auto, unfolding(crate::specs::Reading::capped_value))]
pub(crate) fn value_of(digits: &[u8]) -> u64
    ensures { result ≡ reading.capped_value digits.now }
{
    digits.iter().fold(0u64, |n, b| {
        (10 * n.min(MAX_NUMBER + 1) + u64::from(b.saturating_sub(b'0'))).min(MAX_NUMBER + 1)
    })
}

/// The number that these digits are, within its limits.
fn value_within(span: Span, least: u64, most: u64, digits: &[u8]) -> Result<u32, Fault>
    requires first { least ≤ MAX_NUMBER }
    requires last { most ≤ MAX_NUMBER }
    ensures { Gives (λ v. v) result (reading.value_within least most digits.now) }
{
    let value = value_of(digits);
    if value < least {
        return Err(Fault::LimitPassed(span));
    }
    if most < value {
        return Err(Fault::LimitPassed(span));
    }
    Ok(value as u32)
}

/// The number that has to come next, within its limits.
#[tactic(auto, unfolding(crate::specs::Reading::number_at))]
pub(crate) fn number_at<'t, 'a>(
    end: usize,
    least: u64,
    most: u64,
    tokens: &'t [Token<'a>],
) -> Result<(u32, &'t [Token<'a>]), Fault>
    requires first { least ≤ MAX_NUMBER }
    requires last { most ≤ MAX_NUMBER }
    ensures gives { Gives left_of result (reading.number_at least most (lexemes tokens.now)) }
    ensures fewer { IfOk result (λ x. length x.1.now ≤ length tokens.now) }
{
    match tokens {
        [first, rest @ ..] => match first.word {
            Word::Number(digits) => Ok((value_within(first.span, least, most, digits)?, rest)),
            _ => Err(Fault::Unexpected(first.span)),
        },
        [] => Err(Fault::Unexpected(span_at(end, tokens))),
    }
}

/// An operator of the level, if one comes next, and the tokens after it.
#[tactic(auto, unfolding(crate::specs::Reading::operator_at))]
pub(crate) fn operator_at<'t, 'a>(
    level: Level,
    tokens: &'t [Token<'a>],
) -> Option<(BinaryOperator, &'t [Token<'a>])>
    ensures { option_map operator_found result ≡ reading.operator_at level (lexemes tokens.now) }
{
    match tokens {
        [first, rest @ ..] => match first.word {
            Word::Infix(operator) => match level_of(operator) {
                Some(found) => {
                    if is_level(found, level) {
                        Some((operator, rest))
                    } else {
                        None
                    }
                }
                None => None,
            },
            _ => None,
        },
        [] => None,
    }
}

/// Whether this mark comes next.
#[tactic(auto, unfolding(crate::specs::Reading::begins_with))]
pub(crate) fn begins_with(mark: Mark, tokens: &[Token<'_>]) -> bool
    ensures { result ≡ reading.begins_with mark (lexemes tokens.now) }
{
    match tokens {
        [first, ..] => match first.word {
            Word::Mark(found) => is_mark(found, mark),
            _ => false,
        },
        [] => false,
    }
}

/// Whether a name comes next.
#[tactic(auto, unfolding(crate::specs::Reading::begins_name))]
pub(crate) fn begins_name(tokens: &[Token<'_>]) -> bool
    ensures { result ≡ reading.begins_name (lexemes tokens.now) }
{
    match tokens {
        [first, ..] => match first.word {
            Word::Name(_) => true,
            _ => false,
        },
        [] => false,
    }
}
