//! Where a text nests too deep.
use command_runs::Refusal;
use round_lang::{LangFault, Span, Token, parse, parse_formula, tokens};
use std::alloc::Global;

/// What a text is read as.
#[derive(Clone, Copy, PartialEq, Eq, Debug)]
pub(crate) enum Reading {
    Program,
    Expression,
}

impl Reading {
    /// Whether the text is refused for nesting too deep.
    fn nests_too_deep(self, alloc: Global, text: &str) -> Result<bool, Refusal> {
        let fault = match self {
            Reading::Program => parse(alloc, text).err(),
            Reading::Expression => parse_formula(alloc, text).err(),
        };
        match fault {
            Some(LangFault::NoMemory) => Err(Refusal::NoMemory),
            Some(LangFault::TooDeep) => Ok(true),
            _ => Ok(false),
        }
    }
}

/// How often a text's tokens can be halved: it has 65,536 bytes at most.
const HALVINGS: u32 = 17;

/// The token with which a text begins to nest too deep: the last one of the least number of tokens
/// from its beginning that are refused for that.
pub(crate) fn too_deep_at(
    alloc: Global,
    text: &str,
    reading: Reading,
) -> Result<Option<Span>, Refusal> {
    let Ok(tokens) = tokens(alloc, text.as_bytes()) else {
        return Ok(None);
    };
    let tokens = tokens.as_slice();
    // The first `low` tokens don't nest too deep, and the first `high` do.
    let mut low: usize = 0;
    let mut high = tokens.len();
    for _halving in 0..HALVINGS {
        let middle = high.saturating_add(low) / 2;
        if middle == low {
            break;
        }
        if reading.nests_too_deep(alloc, beginning(text, tokens, middle))? {
            high = middle;
        } else {
            low = middle;
        }
    }
    match tokens.get(high.saturating_sub(1)) {
        Some(token) => Ok(Some(token.span)),
        None => Ok(None),
    }
}

/// The text up to the end of so many tokens.
fn beginning<'a>(text: &'a str, tokens: &[Token<'_>], count: usize) -> &'a str {
    let end = match tokens.get(count.saturating_sub(1)) {
        Some(token) => token.span.after,
        None => 0,
    };
    text.get(..end).unwrap_or("")
}
