//! Why a text is no program.

use std::fmt;
use thiserror::Error;

/// Where a token stands: the offset of its first byte, and the offset after its last.
#[derive(Clone, Copy, PartialEq, Eq, Debug)]
pub struct Span {
    pub first: usize,
    pub after: usize,
}

/// The offsets as `first..after`.
impl fmt::Display for Span {
    fn fmt<W: fmt::Write>(&self, f: &mut fmt::Formatter<W>) -> fmt::Result {
        write!(f, "{}..{}", self.first, self.after)
    }
}

/// Why a text is no program.
#[derive(Clone, Copy, PartialEq, Eq, Debug, Error)]
pub enum LangFault {
    /// A character that begins no token.
    #[error("the text at {0} begins no token")]
    BadToken(Span),
    /// The first token with which no program's tokens go on.
    #[error("no program goes on with the token at {0}")]
    Unexpected(Span),
    /// An expression nests more than 32 deep.
    #[error("an expression nests more than 32 deep")]
    TooDeep,
    /// The text has more than 65,536 bytes.
    #[error("the text has more than 65,536 bytes")]
    TooLong,
    /// A number or a name beyond its limit.
    #[error("the number, name or list at {0} passes its limit")]
    LimitPassed(Span),
    #[error("out of memory")]
    NoMemory,
}
