//! The language's limits, as `specs/Limits.antt` has them.

/// How many values there are at most.
pub(crate) const MAX_VALUES: u64 = 64;

/// How many rounds a period has at most.
pub(crate) const MAX_PERIOD: u64 = 8;

/// How many variables a program has at most.
pub(crate) const MAX_VARIABLES: usize = 16;

/// How many fields a block has at most.
pub(crate) const MAX_FIELDS: usize = 8;

/// How deep an expression nests at most.
pub(crate) const MAX_NESTING: usize = 32;

/// How many bytes a text has at most.
pub const MAX_TEXT: usize = 65_536;

/// How many bytes a name has at most.
pub(crate) const MAX_NAME: usize = 32;

/// The largest number of the language.
pub(crate) const MAX_NUMBER: u64 = 4_294_967_295;
