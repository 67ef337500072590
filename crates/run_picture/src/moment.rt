//! When something happened.

/// An event: its place in the trace, from 0, and where it's drawn, in half columns from the left.
#[derive(Clone, Copy, PartialEq, Eq, Debug)]
pub(crate) struct Moment {
    pub place: usize,
    pub at: u32,
}
