//! The kinds of text that have the header of a schedule.

/// What a text is of, by what follows the header: events, a pace and stops, or nothing.
#[derive(Clone, Copy)]
pub enum Kind {
    Schedule,
    Threads,
    Header,
}
