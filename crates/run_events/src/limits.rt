//! How large a run may be.

/// The most nodes of a run, which has at least one.
pub const MAX_NODES: u32 = 16;

/// The last round. The first is round 1.
pub const MAX_ROUNDS: u32 = 4096;

/// The greatest number of a copy: a message has at most four, counted from 0.
pub const MAX_COPY: u32 = 3;

/// The largest bound Δ on the delay, in steps, if it is known; the least is one.
pub const MAX_DELTA: u32 = 1024;
