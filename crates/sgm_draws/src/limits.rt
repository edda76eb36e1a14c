//! Limits.

/// The most numbers that are drawn.
pub const MAX_NUMBERS: u32 = 8;

/// The most tickets that draw them.
pub const MAX_TICKETS: u32 = 2;
