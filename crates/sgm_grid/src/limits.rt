//! The limits of a grid, each named once for code and contracts.

/// How far the west and the south side lie from 0 at most, in micrometres.
pub const MAX_PLACE: i64 = 2_000_000_000;

/// The greatest side of a cell, in micrometres.
pub const MAX_CELL: i64 = 1_000_000_000;

/// How far a height lies from 0 at most, in micrometres.
pub const MAX_HEIGHT: i64 = 2_000_000_000;

/// What stands for an empty cell in a grid's text.
pub const NO_HEIGHT: i64 = -2_147_483_648;

/// Over how many cells to each side heights are bridged at most.
pub const MAX_BRIDGE: u32 = 8;
