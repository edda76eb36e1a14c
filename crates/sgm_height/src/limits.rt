//! The limits of a camera, each named once for code and contracts.

/// The greatest focal length, in 1/256 of a pixel.
pub const MAX_FOCAL: i64 = 16_777_216;

/// The greatest distance between the two cameras, in micrometres.
pub const MAX_BASELINE: i64 = 2_000_000_000;

/// How far from 0 the centre and the offset of the disparities lie at most, in 1/256 of a pixel.
pub const MAX_OFFSET: i64 = 16_777_216;

/// The greatest height of a camera over the datum, in micrometres.
pub const MAX_MOUNT: i64 = 2_000_000_000;

/// The greatest depth, in micrometres.
pub const MAX_DEPTH: i64 = 2_000_000_000;

/// How far east, north and up of the site's point a camera's own point lies at most, and how high
/// or low a point in the frame of the site, in micrometres.
pub const MAX_SITE: i64 = 2_000_000_000;

/// The greatest number of an axis, in 1/2^30.
pub const MAX_AXIS: i64 = 1_073_741_824;
