//! The limits of the tool, each named once for code, contracts and definitions.

/// The greatest width and height of an image, in pixels.
pub const MAX_SIDE: u32 = 4096;

/// The greatest number of disparities that are tried.
pub const MAX_COUNT: u32 = 256;

/// The least first disparity, in pixels.
pub const MIN_FIRST: i32 = -1024;

/// The greatest first disparity, in pixels.
pub const MAX_FIRST: i32 = 1024;

/// The greatest number of cells of a volume: width * height * count.
pub const MAX_VOLUME: u64 = 268_435_456;

/// The least width and height of a census window, in pixels. Both are odd.
pub const MIN_WINDOW_SIDE: u32 = 3;

/// The greatest width of a census window, in pixels.
pub const MAX_WINDOW_WIDTH: u32 = 9;

/// The greatest height of a census window, in pixels.
pub const MAX_WINDOW_HEIGHT: u32 = 7;

/// The greatest cost of an index at a pixel: the pixels of the greatest window beside its centre.
pub const MAX_COST: u8 = 62;

/// The greatest penalty of a change of the index.
pub const MAX_PENALTY: u16 = 4000;

/// The greatest path value: the greatest cost and the greatest penalty together.
pub const MAX_PATH_VALUE: u16 = 4062;

/// The greatest sum of the path values of a pixel over the eight directions.
pub const MAX_SUM: u16 = 32_496;

/// The greatest value of a disparity map, in sixteenths: that of the last index.
pub const MAX_DISPARITY: u16 = 4080;

/// The greatest number of pixels that a segment may be asked to have: those of the greatest image.
pub const MAX_PEAK: u32 = 16_777_216;

/// The greatest number of strips that an image is cut into.
pub const MAX_STRIPS: u32 = 64;

/// The greatest number of workers.
pub const MAX_WORKERS: u32 = 16;

/// The greatest number of columns and of rows of a grid.
pub const MAX_GRID_LINES: u32 = 4096;

/// The greatest number of regions of a grid.
pub const MAX_REGIONS: usize = 1000;

/// The greatest length of an image file, in bytes.
pub const MAX_IMAGE_BYTES: usize = 67_108_864;

/// The greatest length of a calibration file, in bytes.
pub const MAX_CALIB_BYTES: usize = 16_777_216;

/// The greatest length of a grid's file, in bytes.
pub const MAX_GRID_BYTES: usize = 268_435_456;

/// The greatest length of a list, in bytes.
pub const MAX_LIST_BYTES: usize = 1_048_576;

const _: () = prove!(MAX_COST as u32 == MAX_WINDOW_WIDTH * MAX_WINDOW_HEIGHT - 1);

const _: () = prove!(MAX_PATH_VALUE == MAX_COST as u16 + MAX_PENALTY);

const _: () = prove!(MAX_SUM == 8 * MAX_PATH_VALUE);

const _: () = prove!(MAX_DISPARITY as u32 == 16 * (MAX_COUNT - 1));
