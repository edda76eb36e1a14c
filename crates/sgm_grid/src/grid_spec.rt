/// Where a grid lies and how it is cut into square cells. Lengths are in micrometres.
#[derive(Clone, Copy, Debug, PartialEq, Eq)]
pub struct GridSpec {
    /// The west side, within 2000000000 of 0.
    pub west: i64,
    /// The south side, within 2000000000 of 0.
    pub south: i64,
    /// The side of a cell, from 1 to 1000000000.
    pub cell: i64,
    /// The number of columns, from 1 to 4096.
    pub cols: u32,
    /// The number of rows, from 1 to 4096.
    pub rows: u32,
}
