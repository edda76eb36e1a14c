//! The worked example, of which the tests of several crates take what they need: a pair of 5 x 3
//! pixels and its calibration. The same calibration is a file of `sgm_cli`, where the tests outside
//! the crates take it.
#![tactic(auto)]

/// The left image as PGM: three times the row 90 10 50 20 40.
pub const LEFT: &[u8] =
    b"P5\n5 3\n255\n\x5a\x0a\x32\x14\x28\x5a\x0a\x32\x14\x28\x5a\x0a\x32\x14\x28";

/// The right image as PGM: three times the row 10 50 20 40 30.
pub const RIGHT: &[u8] =
    b"P5\n5 3\n255\n\x0a\x32\x14\x28\x1e\x0a\x32\x14\x28\x1e\x0a\x32\x14\x28\x1e";

/// What the calibration begins with: what has to stand in each. The other parts follow in the order
/// of these constants, each of the first three or none, and then [`END`].
pub const SETTINGS: &str =
    "{\"version\":1,\"disparities\":{\"first\":0,\"count\":2},\n \"census\":{\"width\":3,\"height\":3},\"penalties\":{\"p1\":1,\"p2\":3}";

pub const CAMERA: &str =
    ",\n \"camera\":{\"focal\":25600,\"baseline\":1000,\"cx\":0,\"cy\":0,\"doffs\":0,\n           \"mount\":150000,\"near\":1,\"far\":1000000}";

pub const GRID: &str =
    ",\n \"grid\":{\"west\":2000,\"south\":-2000,\"cell\":1000,\"cols\":4,\"rows\":3}";

pub const REGIONS: &str =
    ",\n \"regions\":[{\"name\":\"all\",\"col\":0,\"row\":0,\"cols\":4,\"rows\":3,\"base\":40000},\n            {\"name\":\"east\",\"col\":3,\"row\":0,\"cols\":1,\"rows\":1,\"base\":60000}]";

pub const END: &str = "}\n";

/// The whole calibration.
pub const CALIBRATION: [&str; 5] = [SETTINGS, CAMERA, GRID, REGIONS, END];
