//! The key table: one row for each key of a calibration file, in the order of the checks. The names
//! of an object, the keys' paths and the order of the checks follow from it, in code and in the
//! definitions. Lists of rows are statics: a constant is written out anew at each use, and so is
//! its proof.

ghost use Rattle.std.specs.Prelude.{◌≡◌, map};
ghost use Rattle.sgm_calib.specs.Rows.{meant};
ghost use Rattle.sgm_calib.specs.Table.{keys};

use sgm_base::{
    MAX_COUNT, MAX_FIRST, MAX_GRID_LINES, MAX_PENALTY, MAX_WINDOW_HEIGHT, MAX_WINDOW_WIDTH,
    MIN_FIRST, MIN_WINDOW_SIDE,
};
use sgm_grid::{MAX_BRIDGE, MAX_CELL, MAX_HEIGHT, MAX_PLACE};
use sgm_height::{MAX_AXIS, MAX_BASELINE, MAX_DEPTH, MAX_FOCAL, MAX_MOUNT, MAX_OFFSET, MAX_SITE};
use sgm_rectify::{
    MAX_ENTRY, MAX_NODE, MAX_NODE_COUNT, MAX_STEP, MIN_ENTRY, MIN_NODE, MIN_NODE_COUNT, MIN_STEP,
};
use sgm_report::MAX_RISE;

/// What the value of a key is, and which numbers are in range.
#[derive(Clone, Copy)]
pub enum Form {
    /// An object, whose keys are the rows that name its number as their object.
    Object,
    /// The object of the two sides' warps.
    Warps,
    /// The text that names a kind of warp.
    Kind,
    /// The text that names a region.
    Name,
    /// The text that names what a cell keeps of its points.
    Keep,
    /// A truth value.
    Truth,
    /// A list of regions.
    Regions,
    /// A whole number from the first to the second.
    Between(i64, i64),
    /// An odd whole number from the first to the second.
    Odd(i64, i64),
    /// A whole number from the one under that name in the same object to the second.
    From(&'static str, i64),
    /// A column of the grid.
    Column,
    /// A row of the grid.
    Line,
    /// A number of columns of the grid, from the one under that name in the same object on.
    ColumnsFrom(&'static str),
    /// A number of rows of the grid, from the one under that name in the same object on.
    LinesFrom(&'static str),
    /// A list of nine whole numbers, each from the first to the second.
    Matrix(i64, i64),
    /// A list of nine whole numbers, each from the first to the second, that are nearly a rotation.
    Rotation(i64, i64),
    /// A list of two whole numbers for each node of a mesh, each from the first to the second.
    Nodes(i64, i64),
    /// A list of two whole numbers for each corner of an outline, each from the first to the
    /// second.
    Corners(i64, i64),
}

/// Whether a key has to be there.
#[derive(Clone, Copy)]
pub enum Presence {
    Required,
    Optional,
    /// Required where the key of that name stands in the same object.
    With(&'static str),
    /// Required where one of the keys of those names stands in the same object.
    WithEither(&'static str, &'static str),
    /// Required by that kind of warp, and an unknown name to the others.
    OfKind(&'static str),
    /// Required from that version on, and an unknown name in the earlier ones.
    Since(u64),
    /// Optional from that version on, and an unknown name in the earlier ones.
    OptionalSince(u64),
}

/// A row of the table.
#[derive(Clone, Copy)]
pub struct Row {
    pub number: u8,
    /// The number of the object that has the key; 0 for the value itself.
    pub object: u8,
    pub name: &'static str,
    /// The name after the path of the object. Of a key of a region it is what follows the region's
    /// place.
    pub path: &'static str,
    pub form: Form,
    pub presence: Presence,
}

/// A row: its number, its object's number and path, its name, its form, and its presence where it
/// isn't required.
macro_rules! key_row {
    ($number:literal in $object:literal $path:literal $name:literal: $form:expr) => {
        key_row!($number in $object $path $name: $form, Presence::Required)
    };
    (
        $number:literal in $object:literal $path:literal $name:literal: $form:expr,
        $presence:expr
    ) => {
        Row {
            number: $number,
            object: $object,
            name: $name,
            path: concat!($path, $name),
            form: $form,
            presence: $presence,
        }
    };
}

const FIRSTS: Form = Form::Between(MIN_FIRST as i64, MAX_FIRST as i64);

const WIDTHS: Form = Form::Odd(MIN_WINDOW_SIDE as i64, MAX_WINDOW_WIDTH as i64);

const HEIGHTS: Form = Form::Odd(MIN_WINDOW_SIDE as i64, MAX_WINDOW_HEIGHT as i64);

const ENTRIES: Form = Form::Matrix(MIN_ENTRY, MAX_ENTRY);

const STEPS: Form = Form::Between(MIN_STEP as i64, MAX_STEP as i64);

const NODE_COUNTS: Form = Form::Between(MIN_NODE_COUNT as i64, MAX_NODE_COUNT as i64);

const COORDINATES: Form = Form::Nodes(MIN_NODE as i64, MAX_NODE as i64);

const OFFSETS: Form = Form::Between(-MAX_OFFSET, MAX_OFFSET);

const AXES: Form = Form::Rotation(-MAX_AXIS, MAX_AXIS);

const SHIFTS: Form = Form::Between(-MAX_SITE, MAX_SITE);

const PLACES: Form = Form::Between(-MAX_PLACE, MAX_PLACE);

const GRID_LINES: Form = Form::Between(1, MAX_GRID_LINES as i64);

const BRIDGES: Form = Form::Between(0, MAX_BRIDGE as i64);

const BASES: Form = Form::Between(-MAX_HEIGHT, MAX_HEIGHT);

const RISES: Form = Form::Between(-MAX_RISE, MAX_RISE);

const CORNERS: Form = Form::Corners(-MAX_PLACE, MAX_PLACE);

const OF_GROUND: Presence = Presence::WithEither("grid", "pose");

const OF_MATRIX: Presence = Presence::OfKind("projective");

const OF_MESH: Presence = Presence::OfKind("mesh");

pub const TOP: Row = key_row!(1 in 0 "" "top": Form::Object);

pub const VERSION: Row = key_row!(2 in 1 "" "version": Form::Between(1, 3));

pub const DISPARITIES: Row = key_row!(3 in 1 "" "disparities": Form::Object);

const FIRST: Row = key_row!(4 in 3 "disparities." "first": FIRSTS);

const COUNT: Row = key_row!(5 in 3 "disparities." "count": Form::Between(1, MAX_COUNT as i64));

pub const FINE: Row = key_row!(51 in 3 "disparities." "fine": Form::Truth, Presence::Since(3));

/// The keys of the disparities, in the order of the checks.
pub static DISPARITIES_KEYS: [Row; 3] = [FIRST, COUNT, FINE];

pub const CENSUS: Row = key_row!(6 in 1 "" "census": Form::Object);

const WIDTH: Row = key_row!(7 in 6 "census." "width": WIDTHS);

const HEIGHT: Row = key_row!(8 in 6 "census." "height": HEIGHTS);

/// The keys of the window, in the order of the checks.
pub static CENSUS_KEYS: [Row; 2] = [WIDTH, HEIGHT];

pub const PENALTIES: Row = key_row!(9 in 1 "" "penalties": Form::Object);

const P1: Row = key_row!(10 in 9 "penalties." "p1": Form::Between(1, MAX_PENALTY as i64));

const P2: Row = key_row!(11 in 9 "penalties." "p2": Form::From("p1", MAX_PENALTY as i64));

pub const ADAPT: Row = key_row!(50 in 9 "penalties." "adapt": Form::Truth, Presence::Since(2));

/// The keys of the penalties, in the order of the checks.
pub static PENALTIES_KEYS: [Row; 3] = [P1, P2, ADAPT];

pub const WARP: Row = key_row!(12 in 1 "" "warp": Form::Warps, Presence::Optional);

pub const LEFT: Row = key_row!(13 in 12 "warp." "left": Form::Object);

pub const KIND: Row = key_row!(14 in 13 "warp.left." "kind": Form::Kind);

pub const MATRIX: Row = key_row!(15 in 13 "warp.left." "matrix": ENTRIES, OF_MATRIX);

const STEP: Row = key_row!(16 in 13 "warp.left." "step": STEPS, OF_MESH);

const MESH_COLS: Row = key_row!(17 in 13 "warp.left." "cols": NODE_COUNTS, OF_MESH);

const MESH_ROWS: Row = key_row!(18 in 13 "warp.left." "rows": NODE_COUNTS, OF_MESH);

pub const NODES: Row = key_row!(19 in 13 "warp.left." "nodes": COORDINATES, OF_MESH);

/// The keys of a mesh before its nodes, in the order of the checks.
pub static SHAPE_KEYS: [Row; 3] = [STEP, MESH_COLS, MESH_ROWS];

/// The right side has the keys of the left one, seven numbers on.
const RIGHT: Row = key_row!(20 in 12 "warp." "right": Form::Object);

/// The two sides of the warps.
pub static SIDES: [Row; 2] = [LEFT, RIGHT];

const RIGHT_KIND: Row = key_row!(21 in 20 "warp.right." "kind": Form::Kind);

const RIGHT_MATRIX: Row = key_row!(22 in 20 "warp.right." "matrix": ENTRIES, OF_MATRIX);

const RIGHT_STEP: Row = key_row!(23 in 20 "warp.right." "step": STEPS, OF_MESH);

const RIGHT_COLS: Row = key_row!(24 in 20 "warp.right." "cols": NODE_COUNTS, OF_MESH);

const RIGHT_ROWS: Row = key_row!(25 in 20 "warp.right." "rows": NODE_COUNTS, OF_MESH);

const RIGHT_NODES: Row = key_row!(26 in 20 "warp.right." "nodes": COORDINATES, OF_MESH);

pub const CAMERA: Row = key_row!(27 in 1 "" "camera": Form::Object, OF_GROUND);

const FOCAL: Row = key_row!(28 in 27 "camera." "focal": Form::Between(1, MAX_FOCAL));

const BASELINE: Row = key_row!(29 in 27 "camera." "baseline": Form::Between(1, MAX_BASELINE));

const CX: Row = key_row!(30 in 27 "camera." "cx": OFFSETS);

const CY: Row = key_row!(31 in 27 "camera." "cy": OFFSETS);

const DOFFS: Row = key_row!(32 in 27 "camera." "doffs": OFFSETS);

const MOUNT: Row = key_row!(33 in 27 "camera." "mount": Form::Between(0, MAX_MOUNT));

const NEAR: Row = key_row!(34 in 27 "camera." "near": Form::Between(1, MAX_DEPTH));

const FAR: Row = key_row!(35 in 27 "camera." "far": Form::From("near", MAX_DEPTH));

/// The keys of a camera, in the order of the checks.
pub static CAMERA_KEYS: [Row; 8] = [FOCAL, BASELINE, CX, CY, DOFFS, MOUNT, NEAR, FAR];

pub const POSE: Row = key_row!(54 in 1 "" "pose": Form::Object, Presence::OptionalSince(3));

pub const POSE_MATRIX: Row = key_row!(55 in 54 "pose." "matrix": AXES);

const POSE_EAST: Row = key_row!(56 in 54 "pose." "east": SHIFTS);

const POSE_NORTH: Row = key_row!(57 in 54 "pose." "north": SHIFTS);

const POSE_UP: Row = key_row!(58 in 54 "pose." "up": SHIFTS);

/// The keys of a pose behind its matrix, in the order of the checks.
pub static SHIFT_KEYS: [Row; 3] = [POSE_EAST, POSE_NORTH, POSE_UP];

pub const GRID: Row = key_row!(36 in 1 "" "grid": Form::Object, Presence::With("regions"));

const WEST: Row = key_row!(37 in 36 "grid." "west": PLACES);

const SOUTH: Row = key_row!(38 in 36 "grid." "south": PLACES);

const CELL: Row = key_row!(39 in 36 "grid." "cell": Form::Between(1, MAX_CELL));

const GRID_COLS: Row = key_row!(40 in 36 "grid." "cols": GRID_LINES);

const GRID_ROWS: Row = key_row!(41 in 36 "grid." "rows": GRID_LINES);

pub const KEEP: Row = key_row!(52 in 36 "grid." "keep": Form::Keep, Presence::Since(3));

pub const BRIDGE: Row = key_row!(53 in 36 "grid." "bridge": BRIDGES, Presence::Since(3));

/// The keys of a grid that say where it lies and how it is cut, in the order of the checks.
pub static GRID_KEYS: [Row; 5] = [WEST, SOUTH, CELL, GRID_COLS, GRID_ROWS];

pub const REGIONS: Row = key_row!(42 in 1 "" "regions": Form::Regions, Presence::Optional);

pub const REGION: Row = key_row!(43 in 42 "" "]": Form::Object);

pub const REGION_NAME: Row = key_row!(44 in 43 "]." "name": Form::Name);

const REGION_COL: Row = key_row!(45 in 43 "]." "col": Form::Column);

const REGION_ROW: Row = key_row!(46 in 43 "]." "row": Form::Line);

const REGION_COLS: Row = key_row!(47 in 43 "]." "cols": Form::ColumnsFrom("col"));

const REGION_ROWS: Row = key_row!(48 in 43 "]." "rows": Form::LinesFrom("row"));

const REGION_BASE: Row = key_row!(49 in 43 "]." "base": BASES);

const RISE_EAST: Row = key_row!(59 in 43 "]." "rise_east": RISES, Presence::Since(3));

pub const RISE_NORTH: Row = key_row!(60 in 43 "]." "rise_north": RISES, Presence::Since(3));

pub const OUTLINE: Row = key_row!(61 in 43 "]." "outline": CORNERS, Presence::OptionalSince(3));

/// The rises of a region's base, in the order of the checks.
pub static RISE_KEYS: [Row; 2] = [RISE_EAST, RISE_NORTH];

/// The keys of a region behind its name, in the order of the checks, but for those of later
/// versions.
pub static REGION_NUMBERS: [Row; 5] = [
    REGION_COL,
    REGION_ROW,
    REGION_COLS,
    REGION_ROWS,
    REGION_BASE,
];

/// The table, in the order of the checks.
static KEYS: [Row; 61] = [
    TOP,
    VERSION,
    DISPARITIES,
    FIRST,
    COUNT,
    FINE,
    CENSUS,
    WIDTH,
    HEIGHT,
    PENALTIES,
    P1,
    P2,
    ADAPT,
    WARP,
    LEFT,
    KIND,
    MATRIX,
    STEP,
    MESH_COLS,
    MESH_ROWS,
    NODES,
    RIGHT,
    RIGHT_KIND,
    RIGHT_MATRIX,
    RIGHT_STEP,
    RIGHT_COLS,
    RIGHT_ROWS,
    RIGHT_NODES,
    CAMERA,
    FOCAL,
    BASELINE,
    CX,
    CY,
    DOFFS,
    MOUNT,
    NEAR,
    FAR,
    POSE,
    POSE_MATRIX,
    POSE_EAST,
    POSE_NORTH,
    POSE_UP,
    GRID,
    WEST,
    SOUTH,
    CELL,
    GRID_COLS,
    GRID_ROWS,
    KEEP,
    BRIDGE,
    REGIONS,
    REGION,
    REGION_NAME,
    REGION_COL,
    REGION_ROW,
    REGION_COLS,
    REGION_ROWS,
    REGION_BASE,
    RISE_EAST,
    RISE_NORTH,
    OUTLINE,
];

/// The table, which is that of the definitions.
#[tactic(auto, unfolding(crate::specs::Table::keys))]
pub fn rows() -> &'static [Row]
    ensures { map meant result.now ≡ keys }
{
    &KEYS
}
