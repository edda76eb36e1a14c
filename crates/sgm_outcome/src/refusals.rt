//! The lines of refusals.
ghost use Rattle.std.specs.Prelude.{◌≡◌, ◌≤◌, ◌+◌, ◌++◌, length, codes, decimal};
ghost use Rattle.sgm_calib.specs.Paths.{path_of};
ghost use Rattle.sgm_rectify.specs.declared.warp.WarpFault.TheVariants.{MeshSize};
ghost use Rattle.sgm_outcome.specs.Lines.{side_word, image_line, pgm_line, calib_line, warp_line};
ghost use Rattle.sgm_outcome.specs.Lines.{sizes_line};
ghost use Rattle.sgm_outcome.specs.Lines.{input_line, asc_line, list_line, refusal_line};
ghost use Rattle.sgm_words.specs.Files.{input_name};

use crate::Refusal;
use sgm_base::{MAX_VOLUME, Side, Size};
use sgm_calib::{CalibFault, Key};
use sgm_grid::AscFault;
use sgm_list::NamesFault;
use sgm_pgm::PgmFault;
use sgm_rectify::WarpFault;
use sgm_text::Line;
use sgm_words::Input;

fn side_word(side: Side) -> &'static str
    ensures word { result.now ≡ side_word side }
    ensures short { length result.now ≤ 5 }
{
    match side {
        Side::Left => "left",
        Side::Right => "right",
    }
}

// What is wrong with the image of a side.
fn image_line(side: Side, what: &str) -> Line
    requires { length what.now ≤ 64 }
    ensures bytes { result ≡ image_line side what.now }
    ensures short { length result ≤ 10 + length what.now }
{
    Line::new().text("sgm: ").text(side_word(side)).text(what)
}

fn pgm_line(side: Side, fault: PgmFault) -> Line
    ensures { result ≡ pgm_line side fault }
{
    match fault {
        PgmFault::NotPgm => image_line(side, ": not a binary PGM\n"),
        PgmFault::HeaderShort => image_line(side, ": header ends early\n"),
        PgmFault::HeaderByte { at } => image_line(side, ": unexpected byte at ")
            .number(at as u64)
            .text("\n"),
        PgmFault::SizeRange => image_line(side, ": size out of range\n"),
        PgmFault::MaxvalRange => image_line(side, ": maxval out of range\n"),
        PgmFault::RasterShort { have, need } => image_line(side, ": raster has ")
            .number(have as u64)
            .text(" of ")
            .number(need as u64)
            .text(" bytes\n"),
        PgmFault::SampleAbove { index } => image_line(side, ": sample ")
            .number(index as u64)
            .text(" is above maxval\n"),
    }
}

// The line with the path of a key more.
fn with_path(line: Line, key: Key) -> Line
    requires { length line ≤ 64 }
    ensures bytes { result ≡ line ++ path_of key }
    ensures short { length result ≤ length line + 100 }
{
    let line = line.text(key.front());
    if key.has_index() {
        line.number(key.index as u64).text(key.back())
    } else {
        line
    }
}

// What is wrong with a key of the calibration.
fn key_line(key: Key, what: &str) -> Line
    requires { length what.now ≤ 64 }
    ensures { result ≡ codes "sgm: calibration: " ++ path_of key ++ what.now }
{
    with_path(Line::new().text("sgm: calibration: "), key).text(what)
}

fn calib_line(fault: CalibFault) -> Line
    ensures { result ≡ calib_line fault }
{
    match fault {
        CalibFault::Json => Line::new().text("sgm: calibration: not JSON\n"),
        CalibFault::Version => Line::new().text("sgm: calibration: unknown version\n"),
        CalibFault::Missing(key) => key_line(key, " is missing\n"),
        CalibFault::Unknown(key) => key_line(key, " has an unknown name\n"),
        CalibFault::Type_(key) => key_line(key, " has the wrong type\n"),
        CalibFault::Range(key) => key_line(key, " is out of range\n"),
    }
}

// The mesh of a side has so many columns and rows, and its image needs so many.
fn mesh_line(side: Side, have: (u32, u32), need: (u32, u32)) -> Line
    ensures { result ≡ warp_line side (MeshSize have.0 have.1 need.0 need.1) }
{
    image_line(side, " warp: mesh is ")
        .number(have.0 as u64)
        .text("x")
        .number(have.1 as u64)
        .text(", ")
        .number(need.0 as u64)
        .text("x")
        .number(need.1 as u64)
        .text(" needed\n")
}

fn warp_line(side: Side, fault: WarpFault) -> Line
    ensures { result ≡ warp_line side fault }
{
    match fault {
        WarpFault::Denominator { corner } => {
            image_line(side, " warp: denominator not positive at corner ")
                .number(corner as u64)
                .text("\n")
        }
        WarpFault::MeshSize {
            cols,
            rows,
            need_cols,
            need_rows,
        } => mesh_line(side, (cols, rows), (need_cols, need_rows)),
    }
}

fn sizes_line(left: Size, right: Size) -> Line
    ensures { result ≡ sizes_line left right }
{
    Line::new()
        .text("sgm: sizes differ: ")
        .number(left.width as u64)
        .text("x")
        .number(left.height as u64)
        .text(" and ")
        .number(right.width as u64)
        .text("x")
        .number(right.height as u64)
        .text("\n")
}

fn volume_line(cells: u64) -> Line
    ensures { result ≡ codes "sgm: volume of " ++ decimal cells ++ codes " cells is above "
        ++ decimal MAX_VOLUME ++ codes "\n" }
{
    Line::new()
        .text("sgm: volume of ")
        .number(cells)
        .text(" cells is above ")
        .number(MAX_VOLUME)
        .text("\n")
}

// The line, and behind it what the input is called.
pub fn with_input(line: Line, input: Input) -> Line
    requires { length line ≤ 64 }
    ensures bytes { result ≡ line ++ input_name input }
    ensures short { length result ≤ length line + 32 }
{
    let line = line.text(input.word());
    match input.number() {
        Some(number) => line.text(" ").number(number as u64),
        None => line,
    }
}

// What is wrong with an input.
fn input_line(input: Input, what: &str) -> Line
    requires { length what.now ≤ 40 }
    ensures bytes { result ≡ input_line input what.now }
    ensures short { length result ≤ 40 + length what.now }
{
    with_input(Line::new().text("sgm: "), input).text(what)
}

fn list_line(fault: NamesFault) -> Line
    ensures { result ≡ list_line fault }
{
    let line = Line::new().text("sgm: list: ");
    match fault {
        NamesFault::NotText => line.text("not text\n"),
        NamesFault::Line { number } => line
            .text("line ")
            .number(number as u64)
            .text(" does not have one word\n"),
        NamesFault::NoEntries => line.text("no entries\n"),
        NamesFault::TooMany => line.text("too many entries\n"),
        NamesFault::Output { entry } => line
            .text("grid ")
            .number(entry as u64)
            .text(" is also an output\n"),
    }
}

fn asc_line(input: Input, fault: AscFault) -> Line
    ensures { result ≡ asc_line input fault }
{
    match fault {
        AscFault::Word { at } => input_line(input, ": word ")
            .number(at as u64)
            .text(" is not as expected\n"),
        AscFault::Range { at } => input_line(input, ": word ")
            .number(at as u64)
            .text(" is out of range\n"),
        AscFault::Count { have, need } => input_line(input, ": ")
            .number(have as u64)
            .text(" heights, ")
            .number(need as u64)
            .text(" needed\n"),
        AscFault::Height { index } => input_line(input, ": height ")
            .number(index as u64)
            .text(" is not in range\n"),
    }
}

fn inside_line(x: u32, y: u32, d: u32) -> Line
    ensures { result ≡ codes "sgm: no pixel " ++ decimal x ++ codes " " ++ decimal y
        ++ codes " with index " ++ decimal d ++ codes "\n" }
{
    Line::new()
        .text("sgm: no pixel ")
        .number(x as u64)
        .text(" ")
        .number(y as u64)
        .text(" with index ")
        .number(d as u64)
        .text("\n")
}

/// The line of a refusal.
pub fn refusal_line(refusal: Refusal) -> Line
    ensures { result ≡ refusal_line refusal }
{
    match refusal {
        Refusal::TooLong(input) => input_line(input, " is too long\n"),
        Refusal::Pgm(side, fault) => pgm_line(side, fault),
        Refusal::Calib(fault) => calib_line(fault),
        Refusal::SizesDiffer { left, right } => sizes_line(left, right),
        Refusal::VolumeTooLarge { cells } => volume_line(cells),
        Refusal::Warp(side, fault) => warp_line(side, fault),
        Refusal::NotInside { x, y, d } => inside_line(x, y, d),
        Refusal::Asc(input, fault) => asc_line(input, fault),
        Refusal::GridsDiffer { at, .. } => Line::new()
            .text("sgm: grids differ at word ")
            .number(at as u64)
            .text("\n"),
        Refusal::List(fault) => list_line(fault),
        Refusal::NotOnCells { grid } => {
            input_line(Input::Grid(grid), ": not on the calibration's cells\n")
        }
    }
}
