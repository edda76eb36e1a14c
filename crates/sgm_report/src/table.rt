ghost use Rattle.std.specs.Prelude.{◌≡◌, ◌+◌, ◌<◌, ◌≤◌, ◌++◌, IfOk, OnOk, OnErr, All, length};
ghost use Rattle.csv.specs.Writing.{default_writer, fields_written, writer_setup};
ghost use Rattle.sgm_report.specs.Areas.{IsRegionName};
ghost use Rattle.sgm_report.specs.Table.{bridged_field, end_field, fields_line, head_line};
ghost use Rattle.sgm_report.specs.Table.{region_fields, table_text};
ghost use Rattle.sgm_report.specs.Writers.{IsPlain, IsBetweenRows, later_fields, next_field};
ghost use Rattle.sgm_report.specs.Writers.{text_of};

use crate::{Region, RegionTally};
use csv::{Error, Writer, WriterBuilder};
use itoa::Buffer;
use std::alloc::{AllocError, Global};

/// The columns of the table of the regions.
#[derive(Clone, Copy, Debug, PartialEq, Eq)]
pub enum Columns {
    /// `region,cells,empty,fill,cut,lowest,highest`.
    Plain,
    /// The same with `bridged` behind `cells`.
    Bridged,
}

/// Adds the table of the regions: a line that names the columns, then a line for each region in
/// order, with commas between the fields. The lowest and the highest height are left empty where no
/// cell has one. `into` is unchanged on Err.
pub fn write_report(
    regions: &[Region],
    tallies: &[RegionTally],
    columns: Columns,
    into: &mut Vec<u8>,
) -> Result<(), AllocError>
    requires lengths { length tallies.now ≡ length regions.now }
    requires names { All (λ area. IsRegionName area.name) regions.now }
    ensures ok { OnOk result
        (into.new.items ≡ into.old.items ++ table_text columns regions.now tallies.now) }
    ensures err { OnErr result (into.new.items ≡ into.old.items) }
{
    let text = table_of(*into.allocator(), regions, tallies, columns)?;
    into.extend_from_slice(&text)
}

/// The table as a text of its own.
fn table_of(
    alloc: Global,
    regions: &[Region],
    tallies: &[RegionTally],
    columns: Columns,
) -> Result<Vec<u8>, AllocError>
    requires lengths { length tallies.now ≡ length regions.now }
    requires names { All (λ area. IsRegionName area.name) regions.now }
    ensures { IfOk result (λ text. text.items ≡ table_text columns regions.now tallies.now) }
{
    // A writer into a vector fails only where there is no memory, since each row has as many fields
    // as the head.
    let mut writer = WriterBuilder::new().from_writer(Vec::new(alloc));
    if write_rows(&mut writer, regions, tallies, columns).is_err() {
        return Err(AllocError);
    }
    match writer.into_inner() {
        Ok(text) => Ok(text),
        Err(_) => Err(AllocError),
    }
}

/// Writes the head, and a row for each region.
fn write_rows(
    writer: &mut Writer<Vec<u8>>,
    regions: &[Region],
    tallies: &[RegionTally],
    columns: Columns,
) -> Result<(), Error>
    requires writer { IsBetweenRows writer.old }
    requires lengths { length tallies.now ≡ length regions.now }
    requires names { All (λ area. IsRegionName area.name) regions.now }
    ensures { OnOk result
        (text_of writer.new ≡ text_of writer.old ++ table_text columns regions.now tallies.now) }
{
    write_head(writer, columns)?;
    for (region, tally) in regions.iter().zip(tallies) {
        write_region(writer, columns, region, *tally)?;
    }
    Ok(())
}

/// Writes the names of the columns.
fn write_head(writer: &mut Writer<Vec<u8>>, columns: Columns) -> Result<(), Error>
    requires { IsBetweenRows writer.old }
    ensures writer { OnOk result (IsBetweenRows writer.new) }
    ensures text { OnOk result (text_of writer.new ≡ text_of writer.old ++ head_line columns) }
{
    match columns {
        Columns::Plain => writer.write_fields(&[
            b"region", b"cells", b"empty", b"fill", b"cut", b"lowest", b"highest",
        ]),
        Columns::Bridged => writer.write_fields(&[
            b"region", b"cells", b"bridged", b"empty", b"fill", b"cut", b"lowest", b"highest",
        ]),
    }
}

/// Writes a region's row.
fn write_region(
    writer: &mut Writer<Vec<u8>>,
    columns: Columns,
    region: &Region,
    tally: RegionTally,
) -> Result<(), Error>
    requires writer { IsBetweenRows writer.old }
    requires name { IsRegionName region.now.name }
    ensures writer { OnOk result (IsBetweenRows writer.new) }
    ensures text { OnOk result
        (text_of writer.new
        ≡ text_of writer.old ++ fields_line (region_fields columns region.now tally)) }
{
    let mut digits = Buffer::new();
    write_field(writer, region.name.as_bytes())?;
    write_field(writer, digits.format(tally.cells).as_bytes())?;
    write_bridged(writer, columns, tally)?;
    write_field(writer, digits.format(tally.empty).as_bytes())?;
    write_field(writer, digits.format(tally.fill).as_bytes())?;
    write_field(writer, digits.format(tally.cut).as_bytes())?;
    write_field(writer, end_text(tally.cells, tally.lowest, &mut digits))?;
    write_field(writer, end_text(tally.cells, tally.highest, &mut digits))?;
    writer.end_record()
}

/// Writes the field of the bridged cells where there is a column for it, after those that the row
/// has.
fn write_bridged(
    writer: &mut Writer<Vec<u8>>,
    columns: Columns,
    tally: RegionTally,
) -> Result<(), Error>
    requires setup { writer_setup writer.old ≡ default_writer }
    requires begun { 1 ≤ fields_written writer.old }
    requires short { fields_written writer.old < 8 }
    ensures setup { OnOk result (writer_setup writer.new ≡ default_writer) }
    ensures count { OnOk result
        (fields_written writer.new
        ≡ fields_written writer.old + length (bridged_field columns tally)) }
    ensures text { OnOk result
        (text_of writer.new ≡ text_of writer.old ++ later_fields (bridged_field columns tally)) }
{
    match columns {
        Columns::Plain => Ok(()),
        Columns::Bridged => {
            let mut digits = Buffer::new();
            write_field(writer, digits.format(tally.bridged).as_bytes())
        }
    }
}

/// Writes a field of a row, after those that it has.
fn write_field(writer: &mut Writer<Vec<u8>>, field: &[u8]) -> Result<(), Error>
    requires setup { writer_setup writer.old ≡ default_writer }
    requires short { fields_written writer.old < 8 }
    requires plain { IsPlain field.now }
    ensures setup { OnOk result (writer_setup writer.new ≡ default_writer) }
    ensures count { OnOk result (fields_written writer.new ≡ fields_written writer.old + 1) }
    ensures text { OnOk result
        (text_of writer.new
        ≡ text_of writer.old ++ next_field (fields_written writer.old) field.now) }
{
    writer.write_field(field)
}

/// The lowest or highest of that many cells, or nothing where there are none.
fn end_text(cells: u64, height: Option<i32>, digits: &mut Buffer) -> &[u8]
    ensures value { result.now ≡ end_field cells height }
    ensures plain { IsPlain result.now }
{
    match height {
        Some(height) if cells > 0 => digits.format(height).as_bytes(),
        _ => b"",
    }
}
