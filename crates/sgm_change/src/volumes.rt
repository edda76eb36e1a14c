ghost use Rattle.std.specs.Prelude.{◌≡◌, ◌++◌, OnOk, OnErr, IfOk, map, codes, decimal};
ghost use Rattle.sgm_text.specs.Texts.{line};
ghost use Rattle.sgm_report.specs.Table.{fields_line};
ghost use Rattle.sgm_report.specs.Writers.{IsBetweenRows, text_of};
ghost use Rattle.sgm_change.specs.Texts.{volumes_of, volumes_text};

use crate::Changed;
use csv::{Error, Writer, WriterBuilder};
use itoa::Buffer;
use std::alloc::{AllocError, Global};

/// Adds a line with the names of the counts and volumes, then a line with their numbers, with
/// commas between the fields. `into` is unchanged on Err.
pub fn write_volumes(changed: &Changed, into: &mut Vec<u8>) -> Result<(), AllocError>
    ensures ok { OnOk result (into.new.items ≡ into.old.items ++ volumes_text changed.now) }
    ensures err { OnErr result (into.new.items ≡ into.old.items) }
{
    let text = table_of(*into.allocator(), changed)?;
    into.extend_from_slice(&text)
}

/// Both lines as a text of their own.
fn table_of(alloc: Global, changed: &Changed) -> Result<Vec<u8>, AllocError>
    ensures { IfOk result (λ text. text.items ≡ volumes_text changed.now) }
{
    // A writer into a vector fails only where there is no memory, since both rows have as many
    // fields.
    let mut writer = WriterBuilder::new().from_writer(Vec::new(alloc));
    if write_rows(&mut writer, changed).is_err() {
        return Err(AllocError);
    }
    match writer.into_inner() {
        Ok(text) => Ok(text),
        Err(_) => Err(AllocError),
    }
}

/// Writes both rows.
fn write_rows(writer: &mut Writer<Vec<u8>>, changed: &Changed) -> Result<(), Error>
    requires { IsBetweenRows writer.old }
    ensures { OnOk result (text_of writer.new ≡ text_of writer.old ++ volumes_text changed.now) }
{
    write_names(writer)?;
    write_numbers(writer, changed)
}

/// Writes the names of the counts and volumes.
fn write_names(writer: &mut Writer<Vec<u8>>) -> Result<(), Error>
    requires { IsBetweenRows writer.old }
    ensures writer { OnOk result (IsBetweenRows writer.new) }
    ensures text { OnOk result
        (text_of writer.new ≡ text_of writer.old ++ line (codes "both,come,gone,empty,fill,cut")) }
{
    writer.write_fields(&[b"both", b"come", b"gone", b"empty", b"fill", b"cut"])
}

/// Writes the numbers in the order of their names.
fn write_numbers(writer: &mut Writer<Vec<u8>>, changed: &Changed) -> Result<(), Error>
    requires { IsBetweenRows writer.old }
    ensures { OnOk result
        (text_of writer.new
        ≡ text_of writer.old ++ fields_line (map decimal (volumes_of changed.now))) }
{
    let mut both = Buffer::new();
    let mut come = Buffer::new();
    let mut gone = Buffer::new();
    let mut empty = Buffer::new();
    let mut fill = Buffer::new();
    let mut cut = Buffer::new();
    writer.write_fields(&[
        both.format(changed.both).as_bytes(),
        come.format(changed.come).as_bytes(),
        gone.format(changed.gone).as_bytes(),
        empty.format(changed.empty).as_bytes(),
        fill.format(changed.fill).as_bytes(),
        cut.format(changed.cut).as_bytes(),
    ])
}
