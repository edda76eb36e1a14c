ghost use Rattle.std.specs.Prelude.{Result};
ghost use Rattle.sgm_base.specs.Picture.{Picture};
ghost use Rattle.sgm_pgm.specs.declared.fault.PgmFault.{PgmFault};
ghost use Rattle.sgm_pgm.specs.Read.{Reads, ReadsAs, AnswersReading};

use crate::fault::PgmError;
use crate::header::split_header;
use crate::raster::image_behind;
use sgm_base::Image;
use std::alloc::Global;

/// The image of a PGM text (Netpbm's `P5`): `P5`, a gap, the width, a gap, the height, a gap,
/// maxval, one white byte, and the samples row by row from the top, each one byte where maxval is
/// below 256, otherwise two with the most significant first. What follows them is ignored.
///
/// White bytes are space, TAB, LF, VT, FF and CR. A gap is one or more white bytes or comments, and
/// a comment is `#` and all bytes up to and with the next LF or CR. Numbers may have leading zeros.
/// Width and height are from 1 to 4096, maxval is from 1 to 65535, and no sample is above it.
pub fn read(alloc: Global, bytes: &[u8]) -> Result<Image, PgmError>
    // The bytes are the text of the image, or have this fault.
    ensures exact { AnswersReading bytes.now result }
    // No other image or fault is theirs.
    ensures unique { (reading : Result Picture PgmFault) →
        Reads bytes.now reading → ReadsAs reading result }
{
    let (header, raster) = split_header(bytes)?;
    image_behind(alloc, header, raster)
}
