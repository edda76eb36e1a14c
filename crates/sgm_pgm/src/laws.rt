//! Laws of the definitions that the contracts cite. The functions do nothing: their clauses are the
//! laws.

ghost use Rattle.std.specs.Prelude.{◌≡◌, ◌*◌, ◌<◌, ◌^◌, ℕ, List, Result, All, length};
ghost use Rattle.sgm_base.specs.Picture.{Picture, picture};
ghost use Rattle.sgm_base.specs.Sides.{IsSide};
ghost use Rattle.sgm_pgm.specs.declared.fault.PgmFault.{PgmFault};
ghost use Rattle.sgm_pgm.specs.Read.{Reads};
ghost use Rattle.sgm_pgm.specs.Text.{IsPgmText};
ghost use Rattle.sgm_pgm.specs.Write.{text_of};

/// Each list of bytes is the text of exactly one image or has exactly one fault, never both.
pub fn one_reading()
    ensures some { (bytes : List ℕ) → All (λ b. b < 256) bytes →
        (reading : Result Picture PgmFault) × Reads bytes reading }
    ensures only { (bytes : List ℕ) (one other : Result Picture PgmFault) →
        Reads bytes one → Reads bytes other → one ≡ other }
{}

/// What is written is the PGM text of an image with maxval 65535 and the same samples.
pub fn written_is_text()
    ensures { (width height : ℕ) (samples : List ℕ) → IsSide width → IsSide height →
        length samples ≡ width * height → All (λ s. s < 2 ^ 16) samples →
        IsPgmText (text_of width height samples) (picture width height 65535 samples) }
{}
