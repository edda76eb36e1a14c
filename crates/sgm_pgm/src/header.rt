//! The header of a PGM text, read byte by byte.

ghost use Rattle.std.specs.Prelude.{◌≡◌, ◌↔◌, ◌+◌, ◌<◌, ◌≤◌, [], ◌∷◌, false, IsTrue, drop, length};
ghost use Rattle.std.specs.Prelude.{IfOk, IfErr, OnOk};
ghost use Rattle.sgm_pgm.specs.declared.fault.PgmFault.TheVariants.{HeaderShort, HeaderByte};
ghost use Rattle.sgm_pgm.specs.Fault.{HasMagic, IsPgmFault};
ghost use Rattle.sgm_pgm.specs.Header.{is_white, ends_line};
ghost use Rattle.sgm_pgm.specs.Parts.{gap_at, gap_rest, number_at, number_rest, field_at, white_at};
ghost use Rattle.sgm_pgm.specs.Parts.{header_at, Gives, HasCappedHeader};

use crate::fault::PgmFault;

/// Stands for all numbers that are greater: none of a header may be as great.
pub const TOO_GREAT: u32 = 65_536;

/// The three numbers of a header, each `TOO_GREAT` where it is greater.
#[derive(Clone, Copy)]
pub struct Header {
    pub width: u32,
    pub height: u32,
    pub maxval: u32,
}

/// The header of a PGM text, with numbers that are too great as one, and the bytes behind it.
pub fn split_header(bytes: &[u8]) -> Result<(Header, &[u8]), PgmFault>
    ensures ok { IfOk result (λ p.
        HasCappedHeader bytes.now p.0.width p.0.height p.0.maxval p.1.now) }
    ensures err { IfErr result (λ fault. IsPgmFault bytes.now fault) }
{
    if !begins_with_magic(bytes) {
        return Err(PgmFault::NotPgm);
    }
    let mut reader = Reader { bytes, at: 2 };
    let header = reader.header()?;
    Ok((header, &bytes[reader.at..]))
}

fn begins_with_magic(bytes: &[u8]) -> bool
    ensures { IsTrue result ↔ HasMagic bytes.now }
{
    matches!(bytes, [b'P', b'5', ..])
}

fn is_white(byte: u8) -> bool
    ensures { result ≡ is_white byte }
{
    matches!(byte, b' ' | b'\t'..=b'\r')
}

fn ends_line(byte: u8) -> bool
    ensures { result ≡ ends_line byte }
{
    matches!(byte, b'\n' | b'\r')
}

/// Bytes, and how many of them have been read.
#[derive(Drop)]
struct Reader<'a> {
    bytes: &'a [u8],
    at: usize,
}

impl<'a> Reader<'a> {
    /// The byte that is next.
    fn peek(&self) -> Result<u8, PgmFault>
        ensures inside { OnOk result (self.now.at < length self.now.bytes.now) }
        ensures ok { IfOk result (λ b.
            drop self.now.at self.now.bytes.now ≡ b ∷ drop (self.now.at + 1) self.now.bytes.now) }
        ensures err { IfErr result (λ fault.
            (fault ≡ HeaderShort) × (drop self.now.at self.now.bytes.now ≡ [])) }
    {
        if self.at < self.bytes.len() {
            Ok(self.bytes[self.at])
        } else {
            Err(PgmFault::HeaderShort)
        }
    }

    /// The fault of the byte that is next.
    fn wrong_byte(&self) -> PgmFault
        ensures { result ≡ HeaderByte self.now.at }
    {
        PgmFault::HeaderByte { at: self.at }
    }

    /// Passes the white bytes and comments that stand here.
    fn rest_of_gap(&mut self) -> Result<(), PgmFault>
        ensures same { self.new.bytes.now ≡ self.old.bytes.now }
        ensures passes { Gives (λ _ rest. rest) (gap_rest false)
            self.old.bytes.now self.old.at self.new.at result }
    {
        let mut in_comment = false;
        loop {
            let byte = self.peek()?;
            if in_comment {
                in_comment = !ends_line(byte);
            } else if byte == b'#' {
                in_comment = true;
            } else if !is_white(byte) {
                return Ok(());
            }
            self.at += 1;
        }
    }

    /// Passes a gap, which has to stand here.
    fn gap(&mut self) -> Result<(), PgmFault>
        ensures same { self.new.bytes.now ≡ self.old.bytes.now }
        ensures passes { Gives (λ _ rest. rest) gap_at
            self.old.bytes.now self.old.at self.new.at result }
    {
        let byte = self.peek()?;
        if byte != b'#' && !is_white(byte) {
            return Err(self.wrong_byte());
        }
        self.rest_of_gap()
    }

    /// Reads the digits that stand here.
    fn rest_of_number(&mut self) -> Result<u32, PgmFault>
        ensures same { self.new.bytes.now ≡ self.old.bytes.now }
        ensures reads { Gives (λ n rest. (n, rest)) (number_rest 0)
            self.old.bytes.now self.old.at self.new.at result }
    {
        let mut value: u32 = 0;
        loop {
            let byte = self.peek()?;
            if !byte.is_ascii_digit() {
                return Ok(value);
            }
            value = (10 * value + u32::from(byte - b'0')).min(TOO_GREAT);
            self.at += 1;
        }
    }

    /// Reads a number, which has to stand here.
    fn number(&mut self) -> Result<u32, PgmFault>
        ensures same { self.new.bytes.now ≡ self.old.bytes.now }
        ensures reads { Gives (λ n rest. (n, rest)) number_at
            self.old.bytes.now self.old.at self.new.at result }
    {
        if !self.peek()?.is_ascii_digit() {
            return Err(self.wrong_byte());
        }
        self.rest_of_number()
    }

    /// Passes a gap and reads the number behind it.
    fn field(&mut self) -> Result<u32, PgmFault>
        ensures same { self.new.bytes.now ≡ self.old.bytes.now }
        ensures reads { Gives (λ n rest. (n, rest)) field_at
            self.old.bytes.now self.old.at self.new.at result }
    {
        self.gap()?;
        self.number()
    }

    /// Passes one white byte.
    fn white(&mut self) -> Result<(), PgmFault>
        ensures same { self.new.bytes.now ≡ self.old.bytes.now }
        ensures inside { OnOk result (self.new.at ≤ length self.new.bytes.now) }
        ensures passes { Gives (λ _ rest. rest) white_at
            self.old.bytes.now self.old.at self.new.at result }
    {
        if !is_white(self.peek()?) {
            return Err(self.wrong_byte());
        }
        self.at += 1;
        Ok(())
    }

    /// Reads the numbers of a header, from behind its magic.
    #[tactic(auto, unfolding(crate::specs::Parts::header_at))]
    fn header(&mut self) -> Result<Header, PgmFault>
        ensures same { self.new.bytes.now ≡ self.old.bytes.now }
        ensures inside { OnOk result (self.new.at ≤ length self.new.bytes.now) }
        ensures reads { Gives (λ h rest. (h.width, h.height, h.maxval, rest)) header_at
            self.old.bytes.now self.old.at self.new.at result }
    {
        let width = self.field()?;
        let height = self.field()?;
        let maxval = self.field()?;
        self.white()?;
        Ok(Header {
            width,
            height,
            maxval,
        })
    }
}
