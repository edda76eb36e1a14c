ghost use Rattle.std.specs.Prelude.{◌≡◌, ◌<◌, length};
ghost use Rattle.sgm_words.specs.Operands.{bytes_of, word, operands, change_operands};
ghost use Rattle.sgm_words.specs.Operands.{merge_operands};
ghost use Rattle.sgm_words.specs.Operands.{is_plain_word};

use std::marker::Model;

/// The operands of `match`, of which the first three are those of `trace` too.
#[derive(Drop)]
pub struct OperandWords<'a> {
    left: &'a str,
    right: &'a str,
    calib: &'a str,
    out: &'a str,
}

impl<'a> Model for OperandWords<'a> {
    ghost use Rattle.sgm_words.specs.Operands.{Operands};

    ghost Value = { Operands };

    ghost view = { λ o. record {
      left = o.left.now;
      right = o.right.now;
      calib = o.calib.now;
      out = o.out.now;
    } };
}

impl<'a> OperandWords<'a> {
    /// The words 1 to 4.
    pub fn of(words: &'a [String]) -> OperandWords<'a>
        requires { 4 < length words.now }
        ensures { result ≡ operands (bytes_of words.now) }
    {
        OperandWords {
            left: words[1].as_str(),
            right: words[2].as_str(),
            calib: words[3].as_str(),
            out: words[4].as_str(),
        }
    }

    /// The operands with these names.
    pub fn named(left: &'a str, right: &'a str, calib: &'a str, out: &'a str) -> OperandWords<'a>
        ensures { result
            ≡ record {
              left = left.entry.now;
              right = right.entry.now;
              calib = calib.entry.now;
              out = out.entry.now;
            } }
    {
        OperandWords {
            left,
            right,
            calib,
            out,
        }
    }

    pub fn left(&self) -> &'a str
        ensures { result.now ≡ self.now.left }
    {
        self.left
    }

    pub fn right(&self) -> &'a str
        ensures { result.now ≡ self.now.right }
    {
        self.right
    }

    pub fn calib(&self) -> &'a str
        ensures { result.now ≡ self.now.calib }
    {
        self.calib
    }

    pub fn out(&self) -> &'a str
        ensures { result.now ≡ self.now.out }
    {
        self.out
    }
}

/// The operands of `change`.
#[derive(Drop)]
pub struct ChangeWords<'a> {
    earlier: &'a str,
    later: &'a str,
    out: &'a str,
}

impl<'a> Model for ChangeWords<'a> {
    ghost use Rattle.sgm_words.specs.Operands.{ChangeOperands};

    ghost Value = { ChangeOperands };

    ghost view = { λ o. record { earlier = o.earlier.now; later = o.later.now; out = o.out.now } };
}

impl<'a> ChangeWords<'a> {
    /// The words 1 to 3.
    pub fn of(words: &'a [String]) -> ChangeWords<'a>
        requires { 3 < length words.now }
        ensures { result ≡ change_operands (bytes_of words.now) }
    {
        ChangeWords {
            earlier: words[1].as_str(),
            later: words[2].as_str(),
            out: words[3].as_str(),
        }
    }

    pub fn earlier(&self) -> &'a str
        ensures { result.now ≡ self.now.earlier }
    {
        self.earlier
    }

    pub fn later(&self) -> &'a str
        ensures { result.now ≡ self.now.later }
    {
        self.later
    }

    pub fn out(&self) -> &'a str
        ensures { result.now ≡ self.now.out }
    {
        self.out
    }
}

/// The operands of `merge`.
#[derive(Drop)]
pub struct MergeWords<'a> {
    list: &'a str,
    calib: &'a str,
    out: &'a str,
}

impl<'a> Model for MergeWords<'a> {
    ghost use Rattle.sgm_words.specs.Operands.{MergeOperands};

    ghost Value = { MergeOperands };

    ghost view = { λ o. record { list = o.list.now; calib = o.calib.now; out = o.out.now } };
}

impl<'a> MergeWords<'a> {
    /// The words 1 to 3.
    pub fn of(words: &'a [String]) -> MergeWords<'a>
        requires { 3 < length words.now }
        ensures { result ≡ merge_operands (bytes_of words.now) }
    {
        MergeWords {
            list: words[1].as_str(),
            calib: words[2].as_str(),
            out: words[3].as_str(),
        }
    }

    pub fn list(&self) -> &'a str
        ensures { result.now ≡ self.now.list }
    {
        self.list
    }

    pub fn calib(&self) -> &'a str
        ensures { result.now ≡ self.now.calib }
    {
        self.calib
    }

    pub fn out(&self) -> &'a str
        ensures { result.now ≡ self.now.out }
    {
        self.out
    }
}

/// Whether the word for a calibration means the plain settings.
pub fn is_plain(calib: &str) -> bool
    ensures { result ≡ is_plain_word calib.now }
{
    calib == "-"
}

/// The word at a position; nothing behind the last.
pub fn word_at(words: &[String], position: usize) -> &[u8]
    ensures { result.now ≡ word (bytes_of words.now) position }
{
    match words.get(position) {
        Some(word) => word.as_bytes(),
        None => b"",
    }
}
