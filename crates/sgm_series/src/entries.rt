//! The operands of an entry's match.
ghost use Rattle.std.specs.Prelude.{◌≡◌};
ghost use Rattle.sgm_series.specs.Plans.{asked_for};

use sgm_list::Entry;
use sgm_words::OperandWords;

/// The operands of an entry's match; `-` stands for the plain settings.
pub fn operands_of(entry: &Entry) -> OperandWords<'_>
    ensures { result ≡ asked_for entry.now }
{
    let calib = match &entry.calib {
        Some(calib) => calib.as_str(),
        None => "-",
    };
    OperandWords::named(
        entry.left.as_str(),
        entry.right.as_str(),
        calib,
        entry.out.as_str(),
    )
}
