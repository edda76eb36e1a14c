ghost use Rattle.std.specs.Prelude.{◌≡◌, ◌++◌, OnOk, OnErr};
ghost use Rattle.sgm_text.specs.Texts.{StartsAs};

use itoa::{Buffer, Integer};
use std::alloc::AllocError;

/// Adds a number in decimal, and what follows it. On Err a part of them may have been added.
#[tactic(auto, using(crate::proofs::Beginnings::starts_on, crate::proofs::Beginnings::starts_append))]
pub fn append_number<N: Integer>(
    number: N,
    after: &[u8],
    into: &mut Vec<u8>,
) -> Result<(), AllocError>
    ensures ok { OnOk result (into.new.items ≡ into.old.items ++ (N.text number ++ after.now)) }
    ensures err { OnErr result (StartsAs into.old.items into.new.items) }
{
    into.extend_from_slice(Buffer::new().format(number).as_bytes())?;
    into.extend_from_slice(after)
}
