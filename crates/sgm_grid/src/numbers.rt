//! The whole numbers that words write.

ghost use Rattle.std.specs.Prelude.{◌≡◌, ◌≤◌, IfSome};
ghost use Rattle.std.specs.Option.{option_map};
ghost use Rattle.sgm_grid.specs.Capped.{capped, capped_size};
ghost use Rattle.sgm_grid.specs.Numbers.{digits_of, number_of};

/// Stands for all numbers that are greater; its negative for all that are less. None of a grid's
/// text may be as far from 0.
pub const TOO_GREAT: u64 = 10_000_000_000;

/// The number that a word writes, `TOO_GREAT` or its negative where it is further from 0; None
/// where it writes none.
pub fn number(word: &[u8]) -> Option<i64>
    ensures { result ≡ option_map capped (number_of word.now) }
{
    if word.is_empty() || word[0] != b'-' {
        return Some(size(word)? as i64);
    }
    Some(-(size(&word[1..])? as i64))
}

/// The number that digits write, `TOO_GREAT` where it is greater; None where there is no digit or
/// another byte.
fn size(digits: &[u8]) -> Option<u64>
    ensures value { result ≡ option_map capped_size (digits_of digits.now) }
    ensures within { IfSome result (λ n. n ≤ TOO_GREAT) }
{
    if digits.is_empty() {
        return None;
    }
    let mut value: u64 = 0;
    for byte in digits {
        if !byte.is_ascii_digit() {
            return None;
        }
        value = (10 * value + u64::from(*byte - b'0')).min(TOO_GREAT);
    }
    Some(value)
}
