ghost use Rattle.std.specs.Prelude.{◌≡◌, ◌^◌, min};
ghost use Rattle.std.specs.List.{list_all};
ghost use Rattle.std.specs.Char.{is_ascii_digit};
ghost use Rattle.sgm_words.specs.Numbers.{value_of, is_number, number_within, number_of};

fn is_all_digits(text: &[u8]) -> bool
    ensures { result ≡ list_all is_ascii_digit text.now }
{
    text.iter().all(|c| c.is_ascii_digit())
}

fn is_number(text: &[u8]) -> bool
    ensures { result ≡ is_number text.now }
{
    !text.is_empty() && is_all_digits(text)
}

// The value of the digits, or 2^32 where it is greater.
fn capped_value(digits: &[u8]) -> u64
    ensures { result ≡ min (value_of digits.now) (2 ^ 32) }
{
    let mut value: u64 = 0;
    for digit in digits {
        value = (10 * value + (*digit).saturating_sub(b'0') as u64).min(4_294_967_296);
    }
    value
}

/// The value of a text that is a number from `low` to `high`.
#[tactic(auto, unfolding(crate::specs::Numbers::number_within))]
pub fn number_within(low: u32, high: u32, text: &[u8]) -> Option<u32>
    ensures { result ≡ number_within low high text.now }
{
    let value = capped_value(text);
    if !is_number(text) {
        return None;
    }
    if value < low as u64 {
        return None;
    }
    if value > high as u64 {
        return None;
    }
    Some(value as u32)
}

/// The value of an operand that is a number.
pub fn number(text: &[u8]) -> Option<u32>
    ensures { result ≡ number_of text.now }
{
    number_within(0, u32::MAX, text)
}
