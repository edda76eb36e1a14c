//! Counting the entries, before memory is taken for them.
ghost use Rattle.std.specs.Prelude.{◌≡◌, ◌≤◌, ◌<◌, ◌+◌, ◌==◌, length, count_by, None, Some, IfOk};
ghost use Rattle.std.specs.Prelude.{IfErr};
ghost use Rattle.std.specs.List.{position_from};
ghost use Rattle.sgm_text.specs.Words.{lines_of, words_of};
ghost use Rattle.sgm_list.specs.Faults.{is_faulty};

use sgm_text::{count_words, split_line};

/// The number of lines of a text that have so many words; or the number of the first line, from 1,
/// that has words, but not so many.
pub fn count_lines(text: &str, need: usize) -> Result<usize, usize>
    requires { 0 < need }
    ensures none { IfOk result (λ _. position_from (is_faulty need) 1 (lines_of text.now) ≡ None) }
    ensures count { IfOk result (λ count. count
        ≡ count_by (λ line. length (words_of line) == need) (lines_of text.now)) }
    ensures first { IfErr result (λ number.
        position_from (is_faulty need) 1 (lines_of text.now) ≡ Some number) }
{
    let mut count = 0;
    let mut number = 0;
    let mut left = Some(text);
    while let Some(rest) = left {
        let (line, behind) = split_line(rest);
        number += 1;
        let words = count_words(line.as_bytes());
        if words == need {
            count += 1;
        } else if words != 0 {
            return Err(number);
        }
        left = behind;
    }
    Ok(count)
}
