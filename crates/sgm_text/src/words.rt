//! The lines of a text, and its words.

ghost use Rattle.std.specs.Prelude.{◌≡◌, ◌+◌, ◌<◌, ◌≤◌, [], ◌∷◌, drop, take, length, false};
ghost use Rattle.std.specs.Prelude.{IfSome, MatchOption, slice_index};
ghost use Rattle.std.specs.Str.{IsUtf8, IsCharBoundary};
ghost use Rattle.sgm_text.specs.Words.{is_space, lines_left, lines_of, words_of};

/// The first line, and what stands behind its LF; None where it is the last.
pub fn split_line(text: &str) -> (&str, Option<&str>)
    ensures lines { lines_of text.now ≡ result.0.now ∷ lines_left result.1 }
    ensures shorter { IfSome result.1 (λ rest. length rest.now < length text.now) }
{
    match text.split_once('\n') {
        Some((line, rest)) => (line, Some(rest)),
        None => (text, None),
    }
}

/// The first word, and what stands behind it. Words are the longest runs of bytes other than space,
/// TAB, CR and LF.
pub fn split_word(text: &str) -> Option<(&str, &str)>
    ensures words { MatchOption result (words_of text.now ≡ []) (λ split.
        words_of text.now ≡ split.0.now ∷ words_of split.1.now) }
    ensures shorter { IfSome result (λ split. length split.1.now < length text.now) }
{
    let text = &text[word_start(text.as_bytes())..];
    if text.is_empty() {
        return None;
    }
    let end = word_len(text.as_bytes());
    Some((&text[..end], &text[end..]))
}

/// The same of bytes that need not be UTF-8.
pub fn split_word_bytes(bytes: &[u8]) -> Option<(&[u8], &[u8])>
    ensures words { MatchOption result (words_of bytes.now ≡ []) (λ split.
        words_of bytes.now ≡ split.0.now ∷ words_of split.1.now) }
    ensures shorter { IfSome result (λ split. length split.1.now < length bytes.now) }
{
    let bytes = &bytes[word_start(bytes)..];
    if bytes.is_empty() {
        return None;
    }
    let end = word_len(bytes);
    Some((&bytes[..end], &bytes[end..]))
}

/// The number of words.
pub fn count_words(bytes: &[u8]) -> usize
    ensures count { result ≡ length (words_of bytes.now) }
    ensures within { result ≤ length bytes.now }
{
    let mut count = 0;
    let mut rest = bytes;
    while let Some((_word, behind)) = split_word_bytes(rest) {
        count += 1;
        rest = behind;
    }
    count
}

fn is_space(byte: u8) -> bool
    ensures { result ≡ is_space byte }
{
    matches!(byte, b' ' | b'\t' | b'\r' | b'\n')
}

/// Where the first word begins; the end where there is none.
fn word_start(bytes: &[u8]) -> usize
    ensures within { result ≤ length bytes.now }
    ensures boundary { IsUtf8 bytes.now → IsCharBoundary bytes.now result }
    ensures same { words_of (drop result bytes.now) ≡ words_of bytes.now }
    ensures stops { result < length bytes.now → is_space (slice_index bytes.now result) ≡ false }
{
    let mut start = 0;
    while start < bytes.len() && is_space(bytes[start]) {
        start += 1;
    }
    start
}

/// The number of bytes of the word that stands in front.
fn word_len(bytes: &[u8]) -> usize
    requires some { 0 < length bytes.now }
    requires word { is_space (slice_index bytes.now 0) ≡ false }
    ensures some { 0 < result }
    ensures within { result ≤ length bytes.now }
    ensures boundary { IsCharBoundary bytes.now result }
    ensures word { words_of bytes.now ≡ take result bytes.now ∷ words_of (drop result bytes.now) }
{
    let mut count = 1;
    while count < bytes.len() && !is_space(bytes[count]) {
        count += 1;
    }
    count
}
