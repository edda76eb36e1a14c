ghost use Rattle.std.specs.Prelude.{◌≡◌, ℕ, ◌+◌, ◌*◌, ◌/◌, ◌<◌, ◌≤◌, ◌⊎◌, length, slice_index};
ghost use Rattle.std.specs.Prelude.{EachIndex, count_ones, bit_xor};

use std::simd::prelude::*;

/// How many words stand side by side.
const WORDS: usize = 16;

/// How many bits of two words differ.
#[inline]
pub fn differing(a: u64, b: u64) -> u8
    ensures { result ≡ count_ones (bit_xor a b) }
{
    (a ^ b).count_ones() as u8
}

/// How many bits of two words differ, pair by pair.
#[inline]
fn differing_lanes(a: u64x16, b: u64x16) -> u8x16
    requires { (length a ≡ WORDS) × (length b ≡ WORDS) }
    ensures len { length result ≡ WORDS }
    ensures each { (i : ℕ) → i < WORDS
        → slice_index result i ≡ count_ones (bit_xor (slice_index a i) (slice_index b i)) }
{
    (a ^ b).count_ones().cast()
}

/// The words from `at` on.
#[inline]
fn load(words: &[u64], at: usize) -> u64x16
    requires { at + WORDS ≤ length words.now }
    ensures len { length result ≡ WORDS }
    ensures each { (i : ℕ) → i < WORDS → slice_index result i ≡ slice_index words.now (at + i) }
{
    u64x16::from_slice(&words[at..])
}

/// The same word in each lane.
#[inline]
fn repeated(word: u64) -> u64x16
    ensures len { length result ≡ WORDS }
    ensures each { (i : ℕ) → i < WORDS → slice_index result i ≡ word }
{
    u64x16::splat(word)
}

/// Writes bytes from `at` on.
#[inline]
fn store(lanes: u8x16, at: usize, into: &mut [u8])
    requires { (at + WORDS ≤ length into.old) × (length lanes ≡ WORDS) }
    ensures inside { (i : ℕ) → i < WORDS → slice_index into.new (at + i) ≡ slice_index lanes i }
    ensures outside { (k : ℕ) → (k < at) ⊎ (at + WORDS ≤ k)
        → slice_index into.new k ≡ slice_index into.old k }
{
    lanes.copy_to_slice(&mut into[at..]);
}

/// Writes, for each place, how many bits of the two words there differ. The three slices have one
/// length.
pub fn hamming(a: &[u64], b: &[u64], into: &mut [u8])
    requires a_length { length a.now ≡ length into.old }
    requires b_length { length b.now ≡ length into.old }
    ensures { EachIndex into.new (λ k. slice_index into.new k
        ≡ count_ones (bit_xor (slice_index a.now k) (slice_index b.now k))) }
{
    let chunks = into.len() / WORDS;
    for number in 0..chunks {
        let at = WORDS * number;
        store(differing_lanes(load(a, at), load(b, at)), at, into);
    }
    for i in WORDS * chunks..into.len() {
        into[i] = differing(a[i], b[i]);
    }
}

/// Writes, for each place, how many bits of the one word and of the word there differ: [`hamming`]
/// with that word at each place. The two slices have one length.
#[inline(always)]
pub fn hamming_to(word: u64, words: &[u64], into: &mut [u8])
    requires { length words.now ≡ length into.old }
    ensures { EachIndex into.new (λ k. slice_index into.new k
        ≡ count_ones (bit_xor word (slice_index words.now k))) }
{
    let chunks = into.len() / WORDS;
    let lanes = repeated(word);
    for number in 0..chunks {
        let at = WORDS * number;
        store(differing_lanes(lanes, load(words, at)), at, into);
    }
    for i in WORDS * chunks..into.len() {
        into[i] = differing(word, words[i]);
    }
}
