//! `kernel NAME LENGTH`: what a kernel gives for so many numbers, at most 130, of a simple
//! generator: the same for each name and length.
//!
//! The numbers are drawn one list after the other, in the order of the kernel's parameters, each
//! list whole; what a kernel writes over is drawn last. The answer is what was written, one space
//! between two numbers, after `add_step` the values, ` | ` and the sums; or the least value. After
//! `add_step_back` stands what `add_step` gives where the greater indices come first.
//! `tests/kernels.py` works the answers out.

ghost use Rattle.std.specs.Prelude.{◌≡◌, ◌≤◌, ◌<◌, nat_le, IfOk, vec_len};
ghost use Rattle.std.specs.List.{list_all};

use crate::parts::cut;
use sgm_lanes::{add, add_step, hamming, hamming_to, least, step};
use std::alloc::{AllocError, Global};
use std::fmt::{Display, Write};

/// The greatest length that is asked for.
const MAX_LENGTH: usize = 130;

/// The greatest path value, the greatest cost, and a sum to which a path value can be added.
const PATH_VALUE: u16 = 4062;

const COST: u8 = 62;

const SUM: u16 = 61_473;

/// The penalties, at which each of the four ways of a step is the least of some value.
const P1: u16 = 700;

const P2: u16 = 1500;

/// A generator of numbers.
#[derive(Clone, Copy)]
struct Numbers {
    state: u64,
}

impl Numbers {
    /// The next word.
    fn word(&mut self) -> u64 {
        let next = self.state.wrapping_mul(6_364_136_223_846_793_005);
        self.state = next.wrapping_add(1_442_695_040_888_963_407);
        self.state
    }

    /// The next number up to a greatest one.
    fn number(&mut self, most: u16) -> u16 {
        ((self.word() >> 33) % (u64::from(most) + 1)) as u16
    }

    /// The next cost.
    fn cost(&mut self) -> u8 {
        ((self.word() >> 33) % (u64::from(COST) + 1)) as u8
    }

    fn words(&mut self, alloc: Global, length: usize) -> Result<Vec<u64>, AllocError>
        ensures { IfOk result (λ words. vec_len words ≡ length) }
    {
        let mut words = vec![in alloc; 0u64; length]?;
        for at in 0..length {
            words[at] = self.word();
        }
        Ok(words)
    }

    fn numbers(&mut self, alloc: Global, length: usize, most: u16) -> Result<Vec<u16>, AllocError>
        ensures { IfOk result (λ numbers. vec_len numbers ≡ length) }
    {
        let mut numbers = vec![in alloc; 0u16; length]?;
        for at in 0..length {
            numbers[at] = self.number(most);
        }
        Ok(numbers)
    }

    fn costs(&mut self, alloc: Global, length: usize) -> Result<Vec<u8>, AllocError>
        ensures { IfOk result (λ costs. vec_len costs ≡ length) }
    {
        let mut costs = vec![in alloc; 0u8; length]?;
        for at in 0..length {
            costs[at] = self.cost();
        }
        Ok(costs)
    }
}

fn are_path_values(values: &[u16]) -> bool
    ensures { result ≡ list_all (λ value. nat_le value 4062) values.now }
{
    values.iter().all(|value| *value <= PATH_VALUE)
}

fn are_costs(costs: &[u8]) -> bool
    ensures { result ≡ list_all (λ cost. nat_le cost 62) costs.now }
{
    costs.iter().all(|cost| *cost <= COST)
}

fn are_sums(sums: &[u16]) -> bool
    ensures { result ≡ list_all (λ sum. nat_le sum 61473) sums.now }
{
    sums.iter().all(|sum| *sum <= SUM)
}

/// Adds the numbers, one space between two.
fn push_all<T: Display>(text: &mut String, numbers: &[T]) -> Result<(), AllocError> {
    for (at, number) in numbers.iter().enumerate() {
        if at > 0 {
            text.push_str(" ")?;
        }
        write!(text, "{number}")?;
    }
    Ok(())
}

fn all_text<T: Display>(alloc: Global, numbers: &[T]) -> Result<String, AllocError> {
    let mut text = String::new(alloc);
    push_all(&mut text, numbers)?;
    Ok(text)
}

fn hamming_text(alloc: Global, length: usize, mut drawn: Numbers) -> Result<String, AllocError> {
    let words = drawn.words(alloc, length)?;
    let others = drawn.words(alloc, length)?;
    let mut into = drawn.costs(alloc, length)?;
    hamming(&words, &others, into.as_mut_slice());
    all_text(alloc, &into)
}

fn hamming_to_text(alloc: Global, length: usize, mut drawn: Numbers) -> Result<String, AllocError> {
    let word = drawn.word();
    let words = drawn.words(alloc, length)?;
    let mut into = drawn.costs(alloc, length)?;
    hamming_to(word, &words, into.as_mut_slice());
    all_text(alloc, &into)
}

fn least_text(alloc: Global, length: usize, mut drawn: Numbers) -> Result<String, AllocError>
    requires { 0 < length }
{
    let values = drawn.numbers(alloc, length, PATH_VALUE)?;
    let low = least(&values);
    format!(in alloc; "{low}")
}

fn add_text(alloc: Global, length: usize, mut drawn: Numbers) -> Result<String, AllocError> {
    let values = drawn.numbers(alloc, length, PATH_VALUE)?;
    let mut sums = drawn.numbers(alloc, length, SUM)?;
    if !are_path_values(&values) || !are_sums(&sums) {
        return String::from_str(alloc, "out of range");
    }
    add(sums.as_mut_slice(), &values);
    all_text(alloc, &sums)
}

fn step_text(alloc: Global, length: usize, mut drawn: Numbers) -> Result<String, AllocError>
    requires { 0 < length }
{
    let prev = drawn.numbers(alloc, length, PATH_VALUE)?;
    let costs = drawn.costs(alloc, length)?;
    let mut into = drawn.numbers(alloc, length, PATH_VALUE)?;
    if !are_path_values(&prev) || !are_costs(&costs) {
        return String::from_str(alloc, "out of range");
    }
    step(&prev, least(&prev), &costs, P1, P2, into.as_mut_slice());
    all_text(alloc, &into)
}

fn add_step_text<const BACK: bool>(
    alloc: Global,
    length: usize,
    mut drawn: Numbers,
) -> Result<String, AllocError>
    requires { 0 < length }
{
    let prev = drawn.numbers(alloc, length, PATH_VALUE)?;
    let costs = drawn.costs(alloc, length)?;
    let mut into = drawn.numbers(alloc, length, PATH_VALUE)?;
    let mut sums = drawn.numbers(alloc, length, SUM)?;
    if !are_path_values(&prev) || !are_costs(&costs) || !are_sums(&sums) {
        return String::from_str(alloc, "out of range");
    }
    let floor = least(&prev);
    add_step::<BACK>(
        &prev,
        floor,
        &costs,
        P1,
        P2,
        into.as_mut_slice(),
        sums.as_mut_slice(),
    );
    let mut text = all_text(alloc, &into)?;
    text.push_str(" | ")?;
    push_all(&mut text, &sums)?;
    Ok(text)
}

fn text_of(alloc: Global, name: &str, length: usize) -> Result<String, AllocError>
    requires { length ≤ 130 }
{
    let drawn = Numbers {
        state: length as u64,
    };
    match name {
        "hamming" => hamming_text(alloc, length, drawn),
        "hamming_to" => hamming_to_text(alloc, length, drawn),
        "add" => add_text(alloc, length, drawn),
        "least" if length > 0 => least_text(alloc, length, drawn),
        "step" if length > 0 => step_text(alloc, length, drawn),
        "add_step" if length > 0 => add_step_text::<false>(alloc, length, drawn),
        "add_step_back" if length > 0 => add_step_text::<true>(alloc, length, drawn),
        _ => String::from_str(alloc, "no such kernel"),
    }
}

/// The answer to the case of that text.
pub fn answer(alloc: Global, case: &str) -> Result<String, AllocError> {
    let (name, length) = cut(case);
    match length.parse() {
        Ok(length) if length <= MAX_LENGTH => text_of(alloc, name, length),
        _ => String::from_str(alloc, "no such length"),
    }
}
