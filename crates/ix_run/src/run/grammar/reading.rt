//! Words that are numbers.
ghost use Rattle.std.specs.Prelude.{ℕ, ◌≡◌, ◌<◌, ◌≤◌, ◌-◌, ◌^◌, true, Some, IfSome, SomeIff, decimal, length};
ghost use Rattle.std.specs.Str.{all_ascii_digits};
ghost use Rattle.ix_run.specs.Reading.{digits_value_from, number_of};
ghost use Rattle.ix_run.specs.declared.run.grammar.reading.TheConstants.{SAFE_LEN};

use std::simd::prelude::*;

/// A word of at most this many digits is below 2^64.
const SAFE_LEN: usize = 19;

/// Returns `true` if each of the bytes is a digit.
#[inline(always)]
fn are_digits(eight: &[u8; 8]) -> bool
    ensures { result ≡ all_ascii_digits eight.now }
{
    let mut all = true;
    for &byte in eight {
        // The loop does not end early, so that the compiler tests the bytes side by side.
        all = all & (byte >= b'0' && byte <= b'9');
    }
    all
}

/// Returns the value of eight digits.
#[inline(always)]
fn value_of_eight(eight: &[u8; 8]) -> u64
    requires { all_ascii_digits eight.now ≡ true }
    ensures value { result ≡ digits_value_from 0 eight.now }
    ensures bound { result < 10 ^ 8 }
{
    let digits = u8x8::from_array(*eight).strict_sub(u8x8::splat(b'0'));
    let weights = u32x8::from_array([10_000_000, 1_000_000, 100_000, 10_000, 1000, 100, 10, 1]);
    digits.cast::<u32>().strict_mul(weights).strict_reduce_sum() as u64
}

/// Returns the value of the digits after those whose value is `front`, if they are digits alone.
#[inline(always)]
fn value_after(front: u64, digits: &[u8]) -> Option<u64>
    requires few { length digits.now ≤ SAFE_LEN }
    requires small { front < 10 ^ (SAFE_LEN - length digits.now) }
    ensures { SomeIff result (all_ascii_digits digits.now ≡ true)
        (digits_value_from front digits.now) }
{
    let mut value = front;
    for &byte in digits {
        if byte < b'0' || byte > b'9' {
            return None;
        }
        value = value * 10 + (byte - b'0') as u64;
    }
    Some(value)
}

/// Returns the value of at most 19 digits alone.
#[inline(always)]
fn value_of_few_digits(word: &[u8]) -> Option<u64>
    requires { length word.now ≤ SAFE_LEN }
    ensures { SomeIff result (all_ascii_digits word.now ≡ true) (digits_value_from 0 word.now) }
{
    let Some((first, rest)) = word.split_first_chunk::<8>() else {
        return value_after(0, word);
    };
    if !are_digits(first) {
        return None;
    }
    let front = value_of_eight(first);
    let Some((second, rest)) = rest.split_first_chunk::<8>() else {
        return value_after(front, rest);
    };
    if !are_digits(second) {
        return None;
    }
    value_after(front * 100_000_000 + value_of_eight(second), rest)
}

/// Returns the value of a word of digits alone, if it is a `u64`.
#[inline(always)]
fn value_of_digits(word: &[u8]) -> Option<u64>
    requires { 0 < length word.now }
    ensures { SomeIff result
        ((all_ascii_digits word.now ≡ true) × (digits_value_from 0 word.now < 2 ^ 64))
        (digits_value_from 0 word.now) }
{
    if word.len() <= SAFE_LEN {
        return value_of_few_digits(word);
    }
    if word[0] == b'+' {
        return None;
    }
    match fast_float::parse_u64(word) {
        Ok(value) => Some(value),
        Err(_) => None,
    }
}

/// Does the same as [`read_number`].
#[inline]
pub(crate) fn number_in(word: &[u8]) -> Option<u64>
    ensures { result ≡ number_of word.now }
{
    if word.is_empty() {
        return None;
    }
    let value = value_of_digits(word);
    // This test is after the digits, because a byte that was loaded before them would cost eight more instructions.
    if word[0] == b'0' && word.len() > 1 {
        return None;
    }
    value
}

/// Returns the number whose decimal text `word` is, or `None` for any other word. O(length).
///
/// The number is from 0 to 18,446,744,073,709,551,615, and its text has no leading zeros.
#[tactic(auto, using(crate::proofs::Numbers::number_of_text, crate::proofs::Numbers::number_of_decimal))]
pub fn read_number(word: &[u8]) -> Option<u64>
    ensures value { result ≡ number_of word.now }
    ensures text { IfSome result (λ n. word.now ≡ decimal n) }
    ensures each { (n : ℕ) → n < 2 ^ 64 → word.now ≡ decimal n → result ≡ Some n }
{
    number_in(word)
}
