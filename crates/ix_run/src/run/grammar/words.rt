//! Lines as words: a name, and numbers. `rest` is the part of a line after the last space that was read, or `None` at its
//! end.
ghost use Rattle.std.specs.Prelude.{ℕ, ◌≡◌, ◌≤◌, ◌*◌, ◌+◌, List, ◌∷◌, false, MatchOption, length, take, nat_eq, bytes_eq};
ghost use Rattle.std.specs.Option.{option_map, option_and_then, option_copied};
ghost use Rattle.std.specs.List.{position_or_len, slice_split, list_any};
ghost use Rattle.ix_run.specs.Words.{is_space, numbers_in, key_of};
ghost use Rattle.ix_run.specs.inner.NameTables.{first_word, IsAfterName};
ghost use Rattle.ix_run.specs.Words.{takes_none, takes_one, takes_two, one_byte, number_byte, many_bytes, number_many_bytes};
ghost use Rattle.ix_run.specs.inner.LineRest.{words_after, len_after, byte_of};

use crate::run::grammar::reading::number_in;
use ix_slotmap::SlotMapKey;

/// Returns the number of bytes before the first `separator`.
#[inline(always)]
fn word_len(bytes: &[u8], separator: u8) -> usize
    ensures value { result ≡ position_or_len (λ byte. nat_eq byte separator) bytes.now }
    ensures within { result ≤ length bytes.now }
{
    let mut len = 0;
    while len < bytes.len() && bytes[len] != separator {
        len += 1;
    }
    len
}

/// Returns the first word of `bytes`, and the rest behind the space after it.
#[tactic(auto, using(crate::proofs::Words::words_split))]
#[inline]
pub(crate) fn split_word(bytes: &[u8]) -> (&[u8], Option<&[u8]>)
    ensures words { slice_split is_space bytes.now
        ≡ result.0.now ∷ words_after (option_copied result.1) }
    ensures len { length result.0.now + len_after (option_copied result.1) ≡ length bytes.now }
{
    let (word, rest) = bytes.split_at(word_len(bytes, b' '));
    if rest.is_empty() {
        (word, None)
    } else {
        (word, Some(&rest[1..]))
    }
}

/// Returns whether the words are equal.
#[inline(always)]
pub(crate) fn is_word(word: &[u8], other: &[u8]) -> bool
    ensures { result ≡ bytes_eq word.now other.now }
{
    match word.strip_prefix(other) {
        Some(rest) => rest.is_empty(),
        None => false,
    }
}

/// Returns `true` if `name` is the beginning of `line`. Most names differ in the first byte.
#[inline(always)]
fn begins_with(line: &[u8], name: &[u8]) -> bool
    ensures { result ≡ bytes_eq (take (length name.now) line.now) name.now }
{
    if line.len() < name.len() {
        return false;
    }
    for i in 0..name.len() {
        if line[i] != name[i] {
            return false;
        }
    }
    true
}

/// Returns the rest behind the space after `name`, if `line` begins with that word, or `Some(None)` if `name` is the whole line.
#[inline(always)]
pub(crate) fn after_name<'a>(line: &'a [u8], name: &[u8]) -> Option<Option<&'a [u8]>>
    requires { list_any is_space name.now ≡ false }
    ensures { MatchOption result (bytes_eq (first_word line.now) name.now ≡ false)
        (λ rest. IsAfterName line.now name.now (option_copied rest)) }
{
    if !begins_with(line, name) {
        return None;
    }
    let rest = &line[name.len()..];
    if rest.is_empty() {
        return Some(None);
    }
    if rest[0] != b' ' {
        return None;
    }
    Some(Some(&rest[1..]))
}

/// Returns the command, if no word is left.
#[inline]
pub(crate) fn alone<C: Copy>(rest: Option<&[u8]>, command: C) -> Option<C>
    ensures { result
        ≡ option_and_then (takes_none command) (numbers_in (words_after (option_copied rest.entry))) }
{
    match rest {
        Some(_) => None,
        None => Some(command),
    }
}

/// Returns the number, if one word is left and is a number.
#[tactic(auto, using(crate::proofs::Words::number_of_last))]
#[inline]
pub(crate) fn one_number(rest: Option<&[u8]>) -> Option<u64>
    ensures { result
        ≡ option_and_then (takes_one (λ n. n)) (numbers_in (words_after (option_copied rest.entry))) }
{
    number_in(rest?)
}

/// Returns the numbers, if two words are left and are numbers.
#[tactic(auto, using(crate::proofs::Words::two_after_number))]
#[inline]
pub(crate) fn two_numbers(rest: Option<&[u8]>) -> Option<(u64, u64)>
    ensures { result ≡ option_and_then (takes_two (λ n m. (n, m)))
        (numbers_in (words_after (option_copied rest.entry))) }
{
    let (word, rest) = split_word(rest?);
    let first = number_in(word)?;
    let second = one_number(rest)?;
    Some((first, second))
}

/// Returns the numbers, in `buffer`, if each word that is left is a number.
pub(crate) fn many_numbers<'a>(rest: Option<&[u8]>, buffer: &'a mut [u64]) -> Option<&'a [u64]>
    requires room { len_after (option_copied rest) ≤ 2 * length buffer.now }
    ensures { option_copied result ≡ numbers_in (words_after (option_copied rest.entry)) }
{
    let mut left = rest;
    let mut count = 0;
    while let Some(bytes) = left {
        let (word, more) = split_word(bytes);
        let number = number_in(word)?;
        buffer[count] = number;
        count += 1;
        left = more;
    }
    Some(&buffer[..count])
}

/// Returns the byte whose decimal text `word` is.
#[inline]
fn byte_in(word: &[u8]) -> Option<u8>
    ensures { result ≡ byte_of word.now }
{
    let number = number_in(word)?;
    if number > 255 {
        return None;
    }
    Some(number as u8)
}

/// Returns the byte, if one word is left and is a byte.
#[tactic(auto, using(crate::proofs::Words::byte_of_last))]
#[inline]
pub(crate) fn one_byte(rest: Option<&[u8]>) -> Option<u8>
    ensures { result ≡ option_and_then (one_byte (λ b. b))
        (numbers_in (words_after (option_copied rest.entry))) }
{
    byte_in(rest?)
}

/// Returns the number and the byte, if two words are left and are these.
#[tactic(auto, using(crate::proofs::Words::byte_after_number))]
#[inline]
pub(crate) fn number_and_byte(rest: Option<&[u8]>) -> Option<(u64, u8)>
    ensures { result ≡ option_and_then (number_byte (λ n b. (n, b)))
        (numbers_in (words_after (option_copied rest.entry))) }
{
    let (word, rest) = split_word(rest?);
    let number = number_in(word)?;
    let byte = one_byte(rest)?;
    Some((number, byte))
}

/// Returns the key whose text `word` is: an index and a generation, with a colon between.
#[tactic(auto, using(crate::proofs::Keys::key_cut))]
pub(crate) fn key_in(word: &[u8]) -> Option<SlotMapKey>
    ensures { result ≡ key_of word.now }
{
    let (index, rest) = word.split_at(word_len(word, b':'));
    if rest.is_empty() {
        return None;
    }
    let index = number_in(index)?;
    let generation = number_in(&rest[1..])?;
    if generation > u32::MAX as u64 {
        return None;
    }
    Some(SlotMapKey::new(index as usize, generation as u32))
}

/// Returns the bytes, in `buffer`, if each word that is left is a byte.
pub(crate) fn bytes_of_words<'a>(rest: Option<&[u8]>, buffer: &'a mut [u8]) -> Option<&'a [u8]>
    requires room { len_after (option_copied rest) ≤ 2 * length buffer.now }
    ensures { option_copied result
        ≡ option_and_then (many_bytes (λ bs. bs))
        (numbers_in (words_after (option_copied rest.entry))) }
{
    let mut left = rest;
    let mut count = 0;
    while let Some(bytes) = left {
        let (word, more) = split_word(bytes);
        let byte = byte_in(word)?;
        buffer[count] = byte;
        count += 1;
        left = more;
    }
    Some(&buffer[..count])
}

/// Returns the number, and the bytes in `buffer`, if the words that are left are a number and bytes.
#[tactic(auto, using(crate::proofs::Words::bytes_after_number))]
#[inline]
pub(crate) fn number_and_bytes<'a>(
    rest: Option<&[u8]>,
    buffer: &'a mut [u8],
) -> Option<(u64, &'a [u8])>
    requires room { len_after (option_copied rest) ≤ 2 * length buffer.now }
    ensures { option_map {U = ℕ × List ℕ} (λ r. (r.0, r.1.now)) result
        ≡ option_and_then {U = ℕ × List ℕ} (number_many_bytes (λ n bs. (n, bs)))
        (numbers_in (words_after (option_copied rest.entry))) }
{
    let (word, rest) = split_word(rest?);
    let number = number_in(word)?;
    let bytes = bytes_of_words(rest, buffer)?;
    Some((number, bytes))
}
