//! The words of a cell's bytes, eight bytes a word, the least byte first.
ghost use Rattle.std.specs.Prelude.{◌≡◌, ℕ, ◌+◌, ◌-◌, ◌*◌, ◌<◌, min, ◌∷◌, ◌++◌, length, take, drop, slice_index, IfOk};
ghost use Rattle.ix_atomic.specs.Words.{word_of, bytes_of_word};
ghost use Rattle.ix_atomic.specs.inner.DataWords.{words_of};

use crate::byte_atomic::{pack_word, unpack_word};
use std::alloc::{AllocError, Allocator};

/// Returns the word of the eight bytes from `8 * index` on, or of as many as there are. O(1).
#[inline]
pub(crate) fn word_at(bytes: &[u8], index: usize) -> u64
    requires { 8 * index < length bytes.now }
    ensures value { result ≡ word_of (take 8 (drop (8 * index) bytes.now)) }
    ensures byte_range { (index : ℕ) → slice_index bytes.now index < 256 }
{
    let start = 8 * index;
    let end = start + (bytes.len() - start).min(8);
    pack_word(&bytes[start..end])
}

/// Writes the bytes of `word` from `8 * index` on, eight of them or as many as there is room for. O(1).
#[inline]
pub(crate) fn set_word_at(bytes: &mut [u8], index: usize, word: u64)
    requires { 8 * index < length bytes.old }
    ensures bytes { bytes.new ≡ take (8 * index) bytes.old
        ++ (bytes_of_word (min 8 (length bytes.old - 8 * index)) word
        ++ drop (8 * index + 8) bytes.old) }
{
    let start = 8 * index;
    let end = start + (bytes.len() - start).min(8);
    unpack_word(word, &mut bytes[start..end]);
}

/// Returns the words of a new cell: version 0, and the words of the bytes. O(`bytes.len()`).
pub(crate) fn new_words<A: Allocator>(alloc: A, bytes: &[u8]) -> Result<Vec<u64, A>, AllocError>
    ensures words { IfOk result (λ words. words.items ≡ 0 ∷ words_of bytes.now) }
    ensures byte_range { (index : ℕ) → slice_index bytes.now index < 256 }
{
    let mut words = Vec::new(alloc);
    words.push(0)?;
    for i in 0..bytes.len().div_ceil(8) {
        words.push(word_at(bytes, i))?;
    }
    Ok(words)
}
