//! The string that is stored inline.
ghost use Rattle.std.specs.Prelude.{◌≡◌, ◌≤◌, ◌↔◌, [], length, take, refl, IsOk, IfOk, IfErr};
ghost use Rattle.ix_string.specs.Text.{IsText, before_nul};
ghost use Rattle.ix_string.specs.TextSteps.{StringFromBytes};
ghost use Rattle.ix_string.specs.declared.string.modification_error.StringModificationError.TheVariants.{InvalidCharacter};

use crate::string::gaps::{close_gap_with_zeros, open_gap};
use crate::string::retain::move_kept_back;
use crate::string::text::is_text;
use crate::string::{String, StringModificationError, strnlen};
use std::marker::Model;

/// A string of at most `CAPACITY` bytes that is stored inline, can be copied and does not allocate. Contracts see it as the list of
/// its bytes: `string` in a contract is that list, with no field `items`. `bounded` of [`String`] has the bytes and the capacity.
///
/// `CAPACITY` can be any number, including 0. The unused bytes of the `CAPACITY` bytes are zeros.
///
/// This is `StaticString` of iceoryx2-bb-container.
#[derive(Clone, Copy)]
pub struct StaticString<const CAPACITY: usize> {
    bytes: [u8; CAPACITY],
    count: usize,
}

impl<const CAPACITY: usize> Model for StaticString<CAPACITY> {
    ghost use Rattle.std.specs.Prelude.{ℕ, List, length, take};
    ghost use Rattle.std.proofs.Common.{sym, arith, length-take-le};
    ghost use Rattle.ix_string.specs.Text.{padded_text};
    ghost use Rattle.ix_string.specs.inner.Padding.{IsPadded};

    ghost Value = { List ℕ };

    ghost view = { λ string. take string.count string.bytes };

    ghost invariant = { λ string. IsPadded CAPACITY string.count string.bytes };

    ghost inverse = { λ text. record { bytes = padded_text CAPACITY text; count = length text } };

    ghost inverse_ok = { λ string is i. record {
      bytes = sym is.zeros i;
      count = length-take-le string.count string.bytes (omega (arith, is.within, is.whole)) i;
    } };
}

impl<const CAPACITY: usize> StaticString<CAPACITY> {
    /// Creates an empty string. O(`CAPACITY`).
    pub fn new() -> Self
        ensures { result ≡ [] }
    {
        StaticString {
            bytes: [0; CAPACITY],
            count: 0,
        }
    }

    /// Returns the maximum number of bytes, `CAPACITY`. O(1).
    #[inline]
    #[must_use]
    pub const fn capacity() -> usize
        ensures { result ≡ CAPACITY }
    {
        CAPACITY
    }

    /// Creates a string that holds the first `n` bytes. Does not check that `bytes` fits, that it has `n` bytes, and that those are
    /// from 1 to 127. O(`CAPACITY`).
    pub fn from_bytes_unchecked_restricted(bytes: &[u8], n: usize) -> Self
        requires room { length bytes.now ≤ CAPACITY }
        requires kept { n ≤ length bytes.now }
        requires text { IsText (take n bytes.now) }
        ensures { result ≡ take n bytes.now }
    {
        let mut buffer = [0; CAPACITY];
        buffer[..n].copy_from_slice(&bytes[..n]);
        StaticString {
            bytes: buffer,
            count: n,
        }
    }

    /// Creates a string that holds the bytes, without checking that they fit and are from 1 to 127. O(`CAPACITY`).
    pub fn from_bytes_unchecked(bytes: &[u8]) -> Self
        requires room { length bytes.now ≤ CAPACITY }
        requires text { IsText bytes.now }
        ensures { result ≡ bytes.now }
    {
        StaticString::from_bytes_unchecked_restricted(bytes, bytes.len())
    }

    /// Creates a string that holds the bytes. O(`CAPACITY`).
    ///
    /// Returns [`StringModificationError::InsertWouldExceedCapacity`] if there are more than `CAPACITY` bytes, and
    /// otherwise [`StringModificationError::InvalidCharacter`] if one of them is 0 or above 127.
    pub fn from_bytes(bytes: &[u8]) -> Result<Self, StringModificationError>
        ensures { StringFromBytes CAPACITY bytes.now result }
    {
        if bytes.len() > CAPACITY {
            return Err(StringModificationError::InsertWouldExceedCapacity);
        }
        if !is_text(bytes) {
            return Err(StringModificationError::InvalidCharacter);
        }
        Ok(StaticString::from_bytes_unchecked(bytes))
    }

    /// Creates a string that holds the first `CAPACITY` bytes, or all bytes if there are fewer. O(`CAPACITY`).
    ///
    /// Returns [`StringModificationError::InvalidCharacter`] if one of these is 0 or above 127. The other bytes are
    /// ignored.
    pub fn from_bytes_truncated(bytes: &[u8]) -> Result<Self, StringModificationError>
        ensures value { IsOk result ↔ IsText (take CAPACITY bytes.now) }
        ensures ok { IfOk result (λ string. string ≡ take CAPACITY bytes.now) }
        ensures err { IfErr result (λ error. error ≡ InvalidCharacter) }
    {
        let n = bytes.len().min(CAPACITY);
        StaticString::from_bytes(&bytes[..n])
    }

    /// Creates a string that holds the first `CAPACITY` bytes of `text`, or all bytes if there are fewer. O(`CAPACITY`).
    ///
    /// Returns the error of [`StaticString::from_bytes_truncated`].
    pub fn from_str_truncated(text: &str) -> Result<Self, StringModificationError>
        ensures value { IsOk result ↔ IsText (take CAPACITY text.now) }
        ensures ok { IfOk result (λ string. string ≡ take CAPACITY text.now) }
        ensures err { IfErr result (λ error. error ≡ InvalidCharacter) }
    {
        StaticString::from_bytes_truncated(text.as_bytes())
    }

    /// Creates a string that holds the bytes before the first zero, or all bytes if there is no zero.
    /// O(`bytes.len() + CAPACITY`).
    ///
    /// Returns the errors of [`StaticString::from_bytes`].
    pub fn from_c_str(bytes: &[u8]) -> Result<Self, StringModificationError>
        ensures { StringFromBytes CAPACITY (before_nul bytes.now) result }
    {
        StaticString::from_bytes(&bytes[..strnlen(bytes, bytes.len())])
    }

    /// Returns the bytes. O(1).
    ///
    /// [`String::as_bytes`] is the same method of the trait.
    #[inline]
    #[must_use]
    pub fn as_bytes_const(&self) -> &[u8]
        ensures value { result.now ≡ self.now }
        ensures text { IsText result.now }
        ensures within { length self.now ≤ CAPACITY }
    {
        &self.bytes[..self.count]
    }
}

impl<const CAPACITY: usize> String for StaticString<CAPACITY> {
    ghost bounded = { λ string. record { items = string; capacity = CAPACITY } };

    ghost eq_by_bytes = { λ _ _. refl };

    ghost cmp_by_bytes = { λ _ _. refl };

    ghost hash_input_by_bytes = { λ _. refl };

    ghost output_by_bytes = { λ _. refl };

    #[inline]
    fn as_bytes(&self) -> &[u8] {
        self.as_bytes_const()
    }

    #[inline]
    fn capacity(&self) -> usize {
        Self::capacity()
    }

    #[inline]
    fn len(&self) -> usize {
        self.count
    }

    fn insert_bytes_unchecked(&mut self, idx: usize, bytes: &[u8]) {
        let len = self.count;
        open_gap(&mut self.bytes, idx, len, bytes);
        self.count = len + bytes.len();
    }

    fn remove_range(&mut self, idx: usize, n: usize) -> bool {
        let len = self.count;
        if idx > len || n > len - idx {
            return false;
        }
        close_gap_with_zeros(&mut self.bytes, idx, n, len);
        self.count = len - n;
        true
    }

    fn remove_if<F: FnMut(u8) -> bool>(&mut self, f: F) {
        let len = self.count;
        let start = move_kept_back(&mut self.bytes[..len], f);
        close_gap_with_zeros(&mut self.bytes, 0, start, len);
        self.count = len - start;
    }
}
