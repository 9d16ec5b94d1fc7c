//! The trait of all strings.
ghost use Rattle.std.specs.Prelude.{ℕ, ◌≡◌, ◌+◌, ◌-◌, ◌<◌, ◌≤◌, ◌↔◌, [], ◌∷◌, ◌++◌, length, drop, Some, IsTrue, IsSome, IfSome, IfNone, OnSome, OnErr, slice_get, ◌==◌, Bool, filter, not};
ghost use Rattle.std.specs.Bool.{OnTrue, OnFalse};
ghost use Rattle.std.specs.Str.Iter.{HasSubslice};
ghost use Rattle.ix_tables.specs.Bounded.{Bounded, IsWithin, IsFull, with_items};
ghost use Rattle.ix_vector.specs.VectorSteps.{HasRoomFor, vec_remove, vec_pop, vec_last, vec_truncate};
ghost use Rattle.ix_string.specs.Escape.{escaped_text};
ghost use Rattle.ix_string.specs.Text.{IsText, text_eq, text_cmp, MatchesAt, IsFirstMatch, IsLastMatch, EndsWith};
ghost use Rattle.ix_string.specs.Retain.{IsCallableAtText, Retains};
ghost use Rattle.ix_string.specs.TextSteps.{text_insert_slice, text_insert, text_insert_result, IsRangeOf, text_remove_range};

use crate::string::StringModificationError;
use crate::string::text::is_text;
use memchr::memmem;
use std::cmp::Ordering;
use std::fmt::{Debug, Display};
use std::hash::Hash;
use std::str;

/// A list of bytes from 1 to 127, with a capacity that their number does not exceed. Contracts see it as a bounded
/// list.
///
/// The room for `capacity` bytes is there once the string is made, so no method of this trait allocates. A method that returns an
/// error, `None` or `false` leaves the string unchanged. Lengths and indexes are counted in bytes, and indexes start at 0.
///
/// Strings are compared and hashed by their bytes. For strings in allocated memory, the capacities do not matter. `Display` prints
/// the bytes escaped, as [`as_escaped_string`](crate::as_escaped_string) does.
///
/// This is `String` of iceoryx2-bb-container.
pub trait String: Debug + Display + Eq + Ord + Hash {
    /// The bytes, and the capacity.
    ghost bounded: { Self → Bounded ℕ };

    /// Returns the bytes. O(1).
    #[must_use]
    fn as_bytes(&self) -> &[u8]
        ensures value { result.now ≡ (bounded self.now).items }
        ensures text { IsText result.now }
        ensures within { IsWithin (bounded self.now) };

    /// Returns the maximum number of bytes. O(1).
    #[must_use]
    fn capacity(&self) -> usize
        ensures { result ≡ (bounded self.now).capacity };

    /// Returns the number of bytes. O(1).
    #[must_use]
    fn len(&self) -> usize
        ensures value { result ≡ length (bounded self.now).items }
        ensures within { IsWithin (bounded self.now) };

    /// Inserts `bytes` at index `idx`, shifting all later bytes to the right, without checking that they fit and are
    /// from 1 to 127. O(`len - idx + bytes.len()`).
    fn insert_bytes_unchecked(&mut self, idx: usize, bytes: &[u8])
        requires index { idx ≤ length (bounded self.old).items }
        requires room { HasRoomFor (length bytes.now) (bounded self.old) }
        requires text { IsText bytes.now }
        ensures { bounded self.new ≡ text_insert_slice (bounded self.old) idx bytes.now };

    /// Removes the `n` bytes from index `idx` on, shifting all later bytes to the left, and returns `true`. Returns
    /// `false` if there are fewer than `n` bytes from `idx` on, or if `idx` is greater than the length. O(`len - idx`).
    #[must_use]
    fn remove_range(&mut self, idx: usize, n: usize) -> bool
        ensures value { IsTrue result ↔ IsRangeOf (bounded self.old) idx n }
        ensures string { OnTrue result
            (bounded self.new ≡ text_remove_range (bounded self.old) idx n) }
        ensures refused { OnFalse result (self.new ≡ self.old) }
        ensures no_bytes { n ≡ 0 → self.new ≡ self.old };

    /// Returns the bytes as a string slice. O(1).
    #[inline]
    #[must_use]
    final fn as_str(&self) -> &str
        ensures value { result.now ≡ (bounded self.now).items }
        ensures within { IsWithin (bounded self.now) }
    {
        // SAFETY: bytes from 1 to 127 are UTF-8.
        unsafe { str::from_utf8_unchecked(self.as_bytes()) }
    }

    /// Returns `true` if the string has no bytes. O(1).
    #[inline]
    #[must_use]
    final fn is_empty(&self) -> bool
        ensures { IsTrue result ↔ ((bounded self.now).items ≡ []) }
    {
        self.len() == 0
    }

    /// Returns `true` if the length equals the capacity. A string of capacity 0 is both empty and full. O(1).
    #[inline]
    #[must_use]
    final fn is_full(&self) -> bool
        ensures value { IsTrue result ↔ IsFull (bounded self.now) }
        ensures room { OnFalse result
            (length (bounded self.now).items < (bounded self.now).capacity) }
    {
        self.len() == self.capacity()
    }

    /// Returns how many more bytes fit, `capacity - len`. O(1).
    #[inline]
    #[must_use]
    final fn remaining_capacity(&self) -> usize
        ensures { length (bounded self.now).items + result ≡ (bounded self.now).capacity }
    {
        self.capacity() - self.len()
    }

    /// Inserts `bytes` at index `idx`, which is at most the length, shifting all later bytes to the right.
    /// O(`len - idx + bytes.len()`).
    ///
    /// Returns [`StringModificationError::InsertWouldExceedCapacity`] if the bytes do not fit, and otherwise
    /// [`StringModificationError::InvalidCharacter`] if one of them is 0 or above 127.
    final fn insert_bytes(
        &mut self,
        idx: usize,
        bytes: &[u8],
    ) -> Result<(), StringModificationError>
        requires { idx ≤ length (bounded self.old).items }
        ensures value { result ≡ text_insert_result (bounded self.old) bytes.now }
        ensures string { bounded self.new ≡ text_insert (bounded self.old) idx bytes.now }
        ensures refused { OnErr result (self.new ≡ self.old) }
    {
        if bytes.len() > self.remaining_capacity() {
            return Err(StringModificationError::InsertWouldExceedCapacity);
        }
        if !is_text(bytes) {
            return Err(StringModificationError::InvalidCharacter);
        }
        self.insert_bytes_unchecked(idx, bytes);
        Ok(())
    }

    /// Inserts `byte` at index `idx`, which is at most the length, shifting all later bytes to the right.
    /// O(`len - idx`).
    ///
    /// Returns [`StringModificationError::InsertWouldExceedCapacity`] if the string is full, and otherwise
    /// [`StringModificationError::InvalidCharacter`] if the byte is 0 or above 127.
    #[inline]
    final fn insert(&mut self, idx: usize, byte: u8) -> Result<(), StringModificationError>
        requires { idx ≤ length (bounded self.old).items }
        ensures value { result ≡ text_insert_result (bounded self.old) (byte ∷ []) }
        ensures string { bounded self.new ≡ text_insert (bounded self.old) idx (byte ∷ []) }
        ensures refused { OnErr result (self.new ≡ self.old) }
    {
        self.insert_bytes(idx, &[byte])
    }

    /// Appends `bytes`. O(`bytes.len()`).
    ///
    /// Returns the errors of [`String::insert_bytes`].
    #[inline]
    final fn push_bytes(&mut self, bytes: &[u8]) -> Result<(), StringModificationError>
        ensures value { result ≡ text_insert_result (bounded self.old) bytes.now }
        ensures string { bounded self.new
            ≡ text_insert (bounded self.old) (length (bounded self.old).items) bytes.now }
        ensures refused { OnErr result (self.new ≡ self.old) }
    {
        self.insert_bytes(self.len(), bytes)
    }

    /// Appends `text`. O(`text.len()`).
    ///
    /// Returns the errors of [`String::insert_bytes`].
    #[inline]
    final fn push_str(&mut self, text: &str) -> Result<(), StringModificationError>
        ensures value { result ≡ text_insert_result (bounded self.old) text.now }
        ensures string { bounded self.new
            ≡ text_insert (bounded self.old) (length (bounded self.old).items) text.now }
        ensures refused { OnErr result (self.new ≡ self.old) }
    {
        self.push_bytes(text.as_bytes())
    }

    /// Appends `byte`. O(1).
    ///
    /// Returns the errors of [`String::insert`].
    #[inline]
    final fn push(&mut self, byte: u8) -> Result<(), StringModificationError>
        ensures value { result ≡ text_insert_result (bounded self.old) (byte ∷ []) }
        ensures string { bounded self.new
            ≡ text_insert (bounded self.old) (length (bounded self.old).items) (byte ∷ []) }
        ensures refused { OnErr result (self.new ≡ self.old) }
    {
        self.insert_bytes(self.len(), &[byte])
    }

    /// Removes the byte at index `idx`, shifting all later bytes to the left, and returns it, or `None` if `idx` is out
    /// of bounds. O(`len - idx`).
    final fn remove(&mut self, idx: usize) -> Option<u8>
        ensures value { result ≡ slice_get (bounded self.old).items idx }
        ensures string { bounded self.new ≡ vec_remove (bounded self.old) idx }
        ensures refused { IfNone result (self.new ≡ self.old) }
    {
        if idx < self.len() {
            let byte = self.as_bytes()[idx];
            let _ = self.remove_range(idx, 1);
            return Some(byte);
        }
        None
    }

    /// Removes the last byte and returns it, or `None` if the string is empty. O(1).
    final fn pop(&mut self) -> Option<u8>
        ensures value { result ≡ vec_last (bounded self.old) }
        ensures string { bounded self.new ≡ vec_pop (bounded self.old) }
        ensures refused { IfNone result (self.new ≡ self.old) }
    {
        let len = self.len();
        if len == 0 {
            return None;
        }
        self.remove(len - 1)
    }

    /// Shortens the string, keeping the first `n` bytes. Does nothing if `n` is greater than or equal to the length.
    /// O(`len - n`).
    final fn truncate(&mut self, n: usize)
        ensures string { bounded self.new ≡ vec_truncate (bounded self.old) n }
        ensures unchanged { length (bounded self.old).items ≤ n → self.new ≡ self.old }
    {
        let len = self.len();
        if n < len {
            let _ = self.remove_range(n, len - n);
        }
    }

    /// Removes all bytes. Does nothing if the string is empty. O(`len`).
    final fn clear(&mut self)
        ensures string { bounded self.new ≡ with_items (bounded self.old) [] }
        ensures unchanged { (bounded self.old).items ≡ [] → self.new ≡ self.old }
    {
        self.truncate(0);
    }

    /// Returns the least index at which `needle` occurs, or `None` if it does not occur. An empty `needle` occurs at 0.
    /// O(`len + needle.len()`).
    #[must_use]
    final fn find(&self, needle: &[u8]) -> Option<usize>
        ensures { IsFirstMatch (bounded self.now).items needle.now result }
    {
        memmem::find(self.as_bytes(), needle)
    }

    /// Returns the greatest index at which `needle` occurs, or `None` if it does not occur. An empty `needle` occurs at
    /// `len`. O(`len + needle.len()`).
    #[must_use]
    final fn rfind(&self, needle: &[u8]) -> Option<usize>
        ensures { IsLastMatch (bounded self.now).items needle.now result }
    {
        memmem::rfind(self.as_bytes(), needle)
    }

    /// Returns `true` if `needle` occurs in the string. An empty `needle` occurs in every string.
    /// O(`len + needle.len()`).
    #[must_use]
    final fn contains(&self, needle: &[u8]) -> bool
        ensures { IsTrue result ↔ HasSubslice (bounded self.now).items needle.now }
    {
        self.find(needle).is_some()
    }

    /// Returns `true` if the string starts with `bytes`. Every string starts with an empty `bytes`. O(`bytes.len()`).
    #[inline]
    #[must_use]
    final fn starts_with(&self, bytes: &[u8]) -> bool
        ensures { IsTrue result ↔ MatchesAt (bounded self.now).items bytes.now 0 }
    {
        self.as_bytes().starts_with(bytes)
    }

    /// Returns `true` if the string ends with `bytes`. Every string ends with an empty `bytes`. O(`bytes.len()`).
    #[inline]
    #[must_use]
    final fn ends_with(&self, bytes: &[u8]) -> bool
        ensures { IsTrue result ↔ EndsWith (bounded self.now).items bytes.now }
    {
        self.as_bytes().ends_with(bytes)
    }

    /// Removes `bytes` from the start of the string and returns `true`. Returns `false` if the string does not start
    /// with them. O(`len`).
    final fn strip_prefix(&mut self, bytes: &[u8]) -> bool
        ensures value { IsTrue result ↔ MatchesAt (bounded self.old).items bytes.now 0 }
        ensures string { OnTrue result
            (bounded self.new ≡ text_remove_range (bounded self.old) 0 (length bytes.now)) }
        ensures refused { OnFalse result (self.new ≡ self.old) }
        ensures no_bytes { bytes.now ≡ [] → self.new ≡ self.old }
    {
        if self.starts_with(bytes) {
            return self.remove_range(0, bytes.len());
        }
        false
    }

    /// Removes `bytes` from the end of the string and returns `true`. Returns `false` if the string does not end with
    /// them. O(`bytes.len()`).
    final fn strip_suffix(&mut self, bytes: &[u8]) -> bool
        ensures value { IsTrue result ↔ EndsWith (bounded self.old).items bytes.now }
        ensures string { OnTrue result (bounded self.new ≡ vec_truncate (bounded self.old)
            (length (bounded self.old).items - length bytes.now)) }
        ensures refused { OnFalse result (self.new ≡ self.old) }
        ensures no_bytes { bytes.now ≡ [] → self.new ≡ self.old }
    {
        if self.ends_with(bytes) {
            self.truncate(self.len() - bytes.len());
            return true;
        }
        false
    }

    /// Removes each byte for which `f` returns `true`, keeping the order of the others. `f` is called once for each
    /// byte, from the last to the first. O(`len`).
    fn remove_if<F: FnMut(u8) -> bool>(&mut self, f: F)
        requires { IsCallableAtText F.step F.pre (bounded self.old).items f }
        ensures string { Retains F.step f (bounded self.old).items (bounded self.new).items }
        // If `f` returns `true` exactly for the bytes that do not pass `kept`, and stays as it was, the bytes that pass `kept` are
        // left.
        ensures filtered { (kept : ℕ → Bool)
            → ((byte : ℕ) (removed : Bool) (next : F) → F.step f byte removed next
            → (not removed ≡ kept byte) × (next ≡ f))
            → (bounded self.new).items ≡ filter kept (bounded self.old).items }
        ensures capacity { (bounded self.new).capacity ≡ (bounded self.old).capacity }
        ensures refused { (bounded self.new).items ≡ (bounded self.old).items
            → self.new ≡ self.old };

    /// Removes the bytes for which `f` returns `true`, as [`String::remove_if`] does. The `retain` of std keeps those bytes
    /// instead. O(`len`).
    ///
    /// This is `retain` of iceoryx2-bb-container, whose code does this and whose documentation says the contrary.
    #[inline]
    final fn retain<F: FnMut(u8) -> bool>(&mut self, f: F)
        requires { IsCallableAtText F.step F.pre (bounded self.old).items f }
        ensures string { Retains F.step f (bounded self.old).items (bounded self.new).items }
        // If `f` returns `true` exactly for the bytes that do not pass `kept`, and stays as it was, the bytes that pass `kept` are
        // left.
        ensures filtered { (kept : ℕ → Bool)
            → ((byte : ℕ) (removed : Bool) (next : F) → F.step f byte removed next
            → (not removed ≡ kept byte) × (next ≡ f))
            → (bounded self.new).items ≡ filter kept (bounded self.old).items }
        ensures capacity { (bounded self.new).capacity ≡ (bounded self.old).capacity }
        ensures refused { (bounded self.new).items ≡ (bounded self.old).items
            → self.new ≡ self.old }
    {
        self.remove_if(f);
    }

    /// Copies the bytes and then a zero to the start of `out`, and returns the number of copied bytes, `len + 1`. Returns `None`,
    /// and leaves `out` unchanged, if `out` is shorter. The rest of `out` is left unchanged. O(`len`).
    #[must_use]
    final fn copy_with_nul(&self, out: &mut [u8]) -> Option<usize>
        ensures variant { IsSome result ↔ (length (bounded self.now).items < length out.old) }
        ensures value { IfSome result (λ n. n ≡ length (bounded self.now).items + 1) }
        ensures copy { OnSome result (out.new ≡ ((bounded self.now).items ++ 0 ∷ [])
            ++ drop (length (bounded self.now).items + 1) out.old) }
        ensures refused { IfNone result (out.new ≡ out.old) }
    {
        let bytes = self.as_bytes();
        let len = bytes.len();
        if len >= out.len() {
            return None;
        }
        out[..len].copy_from_slice(bytes);
        out[len] = 0;
        Some(len + 1)
    }

    /// Returns `true` if the bytes are equal to `other`. O(`len`).
    #[inline]
    #[must_use]
    final fn eq_bytes(&self, other: &[u8]) -> bool
        ensures { IsTrue result ↔ ((bounded self.now).items ≡ other.now) }
    {
        self.as_bytes() == other
    }

    /// Returns `true` if the bytes are equal to those of `other`. O(`len`).
    #[inline]
    #[must_use]
    final fn eq_str(&self, other: &str) -> bool
        ensures { IsTrue result ↔ ((bounded self.now).items ≡ other.now) }
    {
        self.eq_bytes(other.as_bytes())
    }

    /// Compares the bytes with `other`: by the first byte that differs, and otherwise the shorter one is less.
    /// O(`len`).
    #[inline]
    #[must_use]
    final fn cmp_bytes(&self, other: &[u8]) -> Ordering
        ensures { result ≡ text_cmp (bounded self.now).items other.now }
    {
        self.as_bytes().cmp(&other)
    }

    /// Strings are equal if their bytes are.
    ghost eq_by_bytes: { (a b : Self)
        → Self.PartialEq.eq a b ≡ text_eq (bounded a).items (bounded b).items };

    /// Strings are ordered as their bytes are.
    ghost cmp_by_bytes: { (a b : Self)
        → Self.Ord.cmp a b ≡ text_cmp (bounded a).items (bounded b).items };

    /// The bytes are fed to a hasher in one write.
    ghost hash_input_by_bytes: { (a : Self) → Self.Hash.hash_input a ≡ (bounded a).items ∷ [] };

    /// `Display` prints the bytes escaped.
    ghost output_by_bytes: { (a : Self)
        → Self.Display.output a ≡ Some (escaped_text (bounded a).items) };
}
