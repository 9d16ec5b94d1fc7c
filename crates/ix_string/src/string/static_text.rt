//! Writing formatted text to fixed strings, and borrowing them as string slices and bytes.
ghost use Rattle.std.specs.Prelude.{◌≡◌, ◌+◌, ◌≤◌, ◌↔◌, ◌++◌, length, IsOk, OnErr};
ghost use Rattle.ix_string.specs.Text.{IsText};

use crate::string::writing::write_to;
use crate::string::{StaticString, String};
use std::convert::{AsSlice, AsStr};
use std::fmt;
use std::ops::DerefStr;

/// With `use std::fmt::Write;`, `write!(string, "{n}")` appends the text piece by piece. It returns an error at the first piece
/// that does not fit or has a byte that is 0 or above 127. The pieces before that one stay in the string, and no other is appended.
impl<const CAPACITY: usize> fmt::Write for StaticString<CAPACITY> {
    ghost write_str_gives = { λ string text after. after ≡ string ++ text };

    /// Appends `text`, or returns an error and leaves the string unchanged, as [`String::push_str`] does.
    /// O(`text.len()`).
    #[inline]
    fn write_str(&mut self, text: &str) -> fmt::Result
        ensures value { IsOk result
            ↔ (length self.old + length text.now ≤ CAPACITY) × IsText text.now }
        ensures string { IsOk result → self.new ≡ self.old ++ text.now }
        ensures refused { OnErr result (self.new ≡ self.old) }
    {
        write_to(self, text)
    }
}

/// Lends the bytes as a string slice, as [`String::as_str`] does.
impl<const CAPACITY: usize> AsStr for StaticString<CAPACITY> {
    ghost text = { λ string. string };

    #[inline]
    fn as_str(&self) -> &str
        ensures value { result.now ≡ self.now }
        ensures within { length self.now ≤ CAPACITY }
    {
        String::as_str(self)
    }
}

/// Lends the bytes, as [`String::as_bytes`] does.
impl<const CAPACITY: usize> AsSlice<u8> for StaticString<CAPACITY> {
    ghost items = { λ string. string };

    #[inline]
    fn as_slice(&self) -> &[u8]
        ensures value { result.now ≡ self.now }
        ensures within { length self.now ≤ CAPACITY }
    {
        self.as_bytes()
    }
}

/// Has the methods of `str` that the trait [`String`] does not have, such as `trim` and `parse`.
impl<const CAPACITY: usize> DerefStr for StaticString<CAPACITY> {
    ghost deref_gives = { λ string text. text ≡ string };

    #[inline]
    fn deref(&self) -> &str
        ensures value { result.now ≡ self.now }
        ensures within { length self.now ≤ CAPACITY }
    {
        AsStr::as_str(self)
    }
}
