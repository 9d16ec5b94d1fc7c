//! Writing formatted text to heap strings, and borrowing them as string slices and bytes.
ghost use Rattle.std.specs.Prelude.{◌≡◌, ◌↔◌, length, IsOk, OnErr};
ghost use Rattle.ix_tables.specs.Bounded.{IsWithin};
ghost use Rattle.ix_vector.specs.VectorSteps.{HasRoomFor, vec_extend};
ghost use Rattle.ix_string.specs.Text.{IsText};

use crate::string::writing::write_to;
use crate::string::{HeapString, HeapStringKind, String};
use std::alloc::Allocator;
use std::convert::{AsSlice, AsStr};
use std::fmt;
use std::ops::DerefStr;

/// With `use std::fmt::Write;`, `write!(string, "{n}")` appends the text piece by piece. It returns an error at the first piece
/// that does not fit or has a byte that is 0 or above 127. The pieces before that one stay in the string, and no other is
/// appended. It does not allocate.
impl<K: HeapStringKind, A: Allocator> fmt::Write for HeapString<K, A> {
    ghost write_str_gives = { λ string text after. after ≡ vec_extend string text };

    /// Appends `text`, or returns an error and leaves the string unchanged, as [`String::push_str`] does.
    /// O(`text.len()`).
    #[inline]
    fn write_str(&mut self, text: &str) -> fmt::Result
        ensures value { IsOk result ↔ HasRoomFor (length text.now) self.old × IsText text.now }
        ensures string { IsOk result → self.new ≡ vec_extend self.old text.now }
        ensures refused { OnErr result (self.new ≡ self.old) }
    {
        write_to(self, text)
    }
}

/// Lends the bytes as a string slice, as [`String::as_str`] does.
impl<K: HeapStringKind, A: Allocator> AsStr for HeapString<K, A> {
    ghost text = { λ string. string.items };

    #[inline]
    fn as_str(&self) -> &str
        ensures value { result.now ≡ self.now.items }
        ensures within { IsWithin self.now }
    {
        String::as_str(self)
    }
}

/// Lends the bytes, as [`String::as_bytes`] does.
impl<K: HeapStringKind, A: Allocator> AsSlice<u8> for HeapString<K, A> {
    ghost items = { λ string. string.items };

    #[inline]
    fn as_slice(&self) -> &[u8]
        ensures value { result.now ≡ self.now.items }
        ensures within { IsWithin self.now }
    {
        self.as_bytes()
    }
}

/// Has the methods of `str` that the trait [`String`] does not have, such as `trim` and `parse`.
impl<K: HeapStringKind, A: Allocator> DerefStr for HeapString<K, A> {
    ghost deref_gives = { λ string text. text ≡ string.items };

    #[inline]
    fn deref(&self) -> &str
        ensures value { result.now ≡ self.now.items }
        ensures within { IsWithin self.now }
    {
        AsStr::as_str(self)
    }
}
