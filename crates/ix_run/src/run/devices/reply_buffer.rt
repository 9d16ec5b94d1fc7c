//! Replies in a buffer.
ghost use Rattle.std.specs.Prelude.{ℕ, ◌≡◌, ◌≤◌, ◌+◌, ◌++◌, ◌↔◌, List, [], IsTrue, length, take, decimal};
ghost use Rattle.ix_run.specs.declared.run.devices.limits.TheConstants.{BUFFER_LEN, MAX_DIGITS, MAX_REPLY_LEN};

use crate::run::devices::limits::{BUFFER_LEN, MAX_DIGITS, MAX_REPLY_LEN};
use std::marker::Model;

/// A part of a reply that is appended at once: at most [`MAX_REPLY_LEN`] bytes.
pub(crate) trait ReplyPart {
    /// Its bytes.
    ghost text: { Self → List ℕ };

    /// Appends the bytes, for which there is room.
    fn put_into(self, replies: &mut ReplyBuffer)
        requires { length replies.old + MAX_REPLY_LEN ≤ BUFFER_LEN }
        ensures { replies.new ≡ replies.old ++ text self };
}

/// Bytes of replies, at most [`BUFFER_LEN`], so that one write carries many of them.
#[derive(Drop)]
pub(crate) struct ReplyBuffer {
    bytes: [u8; BUFFER_LEN],
    len: usize,
}

impl Model for ReplyBuffer {
    ghost use Rattle.std.specs.Prelude.{ℕ, ◌≡◌, ◌≤◌, List, length, take};
    ghost use Rattle.ix_run.specs.declared.run.devices.limits.TheConstants.{BUFFER_LEN};

    ghost Value = { List ℕ };

    ghost view = { λ buffer. take buffer.len buffer.bytes };

    ghost invariant = { λ buffer. (length buffer.bytes ≡ BUFFER_LEN) × (buffer.len ≤ BUFFER_LEN) };
}

impl ReplyBuffer {
    /// Returns an empty buffer.
    pub(crate) fn new() -> ReplyBuffer
        ensures { result ≡ [] }
    {
        ReplyBuffer {
            bytes: [0; BUFFER_LEN],
            len: 0,
        }
    }

    /// Returns the bytes.
    #[inline]
    pub(crate) fn as_slice(&self) -> &[u8]
        ensures { result.now ≡ self.now }
    {
        &self.bytes[..self.len]
    }

    /// Removes all bytes.
    #[inline]
    pub(crate) fn clear(&mut self)
        ensures { self.new ≡ [] }
    {
        self.len = 0;
    }

    /// Returns `true` if there is room for [`MAX_REPLY_LEN`] bytes.
    #[inline]
    pub(crate) fn has_room(&self) -> bool
        ensures { IsTrue result ↔ (length self.now + MAX_REPLY_LEN ≤ BUFFER_LEN) }
    {
        self.len <= BUFFER_LEN - MAX_REPLY_LEN
    }

    /// Appends the first `len` of the bytes. There is room for all of them.
    #[inline(always)]
    fn put_first(&mut self, bytes: &[u8], len: usize)
        requires room { length self.old + length bytes.now ≤ BUFFER_LEN }
        requires within { len ≤ length bytes.now }
        ensures { self.new ≡ self.old ++ take len bytes.now }
    {
        let end = self.len + bytes.len();
        self.bytes[self.len..end].copy_from_slice(bytes);
        self.len += len;
    }

    /// Appends bytes for which there is room.
    #[inline(always)]
    pub(crate) fn put(&mut self, bytes: &[u8])
        requires { length self.old + length bytes.now ≤ BUFFER_LEN }
        ensures { self.new ≡ self.old ++ bytes.now }
    {
        self.put_first(bytes, bytes.len());
    }

    /// Appends the decimal text of a number, for which there is room.
    #[inline]
    pub(crate) fn put_number(&mut self, number: u64)
        requires { length self.old + MAX_DIGITS ≤ BUFFER_LEN }
        ensures value { self.new ≡ self.old ++ decimal number }
        ensures len { length self.new ≤ length self.old + MAX_DIGITS }
    {
        let mut digits = [0u8; 2 * MAX_DIGITS];
        let start = itoa::write_digits(number, &mut digits, MAX_DIGITS);
        // The number of copied bytes is constant, so that no function is called.
        self.put_first(&digits[start..start + MAX_DIGITS], MAX_DIGITS - start);
    }
}
