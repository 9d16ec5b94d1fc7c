//! A line that comes in pieces.
ghost use Rattle.std.specs.Prelude.{◌≡◌, ◌↔◌, ◌≤◌, ◌-◌, Some, [], IsTrue, IfSome, length, take, drop, option_copied};
ghost use Rattle.ix_run.specs.Lines.{LimitedLine};
ghost use Rattle.ix_run.specs.inner.Input.{limited_line_append};
ghost use Rattle.ix_run.specs.declared.run.devices.limits.TheConstants.{MAX_LINE_LEN};

use crate::run::devices::limits::MAX_LINE_LEN;
use std::marker::Model;

/// The bytes of the current line so far, unless there are more than [`MAX_LINE_LEN`].
#[derive(Drop)]
pub(crate) struct PartialLine {
    bytes: [u8; MAX_LINE_LEN],
    len: usize,
}

impl Model for PartialLine {
    ghost use Rattle.std.specs.Prelude.{◌≡◌, ◌≤◌, ◌+◌, length};
    ghost use Rattle.ix_run.specs.Lines.{LimitedLine};
    ghost use Rattle.ix_run.specs.inner.Input.{buffered_line};
    ghost use Rattle.ix_run.specs.declared.run.devices.limits.TheConstants.{MAX_LINE_LEN};

    ghost Value = { LimitedLine };

    ghost view = { λ line. buffered_line line.bytes line.len };

    ghost invariant = { λ line. (length line.bytes ≡ MAX_LINE_LEN)
        × (line.len ≤ MAX_LINE_LEN + 1) };
}

impl PartialLine {
    /// Returns an empty line.
    pub(crate) fn new() -> PartialLine
        ensures { result ≡ Some [] }
    {
        PartialLine {
            bytes: [0; MAX_LINE_LEN],
            len: 0,
        }
    }

    /// Returns `true` if there is no byte.
    #[inline]
    pub(crate) fn is_empty(&self) -> bool
        ensures { IsTrue result ↔ (self.now ≡ Some []) }
    {
        self.len == 0
    }

    /// Returns the bytes, or `None` if there are more than [`MAX_LINE_LEN`].
    #[inline]
    pub(crate) fn get(&self) -> Option<&[u8]>
        ensures value { option_copied result ≡ self.now }
        ensures length { IfSome result (λ line. length line.now ≤ MAX_LINE_LEN) }
    {
        if self.len > MAX_LINE_LEN {
            return None;
        }
        Some(&self.bytes[..self.len])
    }

    /// Removes all bytes.
    #[inline]
    pub(crate) fn clear(&mut self)
        ensures { self.new ≡ Some [] }
    {
        self.len = 0;
    }

    /// Appends the next piece.
    #[inline]
    pub(crate) fn append(&mut self, piece: &[u8])
        ensures { self.new ≡ limited_line_append self.old piece.now }
    {
        if self.len > MAX_LINE_LEN {
            return;
        }
        if piece.is_empty() {
            return;
        }
        if piece.len() > MAX_LINE_LEN - self.len {
            self.len = MAX_LINE_LEN + 1;
            return;
        }
        let end = self.len + piece.len();
        self.bytes[self.len..end].copy_from_slice(piece);
        self.len = end;
    }

    /// Appends the bytes from `start` up to `end`.
    #[inline]
    pub(crate) fn append_range(&mut self, bytes: &[u8], start: usize, end: usize)
        requires { (start ≤ end) × (end ≤ length bytes.now) }
        ensures { self.new
            ≡ limited_line_append self.old (take (end - start) (drop start bytes.now)) }
    {
        self.append(&bytes[start..end]);
    }
}
