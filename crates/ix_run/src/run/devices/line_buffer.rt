//! The last piece of an input, and the current line.
ghost use Rattle.std.specs.Prelude.{◌≡◌, ◌≤◌, ◌+◌, ◌*◌, ◌↔◌, [], Some, IfSome, IsTrue, length, option_copied};
ghost use Rattle.ix_run.specs.inner.Input.{TakesLine, FillResult, current_line};
ghost use Rattle.ix_run.specs.declared.run.devices.limits.TheConstants.{BUFFER_LEN, MAX_LINE_LEN, MAX_TRIES};

use crate::run::ScriptFault;
use crate::run::devices::input::{line_end, read_once};
use crate::run::devices::limits::{BUFFER_LEN, MAX_LINE_LEN, MAX_TRIES};
use crate::run::devices::partial_line::PartialLine;
use std::io::Read;
use std::marker::Model;

/// The last piece that was read, and the current line. The line is a range of the piece, or, if it came in several pieces, its
/// bytes.
#[derive(Drop)]
pub(crate) struct LineBuffer {
    piece: [u8; BUFFER_LEN],
    line_start: usize,
    line_end: usize,
    joined: PartialLine,
    rest_start: usize,
    rest_end: usize,
    reads_left: u64,
}

impl Model for LineBuffer {
    ghost use Rattle.std.specs.Prelude.{◌≡◌, ◌≤◌, ◌+◌, ◌-◌, ◌*◌, length, take, drop};
    ghost use Rattle.ix_run.specs.inner.Input.{Unread};
    ghost use Rattle.ix_run.specs.declared.run.devices.limits.TheConstants.{BUFFER_LEN};

    ghost Value = { Unread };

    ghost view = { λ buffer. record {
      joined = buffer.joined;
      in_place = take (buffer.line_end - buffer.line_start) (drop buffer.line_start buffer.piece);
      rest = take (buffer.rest_end - buffer.rest_start) (drop buffer.rest_start buffer.piece);
      fuel = buffer.reads_left * (BUFFER_LEN + 1) + (buffer.rest_end - buffer.rest_start);
    } };

    ghost invariant = { λ buffer. (length buffer.piece ≡ BUFFER_LEN)
        × (buffer.line_start ≤ buffer.line_end)
        × (buffer.line_end ≤ BUFFER_LEN) × (buffer.rest_start ≤ buffer.rest_end)
        × (buffer.rest_end ≤ BUFFER_LEN) };
}

impl LineBuffer {
    /// Returns an empty buffer, into which nothing was read.
    pub(crate) fn new() -> LineBuffer
        ensures rest { result.rest ≡ [] }
        ensures fuel { result.fuel ≡ MAX_TRIES * (BUFFER_LEN + 1) }
    {
        LineBuffer {
            piece: [0; BUFFER_LEN],
            line_start: 0,
            line_end: 0,
            joined: PartialLine::new(),
            rest_start: 0,
            rest_end: 0,
            reads_left: MAX_TRIES,
        }
    }

    /// Returns the current line, without its line feed, or `None` if it has more than [`MAX_LINE_LEN`] bytes.
    #[inline]
    pub(crate) fn line(&self) -> Option<&[u8]>
        ensures value { option_copied result ≡ current_line self.now }
        ensures length { IfSome result (λ line. length line.now ≤ MAX_LINE_LEN) }
    {
        if !self.joined.is_empty() {
            return self.joined.get();
        }
        if self.line_end - self.line_start > MAX_LINE_LEN {
            return None;
        }
        Some(&self.piece[self.line_start..self.line_end])
    }

    /// Returns `true` if the current line has no byte.
    #[inline]
    pub(crate) fn is_line_empty(&self) -> bool
        ensures { IsTrue result ↔ (current_line self.now ≡ Some []) }
    {
        self.joined.is_empty() && self.line_start == self.line_end
    }

    /// Forgets the current line.
    #[inline]
    pub(crate) fn clear_line(&mut self)
        ensures joined { self.new.joined ≡ Some [] }
        ensures in_place { self.new.in_place ≡ [] }
        ensures rest { self.new.rest ≡ self.old.rest }
        ensures fuel { self.new.fuel ≡ self.old.fuel }
    {
        self.joined.clear();
        self.line_start = 0;
        self.line_end = 0;
    }

    /// Appends the rest of the piece to the current line up to the first line feed, and returns `true` if there is one.
    #[inline(always)]
    pub(crate) fn take_line(&mut self) -> bool
        requires { self.old.in_place ≡ [] }
        ensures { TakesLine self.old self.new result }
    {
        let Some(len) = line_end(&self.piece[self.rest_start..self.rest_end]) else {
            self.joined
                .append_range(&self.piece, self.rest_start, self.rest_end);
            self.rest_start = self.rest_end;
            return false;
        };
        let start = self.rest_start;
        let end = start + len;
        self.rest_start = end + 1;
        if self.joined.is_empty() {
            self.line_start = start;
            self.line_end = end;
            return true;
        }
        self.joined.append_range(&self.piece, start, end);
        true
    }

    /// Reads the next piece, and returns `true` at the end of the input. An interrupted read reads nothing.
    pub(crate) fn fill<R: Read>(&mut self, reader: &mut R) -> Result<bool, ScriptFault>
        requires in_place { self.old.in_place ≡ [] }
        requires rest { self.old.rest ≡ [] }
        ensures { FillResult (R.remaining reader.old) self.old
            (R.remaining reader.new) self.new result }
    {
        if self.reads_left == 0 {
            return Err(ScriptFault::Read);
        }
        self.reads_left -= 1;
        let Some(count) = read_once(reader, &mut self.piece)? else {
            return Ok(false);
        };
        self.rest_start = 0;
        self.rest_end = count;
        Ok(count == 0)
    }
}
