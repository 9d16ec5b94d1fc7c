//! A reader whose input is taken line by line.
ghost use Rattle.std.specs.Prelude.{◌≡◌, ◌≤◌, [], false, IfSome, length, option_copied};
ghost use Rattle.ix_run.specs.inner.Input.{current_line};
ghost use Rattle.ix_run.specs.inner.NextLine.{NextLine};
ghost use Rattle.ix_run.specs.declared.run.devices.limits.TheConstants.{MAX_LINE_LEN};

use crate::run::ScriptFault;
use crate::run::devices::line_buffer::LineBuffer;
use crate::run::devices::reply_writer::ReplyWriter;
use std::io::{Read, Write};

/// A reader, and the piece that was read from it last.
#[derive(Drop)]
pub(crate) struct LineReader<'r, R> {
    reader: &'r mut R,
    buffer: LineBuffer,
    is_at_end: bool,
}

impl<'r, R: Read> LineReader<'r, R> {
    /// Returns a line reader that has read nothing.
    pub(crate) fn new(reader: &'r mut R) -> LineReader<'r, R>
        ensures reader { result.reader.now ≡ reader.old }
        ensures same_reader { result.reader.ghost_name ≡ reader.entry.ghost_name }
        ensures rest { result.buffer.rest ≡ [] }
        ensures is_at_end { result.is_at_end ≡ false }
    {
        LineReader {
            reader,
            buffer: LineBuffer::new(),
            is_at_end: false,
        }
    }

    /// Returns the current line, without its line feed, or `None` if it has more than [`MAX_LINE_LEN`] bytes.
    #[inline]
    pub(crate) fn line(&self) -> Option<&[u8]>
        ensures value { option_copied result ≡ current_line self.now.buffer }
        ensures length { IfSome result (λ line. length line.now ≤ MAX_LINE_LEN) }
    {
        self.buffer.line()
    }

    /// Takes the next line, and returns `false` if there is none. The last line may lack a line feed. All pending replies are
    /// written before a read. Nothing is read after the end of the input.
    #[inline(always)]
    pub(crate) fn next_line<W: Write>(
        &mut self,
        replies: &mut ReplyWriter<'_, W>,
    ) -> Result<bool, ScriptFault>
        ensures { NextLine R.remaining W.contents self.old replies.old self.new replies.new result }
    {
        self.buffer.clear_line();
        while !self.buffer.take_line() {
            if self.is_at_end {
                return Ok(!self.buffer.is_line_empty());
            }
            replies.write_pending()?;
            self.is_at_end = self.buffer.fill(self.reader)?;
        }
        Ok(true)
    }
}
