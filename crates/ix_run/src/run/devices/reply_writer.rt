//! Replies on their way to a writer.
ghost use Rattle.std.specs.Prelude.{◌≡◌, ◌<◌, ◌≤◌, ◌+◌, [], MatchResult, OnOk, IfErr, length, take};
ghost use Rattle.std.specs.Io.KnownBytes.{Appends, Keeps};
ghost use Rattle.ix_run.specs.inner.Writing.{AppendsPart, WriteResult};
ghost use Rattle.ix_run.specs.declared.run.devices.fault.ScriptFault.TheVariants as ScriptFault;
ghost use Rattle.ix_run.specs.declared.run.devices.limits.TheConstants.{BUFFER_LEN, MAX_REPLY_LEN};

use crate::run::ScriptFault;
use crate::run::devices::limits::{MAX_REPLY_LEN, MAX_TRIES};
use crate::run::devices::reply_buffer::{ReplyBuffer, ReplyPart};
use std::io::{ErrorKind, Write};

/// Writes the first `n` of the bytes, at least one, and returns `n`. An interrupted write is tried again.
#[tactic(auto, using(crate::proofs::KnownBytes::Keeps_refl, crate::proofs::KnownBytes::Keeps_trans, crate::proofs::KnownBytes::Keeps_Appends))]
fn write_some<W: Write>(writer: &mut W, bytes: &[u8]) -> Result<usize, ScriptFault>
    ensures { MatchResult result
        (λ n. (0 < n) × (n ≤ length bytes.now)
        × Appends (W.contents writer.old) (W.contents writer.new) (take n bytes.now))
        (λ e. (e ≡ ScriptFault.Write) × Keeps (W.contents writer.old) (W.contents writer.new)) }
{
    for _ in 0..MAX_TRIES {
        match writer.write(bytes) {
            Ok(0) => return Err(ScriptFault::Write),
            Ok(n) => return Ok(n),
            Err(error) => {
                if error.kind() != ErrorKind::Interrupted {
                    return Err(ScriptFault::Write);
                }
            }
        }
    }
    Err(ScriptFault::Write)
}

/// Writes all the bytes.
fn write_all<W: Write>(writer: &mut W, bytes: &[u8]) -> Result<(), ScriptFault>
    ensures ok { OnOk result (Appends (W.contents writer.old) (W.contents writer.new) bytes.now) }
    ensures err { IfErr result (λ fault. (fault ≡ ScriptFault.Write)
        × AppendsPart (W.contents writer.old) (W.contents writer.new) bytes.now) }
{
    let mut rest = bytes;
    while !rest.is_empty() {
        let n = write_some(writer, rest)?;
        rest = &rest[n..];
    }
    Ok(())
}

/// A writer, and the replies that are not written yet.
#[derive(Drop)]
pub(crate) struct ReplyWriter<'w, W> {
    writer: &'w mut W,
    pending: ReplyBuffer,
}

impl<'w, W: Write> ReplyWriter<'w, W> {
    /// Returns a reply writer with no pending bytes.
    pub(crate) fn new(writer: &'w mut W) -> ReplyWriter<'w, W>
        ensures writer { result.writer.now ≡ writer.old }
        ensures same_writer { result.writer.ghost_name ≡ writer.entry.ghost_name }
        ensures pending { result.pending ≡ [] }
    {
        ReplyWriter {
            writer,
            pending: ReplyBuffer::new(),
        }
    }

    /// Writes all pending bytes.
    pub(crate) fn write_pending(&mut self) -> Result<(), ScriptFault>
        ensures written { WriteResult W.contents self.old [] self.new result }
        ensures empty { OnOk result (self.new.pending ≡ []) }
    {
        write_all(self.writer, self.pending.as_slice())?;
        self.pending.clear();
        Ok(())
    }

    /// Writes all pending bytes, and flushes the writer.
    pub(crate) fn flush(&mut self) -> Result<(), ScriptFault>
        ensures written { WriteResult W.contents self.old [] self.new result }
        ensures empty { OnOk result (self.new.pending ≡ []) }
    {
        self.write_pending()?;
        match self.writer.flush() {
            Ok(()) => Ok(()),
            Err(_) => Err(ScriptFault::Write),
        }
    }

    /// Makes room for a reply: writes the pending bytes if less than [`MAX_REPLY_LEN`] bytes are free.
    #[inline]
    fn reserve(&mut self) -> Result<(), ScriptFault>
        ensures written { WriteResult W.contents self.old [] self.new result }
        ensures room { OnOk result (length self.new.pending + MAX_REPLY_LEN ≤ BUFFER_LEN) }
    {
        if self.pending.has_room() {
            return Ok(());
        }
        self.write_pending()
    }

    /// Appends at most [`MAX_REPLY_LEN`] bytes. Writes the pending ones first if there is no room.
    #[inline]
    #[tactic(auto, using(crate::proofs::Writing::WriterAppendsPart_after_nil))]
    pub(crate) fn append(&mut self, bytes: &[u8]) -> Result<(), ScriptFault>
        requires { length bytes.now ≤ MAX_REPLY_LEN }
        ensures { WriteResult W.contents self.old bytes.now self.new result }
    {
        self.reserve()?;
        self.pending.put(bytes);
        Ok(())
    }

    /// Appends a part of a reply. Writes the pending bytes first if there is no room.
    #[inline(always)]
    #[tactic(auto, using(crate::proofs::Writing::WriterAppendsPart_after_nil))]
    pub(crate) fn append_part<P: ReplyPart + Drop>(&mut self, part: P) -> Result<(), ScriptFault>
        ensures { WriteResult W.contents self.old (P.text part) self.new result }
    {
        self.reserve()?;
        part.put_into(&mut self.pending);
        Ok(())
    }
}
