//! A container that a script runs commands on.
ghost use Rattle.std.specs.Prelude.{ℕ, ◌≡◌, ◌≤◌, List, Option, IfSome, length, option_copied, option_map};
ghost use Rattle.ix_run.specs.Lines.{with_line_feed};
ghost use Rattle.ix_run.specs.ReplyTexts.{reply_text_by};
ghost use Rattle.ix_run.specs.Script.{line_reply, line_after};
ghost use Rattle.ix_run.specs.inner.Writing.{WriteResult};
ghost use Rattle.ix_run.specs.declared.run.devices.limits.TheConstants.{MAX_LINE_LEN};

use crate::run::devices::ReplyWriter;
use crate::run::replies::ReplyKey;
use crate::run::{Reply, ScriptFault};
use std::io::Write;

/// A container that runs the commands which lines spell, and prints its contents.
pub(crate) trait Served {
    /// The type of the keys in replies.
    type Key: ReplyKey;

    /// The type of the model.
    ghost Model: { Type 0 };

    ghost model: { Self → Model };

    /// The text of the reply to the command that a line spells, if any.
    ghost reply: { Model → List ℕ → Option (List ℕ) };

    /// The model after the command.
    ghost after: { Model → List ℕ → Model };

    /// The text that `show` prints.
    ghost shown: { Model → List ℕ };

    /// Runs the command that the line spells, and returns the reply, or `None` if it spells none.
    fn run_line(&mut self, line: &[u8]) -> Option<Reply<Self::Key, u64>>
        requires { length line.now ≤ MAX_LINE_LEN }
        ensures value { option_map (reply_text_by Self.Key.text) result
            ≡ reply (model self.old) line.now }
        ensures model { model self.new ≡ after (model self.old) line.now };

    /// Appends the text that `show` prints, without a line feed.
    fn show<W: Write>(&self, replies: &mut ReplyWriter<'_, W>) -> Result<(), ScriptFault>
        ensures { WriteResult W.contents replies.old (shown (model self.now)) replies.new result };
}

/// Appends the line that shows the container.
#[tactic(auto, using(crate::proofs::Writing::WriteResult_append, crate::proofs::Writing::WriterAppendsPart_append))]
fn show_line<C: Served, W: Write>(
    container: &C,
    replies: &mut ReplyWriter<'_, W>,
) -> Result<(), ScriptFault>
    ensures { WriteResult W.contents replies.old
        (with_line_feed (C.shown (C.model container.now))) replies.new result }
{
    container.show(replies)?;
    replies.append(b"\n")
}

/// Serves a line, and appends the reply. The line is `None` if it is too long.
#[inline(always)]
pub(crate) fn answer<C: Served, W: Write>(
    container: &mut C,
    line: Option<&[u8]>,
    replies: &mut ReplyWriter<'_, W>,
) -> Result<(), ScriptFault>
    requires { IfSome line (λ bytes. length bytes.now ≤ MAX_LINE_LEN) }
    ensures model { C.model container.new
        ≡ line_after C.reply C.after C.shown (C.model container.old) (option_copied line.entry) }
    ensures reply { WriteResult W.contents replies.old
        (with_line_feed (line_reply C.reply C.after C.shown (C.model container.old)
        (option_copied line.entry)))
        replies.new result }
{
    let Some(line) = line else {
        return replies.append(b"?\n");
    };
    if line == b"show".as_slice() {
        return show_line(container, replies);
    }
    match container.run_line(line) {
        Some(reply) => replies.append_part(reply),
        None => replies.append(b"?\n"),
    }
}
