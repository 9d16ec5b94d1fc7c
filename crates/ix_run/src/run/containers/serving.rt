//! Replies to the lines of a script.
ghost use Rattle.std.specs.Prelude.{ℕ, ◌≡◌, IfSome, option_and_then, option_copied};
ghost use Rattle.ix_run.specs.Headers.{header_of};
ghost use Rattle.ix_run.specs.inner.Input.{lines_to_come};
ghost use Rattle.ix_run.specs.inner.Progress.{NextHeader, ReplyResult};
ghost use Rattle.ix_run.specs.Script.{replies_to_lines, replies_from_ready};
ghost use Rattle.ix_run.specs.inner.Containers.{IsEmptyContainer};
ghost use Rattle.ix_run.specs.declared.run.grammar.header.Container.{Container};

use crate::run::containers::served::{Served, answer};
use crate::run::devices::{LineReader, ReplyWriter};
use crate::run::{Header, ScriptFault, read_header};
use std::io::{Read, Write};

/// Returns the header that a line is, if it is one.
fn header_of_line(line: Option<&[u8]>) -> Option<Header>
    ensures { result ≡ option_and_then header_of (option_copied line.entry) }
{
    read_header(line?)
}

/// Replies `?` to the lines before the next header, and returns it, or `None` at the end of the input.
pub(crate) fn next_header<R: Read, W: Write>(
    lines: &mut LineReader<'_, R>,
    replies: &mut ReplyWriter<'_, W>,
) -> Result<Option<Header>, ScriptFault>
    ensures { NextHeader R.remaining W.contents (lines.old, replies.old)
        (lines.new, replies.new) result }
{
    while lines.next_line(replies)? {
        if let Some(header) = header_of_line(lines.line()) {
            return Ok(Some(header));
        }
        replies.append(b"?\n")?;
    }
    Ok(None)
}

/// Replies to the lines that come for a container, up to the end of the input.
fn reply_to_lines<C: Served, R: Read, W: Write>(
    container: &mut C,
    lines: &mut LineReader<'_, R>,
    replies: &mut ReplyWriter<'_, W>,
) -> Result<(), ScriptFault>
    ensures { ReplyResult R.remaining W.contents (lines.old, replies.old)
        (λ more. replies_to_lines C.reply C.after C.shown (C.model container.old)
        (lines_to_come lines.old.buffer more))
        (lines.new, replies.new) result }
{
    while lines.next_line(replies)? {
        answer(container, lines.line(), replies)?;
    }
    Ok(())
}

/// Replies `ready`, and then to the lines that come for an empty container, up to the end of the input.
pub(crate) fn serve<C: Served + Drop, R: Read, W: Write>(
    mut container: C,
    lines: &mut LineReader<'_, R>,
    replies: &mut ReplyWriter<'_, W>,
) -> Result<(), ScriptFault>
    ensures { (named : Container) (capacity : ℕ)
        → IsEmptyContainer C.reply C.after C.shown (C.model container) named capacity
        → ReplyResult R.remaining W.contents (lines.old, replies.old)
        (λ more. replies_from_ready named capacity (lines_to_come lines.old.buffer more))
        (lines.new, replies.new) result }
{
    replies.append(b"ready\n")?;
    reply_to_lines(&mut container, lines, replies)
}

/// Does the same as [`serve`] with the container, or writes the pending replies and stops if it was not made.
pub(crate) fn serve_made<C: Served + Drop, R: Read, W: Write>(
    made: Option<C>,
    lines: &mut LineReader<'_, R>,
    replies: &mut ReplyWriter<'_, W>,
) -> Result<(), ScriptFault>
    ensures { (named : Container) (capacity : ℕ)
        → IfSome made
        (λ made. IsEmptyContainer C.reply C.after C.shown (C.model made) named capacity)
        → ReplyResult R.remaining W.contents (lines.old, replies.old)
        (λ more. replies_from_ready named capacity (lines_to_come lines.old.buffer more))
        (lines.new, replies.new) result }
{
    let Some(container) = made else {
        replies.write_pending()?;
        return Err(ScriptFault::OutOfMemory);
    };
    serve(container, lines, replies)
}
